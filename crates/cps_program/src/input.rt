//! An input, from its bytes to a model, and to a valid one.
ghost use Rattle.std.specs.Prelude.{◌≡◌, ◌≤◌, length, IfOk, IfErr};
ghost use Rattle.cps_textproto.specs.Trees.{tree_of};
ghost use Rattle.cps_print.specs.Responses.{HasShowableLimits};
ghost use Rattle.cps_kinds.specs.Kinds.{AreAllPropagated};
ghost use Rattle.cps_program.specs.Inputs.{most_bytes, byte_of, IsModelText, IsInput};
ghost use Rattle.cps_program.specs.Reading.{AreOnlyTokens, IsParsed, IsMeant, IsInputRefusal};

use cps_lex::{LexError, Token, tokens};
use cps_model::CpModel;
use cps_print::Fault;
use cps_schema::{SchemaError, model_of};
use cps_textproto::{Node, TextError, document};
use cps_validate::{ValidModel, ValidateError, validate};
use std::alloc::Global;

/// Why an input could not be read as a model, or as a valid one.
#[derive(Drop)]
pub enum InputError {
    /// It is no model, or no valid one.
    Fault(Fault),
    OutOfMemory,
}

/// The byte at which a token begins; the length of the input behind the last token.
fn byte_of(bytes: &[u8], tokens: &[Token], token: usize) -> usize
    ensures { result ≡ byte_of bytes.now tokens.now token }
{
    match tokens.get(token) {
        Some(token) => token.start as usize,
        None => bytes.len(),
    }
}

/// The tokens of the bytes.
fn tokens_of(alloc: Global, bytes: &[u8]) -> Result<Vec<Token>, InputError>
    requires { length bytes.now ≤ most_bytes }
    ensures ok { IfOk result (λ tokens. AreOnlyTokens bytes.now tokens.items) }
    ensures err { IfErr result (IsInputRefusal IsModelText bytes.now) }
{
    match tokens(alloc, bytes) {
        Ok(tokens) => Ok(tokens),
        Err(LexError::NoToken { at }) => Err(InputError::Fault(Fault::Text { byte: at })),
        Err(LexError::OutOfMemory) => Err(InputError::OutOfMemory),
    }
}

/// The document that the tokens are.
fn node_of(alloc: Global, bytes: &[u8], tokens: &[Token]) -> Result<Node, InputError>
    requires short { length bytes.now ≤ most_bytes }
    requires cut { AreOnlyTokens bytes.now tokens.now }
    ensures ok { IfOk result (λ node. IsParsed bytes.now tokens.now (tree_of node)) }
    ensures err { IfErr result (IsInputRefusal IsModelText bytes.now) }
{
    match document(alloc, bytes, tokens) {
        Ok(node) => Ok(node),
        Err(TextError::NotADocument { token }) => Err(InputError::Fault(Fault::Text {
            byte: byte_of(bytes, tokens, token),
        })),
        Err(TextError::OutOfMemory) => Err(InputError::OutOfMemory),
    }
}

/// The model that the document means.
fn meaning_of(
    alloc: Global,
    bytes: &[u8],
    tokens: &[Token],
    node: &Node,
) -> Result<CpModel, InputError>
    requires short { length bytes.now ≤ most_bytes }
    requires cut { AreOnlyTokens bytes.now tokens.now }
    requires parsed { IsParsed bytes.now tokens.now (tree_of node.now) }
    ensures ok { IfOk result (IsMeant bytes.now) }
    ensures err { IfErr result (IsInputRefusal IsModelText bytes.now) }
{
    match model_of(alloc, bytes, tokens, node) {
        Ok(model) => Ok(model),
        Err(SchemaError::Fault { name, token }) => Err(InputError::Fault(Fault::Field {
            name,
            byte: byte_of(bytes, tokens, token),
        })),
        Err(SchemaError::OutOfMemory) => Err(InputError::OutOfMemory),
    }
}

/// The model that the bytes are the text of. No rule is tested. The tokens are dropped, so that solving has their
/// memory.
pub fn read_model(alloc: Global, bytes: &[u8]) -> Result<CpModel, InputError>
    requires { length bytes.now ≤ most_bytes }
    ensures ok { IfOk result (IsMeant bytes.now) }
    ensures err { IfErr result (IsInputRefusal IsModelText bytes.now) }
{
    let tokens = tokens_of(alloc, bytes)?;
    let node = node_of(alloc, bytes, &tokens)?;
    meaning_of(alloc, bytes, &tokens, &node)
}

/// The valid model that the bytes are the text of. Its objective's offset and scaling factor are within what can be
/// shown, and each of its kinds has a propagator: the reader takes no others.
pub fn valid_model_of(alloc: Global, bytes: &[u8]) -> Result<ValidModel, InputError>
    requires { length bytes.now ≤ most_bytes }
    ensures ok { IfOk result (IsInput bytes.now) }
    ensures showable { IfOk result (λ model. HasShowableLimits model.objective) }
    ensures kinds { IfOk result AreAllPropagated }
    ensures err { IfErr result (IsInputRefusal IsInput bytes.now) }
{
    let model = read_model(alloc, bytes)?;
    match validate(alloc, model) {
        Ok(model) => Ok(model),
        Err(ValidateError::Invalid { rule, place }) => Err(InputError::Fault(Fault::Rule {
            rule,
            place,
        })),
        Err(ValidateError::OutOfMemory) => Err(InputError::OutOfMemory),
    }
}
