//! A document, read in one pass.
ghost use Rattle.std.specs.Prelude.{◌≡◌, ◌<◌, ◌^◌, length, IfOk, IfErr};
ghost use Rattle.cps_textproto.specs.declared.reading.TextError.TheVariants.{OutOfMemory};
ghost use Rattle.cps_textproto.specs.Symbols.{symbols};
ghost use Rattle.cps_textproto.specs.Trees.{Tree, NumbersBelow, tree_of};
ghost use Rattle.cps_textproto.specs.Reading.{HasTree, IsTextRefusal, GivesTree};
ghost use Rattle.cps_textproto.specs.Building.{Ends, build_of, empty_build};

use super::builder::{Builder, act, action_of, innermost, node_of};
use super::machine::{DEPTH, Mode, Place, may_end, step};
use super::symbol::symbol_of;
use super::tree::Node;
use cps_lex::Token;
use std::alloc::{AllocError, AllocFailed, Global};
use std::convert::From;
use thiserror::Error;

/// Why tokens are no document.
#[derive(Debug, Drop, Error)]
pub enum TextError {
    /// The first token with which no document continues. It is the number of tokens if they begin a document but are
    /// none themselves.
    #[error("no document at token {token}")]
    NotADocument { token: usize },
    #[error("out of memory")]
    OutOfMemory,
}

impl From<AllocError> for TextError {
    ghost from_gives = { λ _ e. e ≡ OutOfMemory };

    fn from(_: AllocError) -> Self {
        TextError::OutOfMemory
    }
}

impl<T: Drop> From<AllocFailed<T>> for TextError {
    ghost from_gives = { λ _ e. e ≡ OutOfMemory };

    fn from(_: AllocFailed<T>) -> Self {
        TextError::OutOfMemory
    }
}

/// Reads the tokens as a document, in one pass.
pub fn document(alloc: Global, bytes: &[u8], tokens: &[Token]) -> Result<Node, TextError>
    requires { length tokens.now < 2 ^ 32 }
    ensures ok { IfOk result (λ node. HasTree (symbols bytes.now tokens.now) (tree_of node)) }
    ensures err { IfErr result (IsTextRefusal (symbols bytes.now tokens.now)) }

    // Tokens that are a document are read as its tree, unless memory runs out.
    ensures only { (tree : Tree) → HasTree (symbols bytes.now tokens.now) tree → GivesTree result tree }

    // What a caller needs to look up the tokens.
    ensures below { IfOk result (λ node. NumbersBelow (length tokens.now) (tree_of node)) }
{
    match built(alloc, bytes, tokens) {
        Ok(builder) => {
            let Builder { fields, .. } = builder;
            Ok(node_of(fields))
        }
        Err(error) => Err(error),
    }
}

fn empty(alloc: Global) -> Builder
    ensures { build_of result ≡ empty_build }
{
    Builder {
        fields: Vec::new(alloc),
        opened: Vec::new(alloc),
        name: 0,
        first: 0,
        scalars: Vec::new(alloc),
        messages: Vec::new(alloc),
    }
}

fn built(alloc: Global, bytes: &[u8], tokens: &[Token]) -> Result<Builder, TextError>
    requires { length tokens.now < 2 ^ 32 }
    ensures { Ends (symbols bytes.now tokens.now) result }
{
    let mut place = Place {
        mode: Mode::Between,
        room: DEPTH,
    };
    let mut builder = empty(alloc);
    for (i, token) in tokens.iter().enumerate() {
        let symbol = symbol_of(bytes, *token);
        let Some(next) = step(place, innermost(&builder), symbol) else {
            return Err(TextError::NotADocument { token: i });
        };
        act(&mut builder, alloc, action_of(place.mode, symbol), i as u32)?;
        place = next;
    }
    if may_end(place.mode, innermost(&builder)) {
        Ok(builder)
    } else {
        Err(TextError::NotADocument {
            token: tokens.len(),
        })
    }
}
