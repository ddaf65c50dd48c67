//! The way from a text to its model, or to the fault for which it is refused.
use cps_lex::{Token, tokens};
use cps_model::CpModel;
use cps_schema::{FaultName, SchemaError, model_of, model_with};
use cps_textproto::document;
use cps_validate::{ValidModel, validate};
use std::alloc::Global;
use std::process::Abort;
use std::test::Fail;

/// The model that the document on these tokens is read as.
fn meaning(
    rt: &impl Abort,
    alloc: Global,
    bytes: &[u8],
    tokens: &[Token],
) -> Result<CpModel, Fail> {
    assert!(rt; tokens.len() < 1000);
    let node = document(alloc, bytes, tokens)?;
    Ok(model_of(alloc, bytes, tokens, &node)?)
}

/// The model that a text is read as.
pub fn model(rt: &impl Abort, alloc: Global, text: &str) -> Result<CpModel, Fail> {
    let bytes = text.as_bytes();
    assert!(rt; bytes.len() < 1000);
    let tokens = tokens(alloc, bytes)?;
    meaning(rt, alloc, bytes, &tokens)
}

/// The model of one constraint that a field of a kind gives.
pub fn model_of_kind(rt: &impl Abort, alloc: Global, field: &str) -> Result<CpModel, Fail> {
    let text = format!(in alloc; "constraints {{ {field} }}")?;
    model(rt, alloc, text.as_str())
}

/// The valid model that a text is read as.
pub fn valid_model(rt: &impl Abort, alloc: Global, text: &str) -> Result<ValidModel, Fail> {
    Ok(validate(alloc, model(rt, alloc, text)?)?)
}

/// The fault of a reading, with the first byte of the token at which it is.
fn fault_of(
    reading: Result<CpModel, SchemaError>,
    tokens: &[Token],
) -> Result<(FaultName, u32), Fail> {
    match reading {
        Ok(_) => Err(Fail::from("read as a model")),
        Err(SchemaError::Fault { name, token }) => {
            let token = tokens.get(token).ok_or("no such token")?;
            Ok((name, token.start))
        }
        Err(error) => Err(Fail::from(error)),
    }
}

/// The fault of the document on these tokens where no field is closed.
fn fault(
    rt: &impl Abort,
    alloc: Global,
    bytes: &[u8],
    tokens: &[Token],
) -> Result<(FaultName, u32), Fail> {
    assert!(rt; tokens.len() < 1000);
    let node = document(alloc, bytes, tokens)?;
    fault_of(model_with(alloc, &[], bytes, tokens, &node), tokens)
}

/// The fault for which a text is refused, with the first byte of the token at which it is.
pub fn refusal(rt: &impl Abort, alloc: Global, text: &str) -> Result<(FaultName, u32), Fail> {
    let bytes = text.as_bytes();
    assert!(rt; bytes.len() < 1000);
    let tokens = tokens(alloc, bytes)?;
    fault(rt, alloc, bytes, &tokens)
}
