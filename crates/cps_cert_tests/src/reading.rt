//! The way from a text to a valid model.
use cps_lex::{Token, tokens};
use cps_model::CpModel;
use cps_schema::model_of;
use cps_textproto::document;
use cps_validate::{ValidModel, validate};
use std::alloc::Global;
use std::process::Abort;
use std::test::Fail;

/// The model that the document on these tokens is read as.
fn meaning(
    rt: &impl Abort,
    alloc: Global,
    bytes: &[u8],
    tokens: &[Token],
) -> Result<CpModel, Fail> {
    assert!(rt; tokens.len() < 10_000);
    let node = document(alloc, bytes, tokens)?;
    Ok(model_of(alloc, bytes, tokens, &node)?)
}

/// The model that a text is read as.
fn model(rt: &impl Abort, alloc: Global, text: &str) -> Result<CpModel, Fail> {
    let bytes = text.as_bytes();
    assert!(rt; bytes.len() < 10_000);
    let tokens = tokens(alloc, bytes)?;
    meaning(rt, alloc, bytes, &tokens)
}

/// The valid model that a text is read as.
pub fn valid_model(rt: &impl Abort, alloc: Global, text: &str) -> Result<ValidModel, Fail> {
    Ok(validate(alloc, model(rt, alloc, text)?)?)
}
