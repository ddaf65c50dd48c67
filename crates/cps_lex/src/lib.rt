//! The words of a model's text: bytes to tokens.
//!
//! `tokens` cuts the whole input in one pass. White space and comments separate tokens, and each
//! token is the longest that can stand at its place (longest match, as in the specification of the
//! Protocol Buffers text format). The contract is exact both ways: bytes that have tokens are cut
//! into just these, and else the answer is the first byte at which none can stand. `push_text` gives
//! the bytes that a string denotes, whether they are UTF-8 or not.
//!
//! `specs/Bytes` says what a byte is, `specs/Forms` how each kind of token is written, with
//! `specs/Floats` and `specs/Escapes` for the two that go byte by byte, `specs/Tokens` what the
//! tokens of an input are, and `specs/Texts` what a string denotes.
#![tactic(auto)]

mod bytes;
mod escapes;
mod float;
mod lexer;
mod number;
mod scan;
mod text;
mod types;

pub use lexer::tokens;
pub use text::push_text;
pub use types::{LexError, Token, TokenKind};
