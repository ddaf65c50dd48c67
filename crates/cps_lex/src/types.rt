//! Tokens, and why bytes have none.
ghost use Rattle.std.specs.Prelude.{◌≡◌};
ghost use Rattle.cps_lex.specs.declared.types.LexError.TheVariants.{OutOfMemory};

use std::alloc::{AllocError, AllocFailed};
use std::convert::From;
use thiserror::Error;

/// What a token is.
#[derive(Clone, Copy, Debug, PartialEq)]
pub enum TokenKind {
    /// A letter or `_`, then letters, digits and `_`.
    Identifier,
    /// `0`, or a digit from 1 to 9 and further digits.
    Decimal,
    /// `0` and one or more digits from 0 to 7.
    Octal,
    /// `0x` or `0X` and one or more hexadecimal digits.
    Hexadecimal,
    /// A number with a point, an exponent or an `f` behind it.
    Float,
    /// Single or double quotes round bytes and escapes; `push_text` gives its value.
    Text,
    /// One of `: { } < > [ ] , ; -`.
    Sign,
}

/// A token: its kind, and the bytes `start..end` of the input that it stands on.
#[derive(Clone, Copy, Debug, PartialEq)]
pub struct Token {
    pub kind: TokenKind,
    pub start: u32,
    pub end: u32,
}

/// Why bytes have no tokens.
#[derive(Debug, Drop, Error)]
pub enum LexError {
    /// At byte `at`, and at none before it, no token can stand, or one begins that is not finished.
    #[error("no token at byte {at}")]
    NoToken { at: usize },
    #[error("out of memory")]
    OutOfMemory,
}

impl From<AllocError> for LexError {
    ghost from_gives = { λ _ e. e ≡ OutOfMemory };

    fn from(_: AllocError) -> Self {
        LexError::OutOfMemory
    }
}

impl<T: Drop> From<AllocFailed<T>> for LexError {
    ghost from_gives = { λ _ e. e ≡ OutOfMemory };

    fn from(_: AllocFailed<T>) -> Self {
        LexError::OutOfMemory
    }
}
