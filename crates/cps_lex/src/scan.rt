//! The token at the front of some bytes.
//!
//! What can stand there is known by the first byte, so no other token is tried; a number's bytes are read once more for
//! each of its forms.
ghost use Rattle.std.specs.Prelude.{◌≡◌, ◌≤◌, false, length, MatchOption};
ghost use Rattle.std.specs.List.{prefix_len};
ghost use Rattle.cps_lex.specs.Bytes.{is_word};
ghost use Rattle.cps_lex.specs.Tokens.{blank_length, IsLongest, NoneStands};
ghost use Rattle.cps_lex.specs.Scan.{scan};

use super::bytes::{
    is_blank, is_number_start, is_quote, is_sign, is_word, is_word_start, opens_comment,
};
use super::number::number_at;
use super::text::text_at;
use super::types::TokenKind;

/// How many bytes of white space and comments stand at the front.
pub(crate) fn blank_length(rest: &[u8]) -> usize
    ensures value { result ≡ blank_length false rest.now }
    ensures within { result ≤ length rest.now }
{
    let mut inside = false;
    for (i, byte) in rest.iter().enumerate() {
        if !is_blank(inside, *byte) {
            return i;
        }
        inside = opens_comment(inside, *byte);
    }
    rest.len()
}

/// The longest token that can stand at the front, and its length.
pub(crate) fn token_at(rest: &[u8]) -> Option<(TokenKind, usize)>
    ensures { MatchOption result (NoneStands rest.now) (λ t. IsLongest rest.now t.0 t.1) }
{
    scan(rest)
}

#[tactic(auto, unfolding(crate::specs::Scan::scan))]
fn scan(rest: &[u8]) -> Option<(TokenKind, usize)>
    ensures { result ≡ scan rest.now }
{
    let [first, after @ ..] = rest else {
        return None;
    };
    if is_word_start(*first) {
        return Some((TokenKind::Identifier, 1 + word_length(after)));
    }
    if is_number_start(*first) {
        return number_at(*first, after);
    }
    if is_sign(*first) {
        return Some((TokenKind::Sign, 1));
    }
    if is_quote(*first) {
        return text_at(*first, after);
    }
    None
}

/// How many letters, digits and `_` stand at the front.
fn word_length(rest: &[u8]) -> usize
    ensures value { result ≡ prefix_len is_word rest.now }
    ensures within { result ≤ length rest.now }
{
    for (i, byte) in rest.iter().enumerate() {
        if !is_word(*byte) {
            return i;
        }
    }
    rest.len()
}
