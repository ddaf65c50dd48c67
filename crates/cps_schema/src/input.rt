//! What is written on tokens.
ghost use Rattle.std.specs.Prelude.{◌≡◌, ◌-◌, take, drop};
ghost use Rattle.std.specs.Str.{bytes_eq};
ghost use Rattle.cps_schema.specs.Written.{token_text, token_kind};
ghost use Rattle.cps_schema.specs.Inputs.{written_of};

use cps_lex::{Token, TokenKind};

/// The bytes of a document and its tokens, and the names of the fields that are closed.
#[derive(Clone, Copy)]
pub struct Input<'a> {
    pub bytes: &'a [u8],
    pub tokens: &'a [Token],
    pub closed: &'a [&'a [u8]],
}

/// The text of a token, empty if there is no token of this number.
#[tactic(auto, unfolding(crate::specs::Written::token_text))]
pub(crate) fn token_text<'a>(input: &Input<'a>, token: usize) -> &'a [u8]
    ensures { result.now ≡ token_text (written_of input.now) token }
{
    match input.tokens.get(token) {
        Some(found) => span_text(input.bytes, found.start as usize, found.end as usize),
        None => &[],
    }
}

/// Whether two texts are the same.
pub(crate) fn same_text(text: &[u8], other: &[u8]) -> bool
    ensures { result ≡ bytes_eq text.now other.now }
{
    text == other
}

/// The bytes `start..end`, as far as there are any.
pub(crate) fn span_text(bytes: &[u8], start: usize, end: usize) -> &[u8]
    ensures { result.now ≡ take (end - start) (drop start bytes.now) }
{
    let rest = &bytes[start.min(bytes.len())..];
    &rest[..end.saturating_sub(start).min(rest.len())]
}

/// The kind of a token. `None` if there is no token of this number.
#[tactic(auto, unfolding(crate::specs::Written::token_kind))]
pub(crate) fn token_kind(input: &Input, token: usize) -> Option<TokenKind>
    ensures { result ≡ token_kind (written_of input.now) token }
{
    input.tokens.get(token).map(|found| found.kind)
}

/// The first `n` bytes, or all if there are fewer.
#[tactic(auto, using(std::proofs::lemmas::List::take_min))]
pub(crate) fn front(text: &[u8], n: u64) -> &[u8]
    ensures { result.now ≡ take n text.now }
{
    &text[..(n as usize).min(text.len())]
}

/// The bytes after the first `n`.
#[tactic(auto, using(std::proofs::lemmas::List::take_rest, std::proofs::lemmas::List::drop_min))]
pub(crate) fn behind(text: &[u8], n: u64) -> &[u8]
    ensures { result.now ≡ drop n text.now }
{
    &text[(n as usize).min(text.len())..]
}
