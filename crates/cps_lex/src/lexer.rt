//! The tokens of a whole input.
ghost use Rattle.std.specs.Prelude.{◌≡◌, ◌<◌, ◌≤◌, ◌^◌, length, IfOk, IfErr, List, All};
ghost use Rattle.cps_lex.specs.declared.types.Token.{Token};
ghost use Rattle.cps_lex.specs.Tokens.{AreTokens, IsSpanWithin, IsLexRefusal, GivesTokens};

use super::scan::{blank_length, token_at};
use super::types::{LexError, Token};
use std::alloc::Global;

/// Cuts the bytes into tokens, in one pass.
pub fn tokens(alloc: Global, bytes: &[u8]) -> Result<Vec<Token>, LexError>
    requires { length bytes.now < 2 ^ 32 }
    ensures ok { IfOk result (λ v. AreTokens bytes.now v.items) }
    ensures err { IfErr result (IsLexRefusal bytes.now) }

    // Bytes that have tokens are cut into these, unless memory runs out.
    ensures only { (ts : List Token) → AreTokens bytes.now ts → GivesTokens result ts }

    // What a caller needs to look at the tokens.
    ensures count { IfOk result (λ v. length v.items ≤ length bytes.now) }
    ensures spans { IfOk result (λ v. All (IsSpanWithin bytes.now) v.items) }
{
    let mut tokens = Vec::new(alloc);
    let mut at = blank_length(bytes);
    while at < bytes.len() {
        let Some((kind, length)) = token_at(&bytes[at..]) else {
            return Err(LexError::NoToken { at });
        };
        let end = at + length;
        tokens.push(Token {
            kind,
            start: at as u32,
            end: end as u32,
        })?;
        at = end + blank_length(&bytes[end..]);
    }
    Ok(tokens)
}
