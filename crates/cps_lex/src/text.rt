//! Strings: where they end, and which bytes they denote.
//!
//! `text_at` runs through a string once, up to the quote that closes it, and `push_text` once more
//! for the bytes that it denotes, where these are wanted.
ghost use Rattle.std.specs.Prelude.{◌≡◌, ◌++◌, ◌≤◌, length, take, OnOk, OnErr, IfSome};
ghost use Rattle.std.specs.Char.{encode_utf8};
ghost use Rattle.cps_lex.specs.Texts.{bytes_of, text_from, text_value};
ghost use Rattle.cps_lex.specs.Scan.{closing, text_at};

use super::escapes::{Denoted, Place, is_closed, step};
use super::types::TokenKind;
use std::alloc::AllocError;

/// The string that begins with `quote`, and its length.
#[tactic(auto, unfolding(crate::specs::Scan::text_at))]
pub(crate) fn text_at(quote: u8, after: &[u8]) -> Option<(TokenKind, usize)>
    ensures { result ≡ text_at quote after.now }
{
    match closing(quote, after) {
        Some(length) => Some((TokenKind::Text, 1 + length)),
        None => None,
    }
}

/// Appends the bytes that a string denotes; `text` is that of a `Text` token. Of other bytes it
/// appends what they denote as far as a string goes on, or closes. Without memory it appends none.
pub fn push_text(text: &[u8], bytes: &mut Vec<u8>) -> Result<(), AllocError>
    ensures ok { OnOk result (bytes.new.items ≡ bytes.old.items ++ text_value text.now) }
    ensures err { OnErr result (bytes.new.items ≡ bytes.old.items) }
{
    let [quote, after @ ..] = text else {
        return Ok(());
    };
    let before = bytes.len();
    match push_rest(*quote, after, bytes) {
        Ok(()) => Ok(()),
        Err(error) => {
            bytes.truncate(before);
            Err(error)
        }
    }
}

/// How many bytes there are up to the closing quote, with it.
fn closing(quote: u8, after: &[u8]) -> Option<usize>
    ensures value { result ≡ closing quote Place.Inside 0 after.now }
    ensures within { IfSome result (λ n. n ≤ length after.now) }
{
    let mut place = Place::Inside;
    for (i, byte) in after.iter().enumerate() {
        let Some((next, _)) = step(quote, place, *byte) else {
            return None;
        };
        if is_closed(next) {
            return Some(i + 1);
        }
        place = next;
    }
    None
}

/// Appends what the bytes behind the opening quote denote.
fn push_rest(quote: u8, after: &[u8], bytes: &mut Vec<u8>) -> Result<(), AllocError>
    ensures ok { OnOk result (bytes.new.items ≡ bytes.old.items ++ text_from quote Place.Inside after.now) }
    ensures err { OnErr result (take (length bytes.old.items) bytes.new.items ≡ bytes.old.items) }
{
    let mut place = Place::Inside;
    for byte in after {
        let Some((next, denoted)) = step(quote, place, *byte) else {
            return Ok(());
        };
        push_denoted(denoted, bytes)?;
        place = next;
    }
    Ok(())
}

fn push_denoted(denoted: Denoted, bytes: &mut Vec<u8>) -> Result<(), AllocError>
    ensures ok { OnOk result (bytes.new.items ≡ bytes.old.items ++ bytes_of denoted) }
    ensures err { OnErr result (bytes.new.items ≡ bytes.old.items) }
{
    match denoted {
        Denoted::Nothing => Ok(()),
        Denoted::One(byte) => {
            bytes.push(byte)?;
            Ok(())
        }
        Denoted::Two(first, second) => bytes.extend_from_slice(&[first, second]),
        Denoted::Character(character) => push_character(character, bytes),
    }
}

fn push_character(character: char, bytes: &mut Vec<u8>) -> Result<(), AllocError>
    ensures ok { OnOk result (bytes.new.items ≡ bytes.old.items ++ encode_utf8 character) }
    ensures err { OnErr result (bytes.new.items ≡ bytes.old.items) }
{
    let mut buffer = [0; 4];
    bytes.extend_from_slice(character.encode_utf8(&mut buffer).as_bytes())
}
