//! The words of a line, and the atoms that they are.
ghost use Rattle.std.specs.Prelude.{◌≡◌, ◌≢◌, ◌↔◌, ◌++◌, ◌<◌, ◌^◌, ℕ, List, Some, IsTrue, MatchOption, length, slice_get, IfOk};
ghost use Rattle.std.specs.Char.{is_ascii_digit};
ghost use Rattle.cps_literal.specs.declared.atom.Op.{Op as OpOf};
ghost use Rattle.cps_literal.specs.declared.atom.Atom.{Atom as AtomOf};
ghost use Rattle.cps_log.specs.Subjects.{IsNear};
ghost use Rattle.cps_log.specs.Writing.{op_text, atom_word, clause_text};
ghost use Rattle.cps_log.specs.Fitting.{FitsAtom, FitsClause};
ghost use Rattle.cps_cert.specs.Words.{is_no_blank, IsRun, IsNextWord};

use crate::number::{natural_of, number_of};
use cps_literal::{Atom, Clause, Op};
use std::alloc::{AllocError, Global};

/// How many bytes stand before the first blank.
fn word_length(bytes: &[u8]) -> usize
    ensures { IsRun is_no_blank bytes.now result }
{
    for (count, byte) in bytes.iter().enumerate() {
        if *byte == b' ' {
            return count;
        }
    }
    bytes.len()
}

/// How many digits are first.
fn digit_count(bytes: &[u8]) -> usize
    ensures { IsRun is_ascii_digit bytes.now result }
{
    for (count, byte) in bytes.iter().enumerate() {
        if !byte.is_ascii_digit() {
            return count;
        }
    }
    bytes.len()
}

/// Whether a blank is first.
fn begins_with_blank(bytes: &[u8]) -> bool
    ensures { IsTrue result ↔ (slice_get bytes.now 0 ≡ Some 32) }
{
    match bytes.first() {
        Some(byte) => *byte == b' ',
        None => false,
    }
}

/// The word behind the first blank, and what stands behind it; `None` if no blank is first.
pub(crate) fn next_word(bytes: &[u8]) -> Option<(&[u8], &[u8])>
    ensures { MatchOption result (slice_get bytes.now 0 ≢ Some 32) (λ p. IsNextWord bytes.now p.0.now p.1.now) }
{
    if !begins_with_blank(bytes) {
        return None;
    }
    let others = &bytes[1..];
    let count = word_length(others);
    Some((&others[..count], &others[count..]))
}

/// The operator that is first, and what stands behind it.
fn next_op(bytes: &[u8]) -> Option<(Op, &[u8])>
    ensures { MatchOption result ((op : OpOf) (after : List ℕ) → bytes.now ≢ op_text op ++ after)
        (λ p. bytes.now ≡ op_text p.0 ++ p.1.now) }
{
    match bytes {
        [b'<', b'=', after @ ..] => Some((Op::Le, after)),
        [b'>', b'=', after @ ..] => Some((Op::Ge, after)),
        [b'!', b'=', after @ ..] => Some((Op::Ne, after)),
        [b'=', after @ ..] => Some((Op::Eq, after)),
        _ => None,
    }
}

/// The atom that a word is.
pub(crate) fn atom_of(word: &[u8]) -> Option<Atom>
    ensures { MatchOption result ((t : AtomOf) → FitsAtom t → word.now ≢ atom_word t)
        (λ t. FitsAtom t × (word.now ≡ atom_word t)) }
{
    let count = digit_count(word);
    let Some(subject) = natural_of(&word[..count]) else {
        return None;
    };
    let Some((op, after)) = next_op(&word[count..]) else {
        return None;
    };
    let Some(value) = number_of(after) else {
        return None;
    };
    Some(Atom { subject, op, value })
}

/// The clause whose atoms the words of a text are.
pub(crate) fn clause_of(alloc: Global, text: &[u8]) -> Result<Option<Clause>, AllocError>
    ensures { IfOk result (λ clause. MatchOption clause ((c : List AtomOf) → FitsClause c → text.now ≢ clause_text c)
        (λ c. FitsClause c × (text.now ≡ clause_text c))) }
{
    let mut clause = Clause::new(alloc);
    let mut rest = text;
    while !rest.is_empty() {
        let Some((word, after)) = next_word(rest) else {
            return Ok(None);
        };
        let Some(atom) = atom_of(word) else {
            return Ok(None);
        };
        clause.push(atom)?;
        rest = after;
    }
    Ok(Some(clause))
}
