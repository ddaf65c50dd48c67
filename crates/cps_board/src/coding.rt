//! An atom as two words.
ghost use Rattle.std.specs.Prelude.{◌≡◌, ◌<◌, ◌^◌};
ghost use Rattle.cps_port.specs.Words.{value_word};
ghost use Rattle.cps_board.specs.Coding.{op_code, op_of, head_word, atom_of};

use cps_literal::{Atom, Op};
use cps_model::Bound;
use cps_port::word::{value_of, word_of};

/// The number of a comparison in an atom's first word.
fn op_code(op: Op) -> u64
    ensures { result ≡ op_code op }
{
    match op {
        Op::Le => 0,
        Op::Ge => 1,
        Op::Eq => 2,
        Op::Ne => 3,
    }
}

/// The comparison of this number.
fn op_of(code: u64) -> Op
    ensures { result ≡ op_of code }
{
    match code {
        0 => Op::Le,
        1 => Op::Ge,
        2 => Op::Eq,
        _ => Op::Ne,
    }
}

/// The first word of an atom: its subject and its comparison.
pub fn head_word(atom: &Atom) -> u64
    ensures { result ≡ head_word atom.now }
{
    4 * u64::from(atom.subject) + op_code(atom.op)
}

/// The second word of an atom: its number.
pub fn number_word(atom: &Atom) -> u64
    ensures { result ≡ value_word atom.now.value }
{
    word_of(Bound::At(atom.value))
}

/// The atom of two words.
pub fn atom_of(head: u64, number: u64) -> Atom
    requires { head < 2 ^ 34 }
    ensures { result ≡ atom_of head number }
{
    Atom {
        subject: (head / 4) as u32,
        op: op_of(head % 4),
        value: value_of(number),
    }
}
