//! The order in which waiting propagators of one price are visited: in sweeps, in which their numbers rise and fall by
//! turns.

ghost use Rattle.std.specs.Prelude.{◌≡◌, ◌++◌, [], ◌∷◌, OnOk, OnErr, IfSome, IsNone, IsPermutation};

use std::alloc::{AllocError, Global};
use std::marker::Model;
use std::mem;

/// Sorts numbers such that, taken from the end, they rise or fall.
fn put_in_order(numbers: &mut Vec<u32>, is_rising: bool)
    ensures { IsPermutation numbers.old.items numbers.new.items }
{
    if is_rising {
        numbers.sort_unstable_by_key(|number| !*number);
    } else {
        numbers.sort_unstable();
    }
}

/// Numbers that are taken out in sweeps, in which they rise and fall by turns. One that comes while a sweep is on waits
/// for the next. So a chain of sums is gone along in both directions within two sweeps, where in the order in which
/// they come each link may take a sweep.
#[derive(Drop)]
pub(crate) struct Sweeps {
    /// What is left of this sweep: the last is taken first.
    sweep: Vec<u32>,
    /// What waits for the next sweep.
    next: Vec<u32>,
    /// Whether the numbers of the next sweep rise.
    is_rising: bool,
}

impl Model for Sweeps {
    ghost use Rattle.std.specs.Prelude.{ℕ, List, ◌++◌};

    ghost Value = { List ℕ };

    ghost view = { λ r. r.sweep.items ++ r.next.items };
}

impl Sweeps {
    /// No number. The first sweep rises.
    pub(crate) fn new(alloc: Global) -> Self
        ensures { result ≡ [] }
    {
        Sweeps {
            sweep: Vec::new(alloc),
            next: Vec::new(alloc),
            is_rising: true,
        }
    }

    /// Makes room for so many numbers.
    pub(crate) fn reserve(&mut self, count: usize) -> Result<(), AllocError>
        ensures { self.new ≡ self.old }
    {
        self.sweep.reserve(count)?;
        self.next.reserve(count)
    }

    /// Adds a number to the next sweep.
    pub(crate) fn push(&mut self, number: u32) -> Result<(), AllocError>
        ensures adds { OnOk result (self.new ≡ self.old ++ number ∷ []) }
        ensures err { OnErr result (self.new ≡ self.old) }
    {
        self.next.push(number)?;
        Ok(())
    }

    /// Takes out the next number.
    pub(crate) fn pop(&mut self) -> Option<u32>
        ensures taken { IfSome result (λ number. IsPermutation self.old (number ∷ self.new)) }
        ensures none { IsNone result → self.old ≡ [] }
        ensures same { IsNone result → self.new ≡ self.old }
    {
        if let Some(number) = self.sweep.pop() {
            return Some(number);
        }
        mem::swap(&mut self.sweep, &mut self.next);
        put_in_order(&mut self.sweep, self.is_rising);
        self.is_rising = !self.is_rising;
        self.sweep.pop()
    }
}
