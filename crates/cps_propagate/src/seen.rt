//! Which entries of a store stood at a propagator's last visit.
//!
//! Each entry gets the number of the turn in which it was first seen, and each visit notes its turn. A turn begins where
//! entries came since the last one. So the first n entries stand since a visit if the last of them came in a turn no
//! later than the visit's: to go back takes no more than to forget the entries that are gone, however many propagators
//! there are.

ghost use Rattle.std.specs.Prelude.{ℕ, ◌≡◌, ◌⊎◌, ◌≤◌, [], length, OnOk, IfSome, MatchOption};
ghost use Rattle.cps_propagate.specs.Recalling.{Stand};

use std::alloc::{AllocError, Global};
use std::marker::Model;

/// The turns in which entries came, and those in which propagators were visited last.
#[derive(Drop)]
pub(crate) struct Seen {
    /// By entry, the turn in which it came.
    stamps: Vec<u64>,
    /// By propagator, the turn of its last visit; 0 if that is forgotten.
    visits: Vec<u64>,
    turn: u64,
}

impl Model for Seen {
    ghost use Rattle.std.specs.Prelude.{◌≤◌, All};
    ghost use Rattle.cps_propagate.specs.Recalling.{Seen as SeenOf};

    ghost Value = { SeenOf };

    ghost view = { λ r. record { stamps = r.stamps.items; visits = r.visits.items } };

    ghost invariant = { λ r. All (λ v. v ≤ r.turn) r.visits.items };
}

impl Seen {
    /// No entry was seen, and there is no propagator.
    pub(crate) fn new(alloc: Global) -> Self
        ensures { result ≡ record { stamps = []; visits = [] } }
    {
        Seen {
            stamps: Vec::new(alloc),
            visits: Vec::new(alloc),
            turn: 1,
        }
    }

    /// Makes room for one more propagator, the next by number, which was never visited.
    pub(crate) fn add(&mut self) -> Result<(), AllocError>
        ensures { OnOk result ((number n : ℕ) → Stand self.new number n → Stand self.old number n) }
    {
        self.visits.push(0)?;
        Ok(())
    }

    /// Forgets all visits and entries.
    fn forget(&mut self) -> Result<(), AllocError>
        ensures none { OnOk result ((number n : ℕ) → Stand self.new number n → ⊥) }
        ensures within { length self.new.stamps ≡ 0 }
    {
        let count = self.visits.len();
        self.stamps.clear();
        self.visits.clear();
        self.visits.resize(count, 0)?;
        Ok(())
    }

    /// Forgets all entries but the first `count`.
    fn truncate(&mut self, count: usize)
        ensures stand { (number n : ℕ) → Stand self.new number n → Stand self.old number n × (n ≤ count) }
        ensures within { length self.new.stamps ≤ count }
    {
        self.stamps.truncate(count);
    }

    /// Begins a turn, if there are more entries than were seen. There are `count` now.
    pub(crate) fn note(&mut self, count: usize) -> Result<(), AllocError>
        requires { length self.old.stamps ≤ count }
        ensures stand { OnOk result ((number n : ℕ) → Stand self.new number n → Stand self.old number n) }
        ensures within { length self.new.stamps ≤ count }
    {
        // No run takes so many turns; further entries would be taken for new ones at each visit.
        if count == self.stamps.len() || self.turn == u64::MAX {
            return Ok(());
        }
        self.turn += 1;
        self.stamps.resize(count, self.turn)?;
        Ok(())
    }

    /// Forgets all entries but the first `rested` of `count`; all visits too if `rested` is `None`.
    fn go_back(&mut self, rested: Option<usize>, count: usize) -> Result<(), AllocError>
        ensures stand { OnOk result ((number n : ℕ) → Stand self.new number n
            → MatchOption rested ⊥ (λ from. Stand self.old number n × (n ≤ from))) }
        ensures within { OnOk result (length self.new.stamps ≤ count) }
    {
        match rested {
            None => self.forget(),
            Some(from) => {
                self.truncate(from.min(count));
                Ok(())
            }
        }
    }

    /// Begins a run on `count` entries, the first `rested` of which are those of the last run; `None` if nothing is known
    /// of these.
    pub(crate) fn begin(&mut self, rested: Option<usize>, count: usize) -> Result<(), AllocError>
        ensures stand { OnOk result ((number n : ℕ) → Stand self.new number n
            → MatchOption rested ⊥ (λ from. Stand self.old number n × (n ≤ from))) }
        ensures within { OnOk result (length self.new.stamps ≤ count) }
    {
        self.go_back(rested, count)?;
        self.note(count)
    }

    /// Notes that a propagator was visited just now.
    pub(crate) fn visit(&mut self, number: u32)
        ensures stand { (k n : ℕ) → Stand self.new k n → Stand self.old k n ⊎ (k ≡ number) }
        ensures stamps { self.new.stamps ≡ self.old.stamps }
    {
        let turn = self.turn;
        if let Some(visit) = self.visits.get_mut(number as usize) {
            *visit = turn;
        }
    }

    /// How many of the first entries are those that stood at a propagator's last visit; `None` if nothing is known of
    /// that visit.
    pub(crate) fn standing(&self, number: u32) -> Option<usize>
        ensures { IfSome result (Stand self.now number) }
    {
        let visit = *self.visits.get(number as usize)?;
        let count = self.stamps.partition_point(|stamp| *stamp <= visit);
        // That turns rise from entry to entry is not proved, so what was found is tested.
        if visit == 0 || (count > 0 && self.stamps[count - 1] > visit) {
            return None;
        }
        Some(count)
    }
}
