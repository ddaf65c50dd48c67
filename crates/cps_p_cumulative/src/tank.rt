//! A tank that events fill and empty.
ghost use Rattle.std.specs.Prelude.{◌≡◌, ◌<◌, length, slice_index_or, IfOk};
ghost use Rattle.cps_p_cumulative.specs.Levels.{limit, moves_of, toward};

use cps_literal::Atom;
use cps_model::Listed;
use std::alloc::{AllocError, Global};

/// Towards which limit a level is looked at.
#[derive(Clone, Copy)]
pub(crate) enum Side {
    /// The greatest level.
    Over,
    /// The least level.
    Under,
}

/// An event: when it takes place, what it changes, and the atom with which it takes place, where it has one.
#[derive(Clone, Copy)]
pub(crate) struct Move {
    pub(crate) time: u32,
    pub(crate) change: u32,
    pub(crate) active: Option<Atom>,
}

/// A tank: the least and the greatest level, and its events in three lists. Without atoms each event takes place.
#[derive(Drop)]
pub(crate) struct Tank {
    pub(crate) min: i64,
    pub(crate) max: i64,
    pub(crate) times: Listed<u32>,
    pub(crate) changes: Listed<u32>,
    pub(crate) active: Listed<Atom>,
}

/// A number as it counts towards a side.
pub(crate) fn toward(side: Side, value: i64) -> i128
    ensures { result ≡ toward side value }
{
    match side {
        Side::Over => i128::from(value),
        Side::Under => -i128::from(value),
    }
}

/// One subject of a list.
fn subject_at(subjects: &[u32], k: usize) -> u32
    requires { k < length subjects.now }
    ensures { result ≡ slice_index_or subjects.now k 0 }
{
    subjects[k]
}

/// One atom of a list.
fn atom_at(atoms: &[Atom], k: usize) -> Atom
    requires { k < length atoms.now }
    ensures { result ≡ slice_index_or atoms.now k result }
{
    atoms[k]
}

impl Tank {
    /// How many events there are.
    pub(crate) fn count(&self) -> usize
        ensures { result ≡ length (moves_of self.now) }
    {
        let count = self.times.len().min(self.changes.len());
        if self.active.is_empty() {
            return count;
        }
        count.min(self.active.len())
    }

    /// One event.
    pub(crate) fn move_at(&self, k: usize) -> Move
        requires { k < length (moves_of self.now) }
        ensures { result ≡ slice_index_or (moves_of self.now) k result }
    {
        let time = subject_at(self.times.as_slice(), k);
        let change = subject_at(self.changes.as_slice(), k);
        if self.active.is_empty() {
            return Move {
                time,
                change,
                active: None,
            };
        }
        let atom = atom_at(self.active.as_slice(), k);
        Move {
            time,
            change,
            active: Some(atom),
        }
    }

    /// How far the level may go to a side.
    pub(crate) fn limit(&self, side: Side) -> i128
        ensures { result ≡ limit self.now side }
    {
        match side {
            Side::Over => i128::from(self.max),
            Side::Under => -i128::from(self.min),
        }
    }

    /// A copy of the tank.
    pub(crate) fn of(
        alloc: Global,
        ends: (i64, i64),
        times: &[u32],
        changes: &[u32],
        active: &[Atom],
    ) -> Result<Tank, AllocError>
        ensures { IfOk result (λ tank. tank ≡ record {
          min = ends.0;
          max = ends.1;
          times = times.now;
          changes = changes.now;
          active = active.now;
        }) }
    {
        Ok(Tank {
            min: ends.0,
            max: ends.1,
            times: Listed::from_vec(Vec::from_slice(alloc, times)?),
            changes: Listed::from_vec(Vec::from_slice(alloc, changes)?),
            active: Listed::from_vec(Vec::from_slice(alloc, active)?),
        })
    }
}
