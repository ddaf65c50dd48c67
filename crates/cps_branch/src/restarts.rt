//! When to restart: Luby, Sinclair and Zuckerman, "Optimal speedup of Las Vegas algorithms" (1993).
ghost use Rattle.std.specs.Prelude.{◌≡◌, ◌<◌, ◌≤◌, ◌^◌};
ghost use Rattle.cps_branch.specs.Luby.{IsLuby};

use std::marker::Model;

/// How many conflicts a member of the sequence stands for.
const RESTART_CONFLICTS: u64 = 100;

/// A member of Luby's sequence 1, 1, 2, 1, 1, 2, 4, .., by its number from 1 on.
pub(crate) fn luby(member: u64) -> u64
    requires some { 0 < member }
    requires few { member ≤ 2 ^ 32 }
    ensures is { IsLuby member result }
    ensures most { result ≤ 2 ^ 32 }
{
    let mut place = member;
    let mut power: u64 = 1 << 32;
    while place + 1 < 2 * power {
        if power <= place {
            place -= power - 1;
        }
        power /= 2;
    }
    power
}

/// Counts conflicts, and says when to restart: after 100 times the next member of Luby's sequence. The factor is that
/// of MiniSat.
#[derive(Drop)]
pub(crate) struct Restarts {
    /// How many restarts there were.
    done: u32,
    /// How many conflicts there were since the last.
    conflicts: u64,
}

impl Model for Restarts {
    ghost use Rattle.std.specs.Prelude.{◌<◌, ◌*◌, ◌^◌};
    ghost use Rattle.cps_branch.specs.Luby.{Pace, restart_conflicts};

    ghost Value = { Pace };

    ghost view = { λ r. record { restarts = r.done; conflicts = r.conflicts } };

    ghost invariant = { λ r. r.conflicts < restart_conflicts * 2 ^ 32 };
}

impl Restarts {
    ghost use Rattle.cps_branch.specs.Luby.{CountsConflict};

    /// No restart and no conflict yet.
    pub(crate) fn new() -> Self
        ensures { result ≡ record { restarts = 0; conflicts = 0 } }
    {
        Restarts {
            done: 0,
            conflicts: 0,
        }
    }

    /// Counts a conflict, and answers whether to restart.
    pub(crate) fn conflict(&mut self) -> bool
        ensures { CountsConflict self.old self.new result }
    {
        let member = luby(u64::from(self.done) + 1);
        let conflicts = self.conflicts + 1;
        if conflicts < RESTART_CONFLICTS * member {
            self.conflicts = conflicts;
            return false;
        }
        self.done = self.done.saturating_add(1);
        self.conflicts = 0;
        true
    }
}
