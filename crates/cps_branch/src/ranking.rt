//! The variables by activity, without those that are set aside because they are fixed.
//!
//! The winner of the tournament (`tournament`) is the next choice if it is not fixed. If it is, it is set aside with
//! the number of entries at that moment, and the next winner is looked at. After a backjump the variables that went
//! aside later than the kept entries come back into play, from the last to the first. So a variable is looked at once
//! for each time that it is fixed, not at each choice. A heap, as MiniSat has it, would do the same; a tournament has
//! fixed places, so a variable is found without a table of positions.
ghost use Rattle.std.specs.Prelude.{ℕ, ◌≡◌, ◌↔◌, ◌⊎◌, ◌+◌, ◌-◌, ◌*◌, ◌^◌, ◌<◌, ◌≤◌, true, false, length, slice_index, IfOk, IfSome, IsNone, IsTrue, MatchOption, [], ◌∷◌, ◌++◌};
ghost use Rattle.cps_branch.specs.Activities.{speaks_of};
ghost use Rattle.cps_branch.specs.Fixed.{AreFixed};
ghost use Rattle.cps_branch.specs.Tournament.{AreWon, HaveActivities, nobody, stands_at};
ghost use Rattle.cps_branch.specs.SetAside.{AreAllFixed, IsMostActiveIn, IsRanking, LeadsInPlay, NonePlays, PutsBack, SameActivities, SameAside, SetsAside, aside_at, aside_of, size_of};

use crate::scan::is_fixed;
use crate::tournament::{Contender, enter};
use cps_literal::Atom;
use cps_trail::Store;
use std::alloc::{AllocError, Global};

/// A variable that is set aside, and after how many entries it was fixed.
#[derive(Clone, Copy)]
pub(crate) struct Aside {
    pub variable: u32,
    pub after: usize,
}

/// A tournament of variables by activity. A variable that was fixed when it won is set aside, out of play, until the
/// entries that fixed it are gone.
#[derive(Drop)]
pub(crate) struct Ranking {
    pub nodes: Vec<Contender>,
    /// The first `out` are the variables that are set aside, in the order in which they went; the others are filler.
    pub aside: Vec<Aside>,
    pub out: usize,
}

impl Ranking {
    /// `count` variables, each with activity 0, none set aside.
    pub fn over(alloc: Global, count: usize) -> Result<Self, AllocError>
        requires { count ≤ 2 ^ 31 }
        ensures ranking { IfOk result IsRanking }
        ensures count { IfOk result (λ r. size_of r ≡ count) }
        ensures none { IfOk result (λ r. aside_of r ≡ []) }
        ensures idle { IfOk result (λ r. (i : ℕ) → i < count → (stands_at r.nodes.items (count + i)).activity ≡ 0) }
    {
        let absent = Contender {
            variable: 0,
            activity: 0,
            in_play: false,
        };
        let mut nodes = vec![in alloc; absent; 2 * count]?;
        fill(&mut nodes, count);
        let first = Aside {
            variable: 0,
            after: 0,
        };
        Ok(Ranking {
            nodes,
            aside: vec![in alloc; first; count]?,
            out: 0,
        })
    }

    /// Puts a contender in its variable's place.
    fn place(&mut self, contender: Contender)
        requires size { length self.old.nodes.items ≡ 2 * size_of self.old }
        requires variable { contender.variable < size_of self.old }
        requires won { AreWon (size_of self.old) self.old.nodes.items }
        ensures size { length self.new.nodes.items ≡ length self.old.nodes.items }
        ensures won { AreWon (size_of self.old) self.new.nodes.items }
        ensures here { stands_at self.new.nodes.items (size_of self.old + contender.variable) ≡ contender }
        ensures others { (i : ℕ) → (i ≡ contender.variable → ⊥)
            → stands_at self.new.nodes.items (size_of self.old + i)
            ≡ stands_at self.old.nodes.items (size_of self.old + i) }
        ensures aside { SameAside self.old self.new }
    {
        let count = self.aside.len();
        enter(&mut self.nodes, count, contender);
    }

    /// Puts a variable in play or out of play.
    fn set_in_play(&mut self, variable: u32, in_play: bool)
        requires size { length self.old.nodes.items ≡ 2 * size_of self.old }
        requires variable { variable < size_of self.old }
        requires won { AreWon (size_of self.old) self.old.nodes.items }
        ensures size { length self.new.nodes.items ≡ length self.old.nodes.items }
        ensures won { AreWon (size_of self.old) self.new.nodes.items }
        ensures here { stands_at self.new.nodes.items (size_of self.old + variable)
            ≡ record (stands_at self.old.nodes.items (size_of self.old + variable)) {
              variable = variable;
              in_play = in_play;
            } }
        ensures others { (i : ℕ) → (i ≡ variable → ⊥)
            → stands_at self.new.nodes.items (size_of self.old + i)
            ≡ stands_at self.old.nodes.items (size_of self.old + i) }
        ensures aside { SameAside self.old self.new }
    {
        let count = self.aside.len();
        let activity = self.nodes[count + variable as usize].activity;
        self.place(Contender {
            variable,
            activity,
            in_play,
        });
    }

    /// Gives a subject its activity, if it is a variable.
    fn refresh(&mut self, subject: u32, activities: &[u64])
        requires count { length activities.now ≡ size_of self.old }
        requires ranking { IsRanking self.old }
        ensures ranking { IsRanking self.new }
        ensures here { subject < size_of self.old
            → (stands_at self.new.nodes.items (size_of self.old + subject)).activity
            ≡ slice_index activities.now subject }
        ensures others { (i : ℕ) → (i ≡ subject → ⊥)
            → stands_at self.new.nodes.items (size_of self.old + i)
            ≡ stands_at self.old.nodes.items (size_of self.old + i) }
        ensures aside { SameAside self.old self.new }
    {
        let count = self.aside.len();
        let place = subject as usize;
        if count <= place {
            return;
        }
        let contender = Contender {
            variable: subject,
            activity: activities[place],
            in_play: self.nodes[count + place].in_play,
        };
        self.place(contender);
    }

    /// Gives the variables of a clause their activities.
    fn refresh_clause(&mut self, activities: &[u64], clause: &[Atom])
        requires count { length activities.now ≡ size_of self.old }
        requires ranking { IsRanking self.old }
        requires others { (i : ℕ) → i < size_of self.old → speaks_of clause.now i ≡ false
            → (stands_at self.old.nodes.items (size_of self.old + i)).activity ≡ slice_index activities.now i }
        ensures ranking { IsRanking self.new }
        ensures activities { (i : ℕ) → i < size_of self.old
            → (stands_at self.new.nodes.items (size_of self.old + i)).activity ≡ slice_index activities.now i }
        ensures aside { SameAside self.old self.new }
    {
        for atom in clause {
            self.refresh(atom.subject, activities);
        }
    }

    /// Gives all variables their activities.
    fn refresh_all(&mut self, activities: &[u64])
        requires count { length activities.now ≡ size_of self.old }
        requires ranking { IsRanking self.old }
        ensures ranking { IsRanking self.new }
        ensures activities { (i : ℕ) → i < size_of self.old
            → (stands_at self.new.nodes.items (size_of self.old + i)).activity ≡ slice_index activities.now i }
        ensures aside { SameAside self.old self.new }
    {
        // There is a place for each variable, so a variable's number fits 32 bits.
        prove!(self.aside.len() <= 1 << 31);
        for variable in 0..activities.len() {
            self.refresh(variable as u32, activities);
        }
    }

    /// Updates the ranking by the activities after a clause was learnt: those of its variables, or all if all were
    /// halved.
    pub fn follow(&mut self, activities: &[u64], clause: &[Atom], halved: bool)
        requires count { length activities.now ≡ size_of self.old }
        requires ranking { IsRanking self.old }
        requires others { halved ≡ false → (i : ℕ) → i < size_of self.old → speaks_of clause.now i ≡ false
            → (stands_at self.old.nodes.items (size_of self.old + i)).activity ≡ slice_index activities.now i }
        ensures ranking { IsRanking self.new }
        ensures activities { (i : ℕ) → i < size_of self.old
            → (stands_at self.new.nodes.items (size_of self.old + i)).activity ≡ slice_index activities.now i }
        ensures aside { SameAside self.old self.new }
    {
        if halved {
            self.refresh_all(activities);
        } else {
            self.refresh_clause(activities, clause);
        }
    }

    /// The variable in play that is ahead of all others; `None` if none is in play.
    fn top(&self) -> Option<u32>
        requires { IsRanking self.now }
        ensures none { IsNone result → NonePlays (size_of self.now) self.now.nodes.items }
        ensures some { IfSome result (λ variable. LeadsInPlay (size_of self.now) self.now.nodes.items variable) }
        ensures room { IfSome result (λ _. self.now.out < size_of self.now) }
    {
        let count = self.aside.len();
        if count == 0 {
            return None;
        }
        let top = self.nodes[1];
        if top.in_play {
            Some(top.variable)
        } else {
            None
        }
    }

    /// Sets aside a variable that is in play and that was found fixed after `after` entries.
    fn set_aside(&mut self, variable: u32, after: usize)
        requires ranking { IsRanking self.old }
        requires leads { LeadsInPlay (size_of self.old) self.old.nodes.items variable }
        requires room { self.old.out < size_of self.old }
        ensures ranking { IsRanking self.new }
        ensures same { SameActivities (size_of self.old) self.old self.new }
        ensures count { size_of self.new ≡ size_of self.old }
        ensures out { self.new.out ≡ self.old.out + 1 }
        ensures aside { aside_of self.new ≡ aside_of self.old ++ record { variable = variable; after = after } ∷ [] }
    {
        self.set_in_play(variable, false);
        self.aside[self.out] = Aside { variable, after };
        self.out += 1;
    }

    /// Puts the variable that was set aside last back into play.
    fn put_back_last(&mut self)
        requires ranking { IsRanking self.old }
        requires some { 0 < self.old.out }
        ensures ranking { IsRanking self.new }
        ensures same { SameActivities (size_of self.old) self.old self.new }
        ensures aside { self.new.aside.items ≡ self.old.aside.items }
        ensures out { self.new.out + 1 ≡ self.old.out }
    {
        self.out -= 1;
        let last = self.aside[self.out];
        self.set_in_play(last.variable, true);
    }

    /// Whether the variable that was set aside last stays so: entries are kept, and it was fixed after at most `kept`
    /// of them.
    fn last_stays(&self, kept: usize) -> bool
        requires some { 0 < self.now.out }
        requires within { self.now.out ≤ size_of self.now }
        ensures { IsTrue result ↔ ((0 < kept) × ((aside_at self.now.aside.items (self.now.out - 1)).after ≤ kept)) }
    {
        kept > 0 && self.aside[self.out - 1].after <= kept
    }

    /// Puts back into play the variables that were set aside after more than `kept` entries; all if `kept` is 0.
    pub fn put_back(&mut self, kept: usize)
        requires { IsRanking self.old }
        ensures ranking { IsRanking self.new }
        ensures same { SameActivities (size_of self.old) self.old self.new }
        ensures count { size_of self.new ≡ size_of self.old }
        ensures back { PutsBack kept (aside_of self.old) (aside_of self.new) }
        ensures only { (p : ℕ) → length (aside_of self.new) ≤ p → p < length (aside_of self.old) → 0 < kept
            → kept < (aside_at (aside_of self.old) p).after }
    {
        'variables: while self.out > 0 {
            if self.last_stays(kept) {
                return;
            }
            self.put_back_last();
        }
    }

    /// The most active variable that is not fixed. Each that is found fixed is set aside.
    pub fn most_active(&mut self, store: &Store) -> Option<u32>
        requires ranking { IsRanking self.old }
        requires subjects { size_of self.old ≤ length store.now.first }
        requires fixed { AreAllFixed store.now (aside_of self.old) }
        ensures ranking { IsRanking self.new }
        ensures same { SameActivities (size_of self.old) self.old self.new }
        ensures count { size_of self.new ≡ size_of self.old }
        ensures sets { SetsAside store.now (aside_of self.old) (aside_of self.new) }
        ensures choice { MatchOption result (AreFixed store.now (size_of self.old))
            (λ variable. IsMostActiveIn (size_of self.old) self.old store.now variable) }
        ensures leads { IfSome result (λ variable. LeadsInPlay (size_of self.new) self.new.nodes.items variable) }
    {
        'variables: loop {
            let Some(variable) = self.top() else {
                return None;
            };
            if !is_fixed(store, variable) {
                return Some(variable);
            }
            self.set_aside(variable, store.entries().len());
        }
    }
}

/// Puts `count` variables in play, each with activity 0.
fn fill(nodes: &mut [Contender], count: usize)
    requires few { count ≤ 2 ^ 31 }
    requires size { length nodes.old ≡ 2 * count }
    requires empty { (k : ℕ) → stands_at nodes.old k ≡ nobody }
    ensures size { length nodes.new ≡ length nodes.old }
    ensures won { AreWon count nodes.new }
    ensures each { (i : ℕ) → i < count
        → stands_at nodes.new (count + i) ≡ record { variable = i; activity = 0; in_play = true } }
{
    for variable in 0..count {
        enter(
            nodes,
            count,
            Contender {
                variable: variable as u32,
                activity: 0,
                in_play: true,
            },
        );
    }
}
