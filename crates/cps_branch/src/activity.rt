//! A brancher that takes the variable of which most learnt clauses spoke first.
//!
//! Activities are counts of learnt clauses, and are halved only when one reaches 2^40, which no worker of the program
//! comes to: so nothing decays. Whole numbers make the choice a function of what was learnt, with no rounding. The
//! ranking (`ranking`) finds the greatest without a look at each variable. Values do not go by activity: the hint's
//! value is tried first, and without one the least.
ghost use Rattle.std.specs.Prelude.{ℕ, ◌≡◌, ◌≤◌, ◌^◌, length, IfOk};

use crate::brancher::Brancher;
use crate::bump::bump_all;
use crate::guidance::Guidance;
use crate::hint::{at_hint, hints_of};
use crate::ranking::Ranking;
use crate::restarts::Restarts;
use cps_instance::Instance;
use cps_literal::Atom;
use cps_model::{Hint, Listed};
use cps_trail::Store;
use std::alloc::{AllocError, Global};
use std::marker::Model;

/// Takes the variable of greatest activity, the first of several, and decides that it has its value of the model's
/// hint, if there is one and its domain has it, else that it has its least value. A variable's activity is how many
/// learnt clauses spoke of it; all are halved when one reaches 2^40. It restarts after 100 times the next member of
/// Luby's sequence, in conflicts.
///
/// A choice looks only at the variables that were set aside by entries that are gone, and at fixed ones that were not
/// set aside yet, each at the cost of one way up the tournament, of length log n.
pub struct ActivityBrancher {
    activities: Vec<u64>,
    /// Which variables the part of a clause that was heard so far speaks of.
    marks: Vec<bool>,
    /// For each variable the value of the hint, if there is one.
    hints: Vec<Option<i64>>,
    /// The variables by activity, without those that were seen fixed.
    ranking: Ranking,
    restarts: Restarts,
}

// Written out, so that crates above do not prove it anew.
impl Drop for ActivityBrancher {
    fn drop(self) {
        let ActivityBrancher {
            activities: _activities,
            marks: _marks,
            hints: _hints,
            ranking: _ranking,
            restarts: _restarts,
        } = self;
    }
}

impl Model for ActivityBrancher {
    ghost use Rattle.std.specs.Prelude.{◌≡◌, ◌≤◌, ◌^◌, length};
    ghost use Rattle.cps_branch.specs.Activities.{ByActivity, AreSmall, NoneMarked};
    ghost use Rattle.cps_branch.specs.Tournament.{HaveActivities};
    ghost use Rattle.cps_branch.specs.SetAside.{IsRanking, aside_of, size_of};

    ghost Value = { ByActivity };

    ghost view = { λ b. record {
      activities = b.activities.items;
      pace = b.restarts;
      hints = b.hints.items;
      aside = aside_of b.ranking;
    } };

    ghost invariant = { λ b. (length b.activities.items ≤ 2 ^ 31)
        × (length b.marks.items ≡ length b.activities.items)
        × (length b.hints.items ≡ length b.activities.items)
        × (AreSmall b.activities.items)
        × (NoneMarked b.marks.items)
        × (IsRanking b.ranking)
        × (size_of b.ranking ≡ length b.activities.items)
        × (HaveActivities b.activities.items b.ranking.nodes.items) };
}

impl ActivityBrancher {
    ghost use Rattle.std.specs.Prelude.{◌<◌, None, slice_index, slice_index_or, MatchOption};
    ghost use Rattle.cps_branch.specs.Fixed.{AreFixed};
    ghost use Rattle.cps_branch.specs.Choice.{IsMostActive};
    ghost use Rattle.cps_branch.specs.Scope.{IsScopeOf};
    ghost use Rattle.cps_branch.specs.Hints.{hint_for};
    ghost use Rattle.cps_branch.specs.SetAside.{AreFixedAside};

    /// A brancher over the variables of an instance, with the model's hint and no activity yet.
    pub fn of(alloc: Global, instance: &Instance) -> Result<Self, AllocError>
        ensures scope { IfOk result (λ b. IsScopeOf instance.now
            (record { variables = length b.activities; subjects = length b.activities })) }
        ensures hints { IfOk result (λ b. (i : ℕ) → i < length b.activities
            → slice_index_or b.hints i None ≡ hint_for instance.now.model.hint i) }
        ensures places { IfOk result (λ b. length b.hints ≡ length b.activities) }
        ensures idle { IfOk result (λ b. (i : ℕ) → slice_index b.activities i ≡ 0) }
        ensures fresh { IfOk result (λ b. b.pace ≡ record { restarts = 0; conflicts = 0 }) }
    {
        let count = instance.variable_count();
        // The variables are the first subjects, of which there are at most 2^31.
        prove!(count <= instance.domains().len());
        ActivityBrancher::over(alloc, count, instance.hint())
    }

    /// A brancher over `count` variables, with a hint.
    pub(crate) fn over(alloc: Global, count: usize, hint: &Option<Hint>) -> Result<Self, AllocError>
        requires { count ≤ 2 ^ 31 }
        ensures count { IfOk result (λ b. length b.activities ≡ count) }
        ensures hints { IfOk result (λ b. (i : ℕ) → i < count → slice_index_or b.hints i None ≡ hint_for hint.now i) }
        ensures idle { IfOk result (λ b. (i : ℕ) → slice_index b.activities i ≡ 0) }
        ensures fresh { IfOk result (λ b. b.pace ≡ record { restarts = 0; conflicts = 0 }) }
    {
        Ok(ActivityBrancher {
            activities: vec![in alloc; 0; count]?,
            marks: vec![in alloc; false; count]?,
            hints: hints_of(alloc, hint, count)?,
            ranking: Ranking::over(alloc, count)?,
            restarts: Restarts::new(),
        })
    }

    /// The first variable of greatest activity among those that are not fixed. Those that were set aside when at most
    /// the first `kept` entries stood are not looked at again.
    fn most_active(&mut self, store: &Store, kept: usize) -> Option<u32>
        requires subjects { length self.old.activities ≤ length store.now.first }
        requires kept { AreFixedAside (length self.old.activities) self.old.aside store.now kept }
        ensures choice { MatchOption result (AreFixed store.now (length self.old.activities))
            (λ variable. IsMostActive self.old.activities store.now variable) }
        ensures stays { (self.new.activities ≡ self.old.activities) × (self.new.pace ≡ self.old.pace)
            × (self.new.hints ≡ self.old.hints) }
        ensures places { length self.old.activities ≡ length self.old.hints }
        ensures saw { AreFixedAside (length self.old.activities) self.new.aside store.now (length store.now.entries) }
    {
        self.ranking.put_back(kept);
        self.ranking.most_active(store)
    }
}

impl Brancher for ActivityBrancher {
    ghost use Rattle.std.specs.Prelude.{◌≡◌, length, refl};
    ghost use Rattle.cps_branch.specs.Hints.{ChoosesHinted};
    ghost use Rattle.cps_branch.specs.Activities.{AreBumped};
    ghost use Rattle.cps_branch.specs.Luby.{CountsConflict};
    ghost use Rattle.cps_branch.specs.SetAside.{AreFixedAside};
    ghost use Rattle.cps_branch.specs.Guidances.{by_activity, heard_by_activity, stayed_by_activity};
    ghost use Rattle.cps_branch.specs.Agreeing.{aside_none_kept, aside_kept_on};
    ghost use Rattle.cps_branch.specs.declared.guidance.Guidance.TheVariants.{Hinted};

    ghost scope = { λ b. record { variables = length b.activities; subjects = length b.activities } };

    ghost guidance = { λ b. Hinted b.hints };

    ghost branching = { λ b. by_activity b };

    ghost chooses = { λ b s atom. (length b.activities ≡ length b.hints) × ChoosesHinted b.activities b.hints s atom };

    ghost hears = { λ b clause restart c. AreBumped clause b.activities c.activities
        × CountsConflict b.pace c.pace restart
        × (c.hints ≡ b.hints) };

    ghost stays = { λ b c. (c.activities ≡ b.activities) × (c.pace ≡ b.pace) × (c.hints ≡ b.hints) };

    ghost guided_as = { λ b. refl };

    ghost chooses_as = { λ b s choice chosen. chosen };

    ghost hears_as = { λ b c clause restart heard. heard_by_activity b c clause restart heard };

    ghost stays_as = { λ b c stays. stayed_by_activity b c stays };

    ghost agrees = { λ b s kept. AreFixedAside (length b.activities) b.aside s kept };

    ghost none_kept = { λ b s. aside_none_kept (length b.activities) b.aside s };

    ghost kept_on = { λ b s t k n l same agrees. aside_kept_on (length b.activities) b.aside s t k n l same agrees };

    fn choose(&mut self, store: &Store) -> Option<Atom> {
        self.choose_from(store, 0)
    }

    fn choose_from(&mut self, store: &Store, kept: usize) -> Option<Atom> {
        let variable = self.most_active(store, kept)?;
        Some(at_hint(store, variable, self.hints[variable as usize]))
    }

    fn learnt(&mut self, clause: &[Atom]) -> bool {
        let halved = bump_all(&mut self.activities, &mut self.marks, clause);
        self.ranking.follow(&self.activities, clause, halved);
        self.restarts.conflict()
    }

    fn into_guidance(self) -> Guidance {
        let ActivityBrancher {
            hints,
            activities: _activities,
            marks: _marks,
            ranking: _ranking,
            restarts: _restarts,
        } = self;
        Guidance::Hinted(Listed::from_vec(hints))
    }
}
