//! A brancher that follows the strategies, and then takes the variables in order.
//!
//! The subjects of all strategies and then the variables make one order (`Plan`), and a choice goes on from the first
//! place that the kept entries do not fix. For each place the brancher notes after how many entries everything up to it
//! was fixed, so that a backjump needs no word from the search: places that fewer entries than are kept fixed still
//! are. The notes rise with the places, so they are dropped from the end.
ghost use Rattle.std.specs.Prelude.{◌≡◌, ◌<◌, ◌≤◌, ◌-◌, length, slice_index, IfOk};

use crate::brancher::Brancher;
use crate::guidance::Guidance;
use crate::plan::Plan;
use cps_instance::Instance;
use cps_literal::Atom;
use cps_trail::Store;
use std::alloc::{AllocError, Global};
use std::marker::Model;

/// Follows the model's strategies in order, and then takes the variables in order, each at its least value first. It
/// never restarts.
///
/// A choice does not look again at the places of that order that the kept entries fixed. A strategy that takes its
/// first open subject stops at it; every other strategy looks at all of its subjects from there on.
pub struct FixedBrancher {
    plan: Plan,
    /// For each place of the plan's order before `known`, after how many entries the subjects up to it were fixed.
    fixed_after: Vec<usize>,
    known: usize,
}

// Written out, so that crates above do not prove it anew.
impl Drop for FixedBrancher {
    fn drop(self) {
        let FixedBrancher {
            plan: _plan,
            fixed_after: _fixed_after,
            known: _known,
        } = self;
    }
}

impl Model for FixedBrancher {
    ghost use Rattle.std.specs.Prelude.{◌≡◌, ◌≤◌, length, take};
    ghost use Rattle.cps_branch.specs.Strategies.{order_in};
    ghost use Rattle.cps_branch.specs.Scope.{InOrder};

    ghost Value = { InOrder };

    ghost view = { λ b. record { plan = b.plan; fixed_after = take b.known b.fixed_after.items } };

    ghost invariant = { λ b. (b.known ≤ length b.fixed_after.items)
        × (length b.fixed_after.items ≡ length (order_in b.plan)) };
}

impl FixedBrancher {
    ghost use Rattle.std.specs.Prelude.{[]};
    ghost use Rattle.cps_branch.specs.Strategies.{order_in};
    ghost use Rattle.cps_branch.specs.Scope.{IsScopeOf};
    ghost use Rattle.cps_branch.specs.Noting.{ForgetsCounts, Notes};

    /// A brancher over the variables of an instance, with its strategies.
    pub fn of(alloc: Global, instance: &Instance) -> Result<Self, AllocError>
        ensures scope { IfOk result (λ b. IsScopeOf instance.now
            (record { variables = b.plan.variables; subjects = b.plan.subjects })) }
        ensures follows { IfOk result (λ b. b.plan.strategies ≡ instance.now.steering) }
        ensures fresh { IfOk result (λ b. b.fixed_after ≡ []) }
    {
        let plan = Plan::of(alloc, instance)?;
        FixedBrancher::over(alloc, plan)
    }

    /// A brancher that goes through a plan.
    pub(crate) fn over(alloc: Global, plan: Plan) -> Result<Self, AllocError>
        ensures { IfOk result (λ b. b ≡ record { plan = plan; fixed_after = [] }) }
    {
        let places = plan.len();
        Ok(FixedBrancher {
            plan,
            fixed_after: vec![in alloc; 0; places]?,
            known: 0,
        })
    }

    /// Forgets the places that more than the first `kept` entries fixed.
    fn forget(&mut self, kept: usize)
        ensures plan { self.new.plan ≡ self.old.plan }
        ensures forgets { ForgetsCounts kept self.old.fixed_after self.new.fixed_after }
    {
        self.known = still_known(&self.fixed_after, self.known, kept);
    }

    /// Notes that the subjects before `place` are fixed after `count` entries.
    fn note(&mut self, place: usize, count: usize)
        requires low { length self.old.fixed_after ≤ place }
        requires high { place ≤ length (order_in self.old.plan) }
        ensures plan { self.new.plan ≡ self.old.plan }
        ensures notes { Notes place count self.old.fixed_after self.new.fixed_after }
    {
        for seen in self.known..place {
            self.fixed_after[seen] = count;
        }
        self.known = place;
    }
}

/// How many of the first `known` counts stay: those up to the last that is at most `kept`; none if `kept` is 0.
fn still_known(counts: &[usize], known: usize, kept: usize) -> usize
    requires { known ≤ length counts.now }
    ensures fewer { result ≤ known }
    ensures some_kept { 0 < result → 0 < kept }
    ensures last { 0 < result → slice_index counts.now (result - 1) ≤ kept }
{
    if kept == 0 {
        return 0;
    }
    let mut count = known;
    while count > 0 {
        if counts[count - 1] <= kept {
            return count;
        }
        count -= 1;
    }
    0
}

impl Brancher for FixedBrancher {
    ghost use Rattle.std.specs.Prelude.{false, refl};
    ghost use Rattle.cps_branch.specs.Strategies.{ChoosesSteered, order_in};
    ghost use Rattle.cps_branch.specs.Scope.{AreFixedAfter};
    ghost use Rattle.cps_branch.specs.Guidances.{in_order, heard_in_order};
    ghost use Rattle.cps_branch.specs.Agreeing.{none_kept, kept_on};
    ghost use Rattle.cps_branch.specs.declared.guidance.Guidance.TheVariants.{Steered};

    ghost scope = { λ b. record { variables = b.plan.variables; subjects = b.plan.subjects } };

    ghost guidance = { λ b. Steered b.plan };

    ghost branching = { λ b. in_order b.plan };

    ghost chooses = { λ b s atom. ChoosesSteered b.plan.strategies b.plan.variables s atom };

    ghost hears = { λ b clause answer c. (c ≡ b) × (answer ≡ false) };

    ghost stays = { λ b c. c.plan ≡ b.plan };

    ghost guided_as = { λ b. refl };

    ghost chooses_as = { λ b s choice chosen. chosen };

    ghost hears_as = { λ b c clause restart heard. heard_in_order b c restart heard.0 heard.1 };

    ghost stays_as = { λ b c stays. stays };

    ghost agrees = { λ b s kept. AreFixedAfter (order_in b.plan) b.plan.subjects b.fixed_after s kept };

    ghost none_kept = { λ b s. none_kept (order_in b.plan) b.plan.subjects b.fixed_after s };

    ghost kept_on = { λ b s t k n l same agrees. kept_on
        (order_in b.plan) b.plan.subjects b.fixed_after s t k n l same agrees };

    fn choose(&mut self, store: &Store) -> Option<Atom> {
        self.choose_from(store, 0)
    }

    fn choose_from(&mut self, store: &Store, kept: usize) -> Option<Atom> {
        self.forget(kept);
        let count = self.plan.len();
        let place = self.plan.first_open(store, self.known);
        self.note(place, store.entries().len());
        if place == count {
            return None;
        }
        Some(self.plan.decided(store, place))
    }

    fn learnt(&mut self, _clause: &[Atom]) -> bool {
        false
    }

    fn into_guidance(self) -> Guidance {
        let FixedBrancher {
            plan,
            fixed_after: _fixed_after,
            known: _known,
        } = self;
        Guidance::Steered(plan)
    }
}
