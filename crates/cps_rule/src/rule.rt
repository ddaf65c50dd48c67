//! What a kind of constraint says of domains, whatever enforces it.

use cps_literal::Atom;
use cps_trail::{Before, Store};
use std::alloc::AllocError;

/// Two numbers by which a rule finds again what gave a narrowing. Only the rule itself knows what they mean.
#[derive(Clone, Copy)]
pub struct Hint {
    pub a: i64,
    pub b: i64,
}

/// An atom that a rule's body gives.
#[derive(Clone, Copy)]
pub struct Narrowing {
    pub target: Atom,
    pub hint: Hint,
}

/// The answer of a look at a store.
#[derive(Clone, Copy)]
pub enum Look {
    /// The body may hold, as far as the rule tells.
    Possible,
    /// The body cannot hold.
    Impossible(Hint),
}

/// A body that is to hold, and what it says of the domains of a store.
pub trait Rule: Drop {
    ghost use Rattle.std.specs.Prelude.{◌≡◌, ◌++◌, true, OnOk, All, IfOk};
    ghost use Rattle.cps_instance.specs.declared.task.Body.{Body};
    ghost use Rattle.cps_instance.specs.Tasks.{subjects_of_body};
    ghost use Rattle.cps_trail.specs.Trail.{IsTrueNow};
    ghost use Rattle.cps_propagate.specs.Strength.{IsExcludedBody};
    ghost use Rattle.cps_rule.specs.Rules.{IsFittingRule, IsGiven, IsImpossible, IsSeen, IsAtRest, IsExplained, IsRefuted};

    /// The body.
    ghost body: { Self → Body };

    /// Fills a list anew with the atoms that the body gives by the store's domains, or answers that the body cannot
    /// hold. If each of these atoms is true already, the body is at rest.
    fn look(&mut self, store: &Store, found: &mut Vec<Narrowing>) -> Result<Look, AllocError>
        requires fits { IsFittingRule store.now.first (body self.old) }
        ensures keeps { body self.new ≡ body self.old }
        ensures given { OnOk result (All (λ n. IsGiven (body self.old) store.now n.target) found.new.items) }
        ensures seen { IfOk result (IsSeen (body self.old) store.now) }
        ensures rest { result ≡ Ok Look.Possible → All (λ n. IsTrueNow store.now n.target) found.new.items
            → IsAtRest (body self.old) store.now };

    /// Fills a list anew with facts that were true and with which the body gives an atom. Answers false if it finds
    /// none. The hint is that of the narrowing, and is not trusted.
    fn explain(
        &self,
        past: &Before,
        target: Atom,
        hint: Hint,
        facts: &mut Vec<Atom>,
    ) -> Result<bool, AllocError>
        requires fits { IsFittingRule past.now.first (body self.now) }
        ensures { result ≡ Ok true → IsExplained (body self.now) past.now target facts.new.items };

    /// Fills a list anew with facts that were true and beside which the body cannot hold. Answers false if it finds
    /// none.
    fn refute(&self, past: &Before, hint: Hint, facts: &mut Vec<Atom>) -> Result<bool, AllocError>
        requires fits { IsFittingRule past.now.first (body self.now) }
        ensures { result ≡ Ok true → IsRefuted (body self.now) past.now facts.new.items };

    /// Adds the subjects that the body reads at the end of a list, in order.
    fn push_subjects(&self, subjects: &mut Vec<u32>) -> Result<(), AllocError>
        ensures { OnOk result (subjects.new.items ≡ subjects.old.items ++ subjects_of_body (body self.now)) };
}
