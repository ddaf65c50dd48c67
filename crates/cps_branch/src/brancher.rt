//! What a search asks of a brancher.
ghost use Rattle.std.specs.Prelude.{◌≡◌, ◌↔◌, ℕ, ◌≤◌, Bool, List, length, Option, IfSome, IsNone};
ghost use Rattle.cps_literal.specs.declared.atom.Atom.{Atom as AtomOf};
ghost use Rattle.cps_trail.specs.Trail.{Trail};
ghost use Rattle.cps_branch.specs.Fixed.{AreFixed};
ghost use Rattle.cps_branch.specs.Choice.{IsUndecided};
ghost use Rattle.cps_branch.specs.Guidances.{Branching, ChoosesAs, HearsAs, StaysAs, guidance_of};
ghost use Rattle.cps_branch.specs.Scope.{Scope, AreSameUpTo};
ghost use Rattle.cps_branch.specs.declared.guidance.Guidance.{Guidance as GuidanceOf};

use crate::guidance::Guidance;
use cps_literal::Atom;
use cps_trail::Store;

/// Chooses what to decide, over the variables of an instance. Between two calls it may keep what it saw of a store, so
/// that a call need not look at each variable again.
pub trait Brancher {
    // of which variables and subjects it is
    ghost scope: { Self → Scope };

    // what it goes by from its first choice to its last
    ghost guidance: { Self → GuidanceOf };

    // what contracts above see of it
    ghost branching: { Self → Branching };

    // the rule by which it chooses
    ghost chooses: { Self → Trail → Option AtomOf → Type 0 };

    // what a learnt clause changes, and the answer to it
    ghost hears: { Self → List AtomOf → Bool → Self → Type 0 };

    // what no choice changes
    ghost stays: { Self → Self → Type 0 };

    // what it keeps of the stores that it saw is true of this one, as far as it rests on the first entries alone
    ghost agrees: { Self → Trail → ℕ → Type 0 };

    /// An undecided atom; `None` if all variables are fixed.
    fn choose(&mut self, store: &Store) -> Option<Atom>
        requires subjects { (scope self.old).subjects ≤ length store.now.first }
        requires sums { AreFixed store.now (scope self.old).variables → AreFixed store.now (scope self.old).subjects }
        ensures undecided { IfSome result (IsUndecided store.now) }
        ensures none { IsNone result ↔ AreFixed store.now (scope self.old).variables }
        ensures rule { chooses self.old store.now result }
        ensures scope { scope self.new ≡ scope self.old }
        ensures guidance { guidance self.new ≡ guidance self.old }
        ensures stays { stays self.old self.new }
        ensures saw { agrees self.new store.now (length store.now.entries) };

    /// The same as `choose`, where the first `kept` entries are those of the store that was handed in last: what they
    /// fixed need not be looked at again. `kept` may always be 0.
    fn choose_from(&mut self, store: &Store, kept: usize) -> Option<Atom>
        requires subjects { (scope self.old).subjects ≤ length store.now.first }
        requires sums { AreFixed store.now (scope self.old).variables → AreFixed store.now (scope self.old).subjects }
        requires kept { agrees self.old store.now kept }
        ensures undecided { IfSome result (IsUndecided store.now) }
        ensures none { IsNone result ↔ AreFixed store.now (scope self.old).variables }
        ensures rule { chooses self.old store.now result }
        ensures scope { scope self.new ≡ scope self.old }
        ensures guidance { guidance self.new ≡ guidance self.old }
        ensures stays { stays self.old self.new }
        ensures saw { agrees self.new store.now (length store.now.entries) };

    /// Hears a learnt clause, and answers whether to restart.
    fn learnt(&mut self, clause: &[Atom]) -> bool
        ensures heard { hears self.old clause.now result self.new }
        ensures scope { scope self.new ≡ scope self.old }
        ensures guidance { guidance self.new ≡ guidance self.old }
        ensures saw { (s : Trail) (k : ℕ) → agrees self.old s k → agrees self.new s k };

    /// Takes out what it goes by, when the brancher is no longer needed.
    fn into_guidance(self) -> Guidance
        ensures { result ≡ guidance self };

    // its guidance, its choices, what a learnt clause changes and what no choice changes are those that are seen of it
    ghost guided_as: { (b : Self) → guidance b ≡ guidance_of (branching b) };

    ghost chooses_as: { (b : Self) (s : Trail) (choice : Option AtomOf) → chooses b s choice
        → ChoosesAs (branching b) s choice };

    ghost hears_as: { (b c : Self) (clause : List AtomOf) (restart : Bool) → hears b clause restart c
        → HearsAs (branching b) clause restart (branching c) };

    ghost stays_as: { (b c : Self) → stays b c → StaysAs (branching b) (branching c) };

    // it agrees with each store where no entry is kept
    ghost none_kept: { (b : Self) (s : Trail) → agrees b s 0 };

    // where it agrees with a store, it does with each that has the same first entries, and where fewer are kept
    ghost kept_on: { (b : Self) (s t : Trail) (k n : ℕ) → k ≤ n → AreSameUpTo (scope b).subjects k s t → agrees b s n
        → agrees b t k };
}
