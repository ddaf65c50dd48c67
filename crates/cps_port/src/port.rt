//! What a worker sees of the shared state.
ghost use Rattle.std.specs.Prelude.{◌≡◌, ℕ, ◌≤◌, None};
ghost use Rattle.cps_model.specs.declared.model.CpModel.{CpModel as CpModelOf};
ghost use Rattle.cps_port.specs.declared.part.Part.{Part as PartOf};
ghost use Rattle.cps_port.specs.Order.{BoundLe, IsNoLower, Rises, IsSmallBound};
ghost use Rattle.cps_port.specs.Incumbents.{HoldsBelow, IsAttained, IsIncumbent, IsLowerBound};
ghost use Rattle.cps_port.specs.Entries.{most_rows, IsShareable};
ghost use Rattle.cps_port.specs.Parts.{after_upper, after_lower, after_offer, after_raise};
ghost use Rattle.cps_port.specs.Says.{ShareSays, TakeSays, AnswersOffer, AnswersRaise};

use crate::entry::{Share, Taken};
use cps_literal::Atom;
use cps_model::Bound;

/// One actor's access to the shared state of a model: two bounds on the objective, and a board of clauses. Each answer
/// is true of the model, whatever other actors do, and the actor's part says what this actor did and saw.
pub trait Port {
    ghost model: { Self → CpModelOf };

    // how many rows the board has
    ghost rows: { Self → ℕ };

    // what this actor knows
    ghost part: { Self → PartOf };

    // what calls on this port, however many, keep of all that lies behind it
    ghost stays: { Self → Self → Type 0 };

    /// The upper bound: a solution's objective, or `Infinite`.
    fn upper(&mut self) -> Bound
        ensures same { (model self.new ≡ model self.old) × (rows self.new ≡ rows self.old) }
        ensures others { stays self.old self.new }
        ensures board { (part self.new).board ≡ (part self.old).board }
        ensures bounds { (part self.new).bounds
            ≡ after_upper (part self.old).bounds result (part self.new).bounds.upper_loads }
        ensures loads { Rises (part self.old).bounds.upper_loads (part self.new).bounds.upper_loads }
        ensures no_worse { BoundLe result (part self.old).bounds.saw_upper }
        ensures means { IsIncumbent (model self.old) result };

    /// The lower bound: no solution's objective is below it.
    fn lower(&mut self) -> Bound
        ensures same { (model self.new ≡ model self.old) × (rows self.new ≡ rows self.old) }
        ensures others { stays self.old self.new }
        ensures board { (part self.new).board ≡ (part self.old).board }
        ensures bounds { (part self.new).bounds
            ≡ after_lower (part self.old).bounds result (part self.new).bounds.lower_loads }
        ensures loads { Rises (part self.old).bounds.lower_loads (part self.new).bounds.lower_loads }
        ensures no_worse { IsNoLower (part self.old).bounds.saw_lower result }
        ensures means { IsLowerBound (model self.old) result };

    /// Lowers the upper bound to the objective of a solution. The answer is the lesser of it and the bound that stood.
    fn offer(&mut self, value: i64) -> Bound
        requires { IsAttained (model self.old) value }
        ensures same { (model self.new ≡ model self.old) × (rows self.new ≡ rows self.old) }
        ensures others { stays self.old self.new }
        ensures board { (part self.new).board ≡ (part self.old).board }
        ensures bounds { (part self.new).bounds ≡ after_offer (part self.old).bounds (Bound.At value) result }
        ensures answer { AnswersOffer (model self.old) (part self.old).bounds.saw_upper (Bound.At value) result }
        ensures means { IsIncumbent (model self.old) result };

    /// Raises the lower bound. The answer is the greater of the value and the bound that stood.
    fn raise(&mut self, value: Bound) -> Bound
        requires bound { IsLowerBound (model self.old) value }
        requires small { IsSmallBound value }
        ensures same { (model self.new ≡ model self.old) × (rows self.new ≡ rows self.old) }
        ensures others { stays self.old self.new }
        ensures board { (part self.new).board ≡ (part self.old).board }
        ensures bounds { (part self.new).bounds ≡ after_raise (part self.old).bounds value result }
        ensures answer { AnswersRaise (model self.old) (part self.old).bounds.saw_lower value result }
        ensures means { IsLowerBound (model self.old) result };

    /// Puts a clause into a row of its own. `Full` where no row is left, now or at an earlier call.
    fn share(&mut self, below: Bound, clause: &[Atom]) -> Share
        requires clause { IsShareable (model self.old) clause.now }
        requires holds { HoldsBelow (model self.old) below clause.now }
        requires incumbent { IsIncumbent (model self.old) below }
        ensures same { (model self.new ≡ model self.old) × (rows self.new ≡ rows self.old) }
        ensures others { stays self.old self.new }
        ensures bounds { (part self.new).bounds ≡ (part self.old).bounds }
        ensures said { ShareSays (rows self.old) below clause.now (part self.old).board (part self.new).board result };

    /// The entry of the first row that this actor has not taken, its own rows among them.
    fn take(&mut self) -> Taken
        ensures same { (model self.new ≡ model self.old) × (rows self.new ≡ rows self.old) }
        ensures others { stays self.old self.new }
        ensures bounds { (part self.new).bounds ≡ (part self.old).bounds }
        ensures said { TakeSays (model self.old) (rows self.old) (part self.old).board (part self.new).board result };

    // a board has few rows, and between two calls no row is drawn and unpublished
    ghost few: { (p : Self) → rows p ≤ most_rows };

    ghost none_drawn: { (p : Self) → (part p).board.drawn ≡ None };

    ghost unmoved: { (p : Self) → stays p p };

    ghost moved_on: { (p q r : Self) → stays p q → stays q r → stays p r };
}
