//! What an accepted log shows, and what trying assignments rests on. The functions do nothing: their contracts are the
//! laws.
ghost use Rattle.std.specs.Prelude.{◌≡◌, ℕ, ℤ, List, Some, Contains};
ghost use Rattle.cps_log.specs.declared.item.LogItem.{LogItem as ItemOf};
ghost use Rattle.cps_log.specs.Fitting.{FitsItem};
ghost use Rattle.cps_log.specs.Writing.{item_line};
ghost use Rattle.cps_model.specs.declared.constraint.Constraint.{Constraint};
ghost use Rattle.cps_model.specs.declared.model.CpModel.{CpModel as CpModelOf};
ghost use Rattle.cps_model.specs.declared.model.LinearExpr.{LinearExpr};
ghost use Rattle.cps_model.specs.declared.model.Variable.{Variable};
ghost use Rattle.cps_model.specs.Values.{expression_value};
ghost use Rattle.cps_literal.specs.declared.atom.Atom.{Atom};
ghost use Rattle.cps_log.specs.Subjects.{sum_at};
ghost use Rattle.cps_model.specs.Meaning.{IsSatisfied};
ghost use Rattle.cps_cert.specs.Counting.{read_variables, sum_variables, HaveSame};
ghost use Rattle.cps_cert.specs.Parts.{IsSplit};
ghost use Rattle.cps_cert.specs.Verdicts.{Accepts, RefusesAfter, BeginsWithTrueResponse};
ghost use Rattle.cps_cert.specs.TakenResponses.{AreSolvedTaken, AreInfeasibleTaken};

use cps_validate::ValidModel;

/// What is accepted begins with the text of a response that is true of the model: an optimal one with a solution that
/// no solution beats, or an infeasible one that lists assumptions which no free assignment makes all true.
pub fn what_is_accepted_is_true(model: &ValidModel)
    ensures { (bytes : List ℕ) → Accepts model.now bytes → BeginsWithTrueResponse model.now bytes }
{
    // Reading the model gives the proof its invariant: the model keeps every rule.
    let _ = model.model();
}

/// Whether a constraint is satisfied depends on the variables alone that it reads, and the value of each sum that a
/// clause is about on the variables alone of these sums.
pub fn only_what_is_read_counts()
    ensures constraint { (a b : List ℤ) (cs : List Constraint) (c : Constraint) → HaveSame a b (read_variables cs c)
        → IsSatisfied cs a c → IsSatisfied cs b c }
    ensures sums { (a b : List ℤ) (vs : List Variable) (sums : List LinearExpr) (clause : List Atom) (t : Atom)
        (e : LinearExpr) → HaveSame a b (sum_variables vs sums clause) → Contains clause t
        → sum_at vs sums t.subject ≡ Some e → expression_value a e ≡ expression_value b e }
{}

/// A line is one item's at most.
pub fn a_line_is_one_item()
    ensures { (i j : ItemOf) → FitsItem i → FitsItem j → item_line i ≡ item_line j → i ≡ j }
{}

/// What is accepted is not refused, and what is refused is refused at one line.
pub fn there_is_one_verdict()
    ensures accepted { (m : CpModelOf) (bytes : List ℕ) (count : ℕ) → Accepts m bytes → RefusesAfter m bytes count → ⊥ }
    ensures refused { (m : CpModelOf) (bytes : List ℕ) (j k : ℕ) → RefusesAfter m bytes j → RefusesAfter m bytes k → j ≡ k }
{}

/// An input is split in one way. So there is one verdict on an input, too.
pub fn an_input_splits_once()
    ensures { (input m n r s : List ℕ) (j k : ℕ) → IsSplit input m r j → IsSplit input n s k
        → (m ≡ n) × (r ≡ s) × (j ≡ k) }
{}

/// The lines of a response's text are accepted up to its log: of an optimal one with a solution and its objective as the
/// bound, and of an infeasible one that lists assumptions of the model.
pub fn a_response_is_taken(model: &ValidModel)
    ensures optimal { AreSolvedTaken model.now }
    ensures infeasible { AreInfeasibleTaken model.now }
{
    // Reading the model gives the proof its invariant: the model keeps every rule.
    let _ = model.model();
}
