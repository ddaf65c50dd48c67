//! Laws of all searches. Each is the contract of a function that does nothing.

ghost use Rattle.std.specs.Prelude.{◌≡◌, ℕ, ◌+◌, ◌<◌, ◌≤◌, ℤ, List, [], ◌∷◌, ◌++◌, length, All, Option, Some, None};
ghost use Rattle.cps_model.specs.declared.bound.Bound.{Bound};
ghost use Rattle.cps_model.specs.declared.bound.Bound.TheVariants.{Infinite};
ghost use Rattle.cps_literal.specs.declared.atom.Atom.{Atom};
ghost use Rattle.cps_instance.specs.declared.task.Task.{Task};
ghost use Rattle.cps_instance.specs.Problem.{IsInstance, Problem};
ghost use Rattle.cps_trail.specs.Trail.{Entry, Trail};
ghost use Rattle.cps_trail.specs.Adds.{Infers};
ghost use Rattle.cps_port.specs.declared.part.Part.{Part};
ghost use Rattle.cps_clauses.specs.declared.journal.JournalItem.{JournalItem};
ghost use Rattle.cps_clauses.specs.declared.journal.JournalItem.TheVariants.{Drop};
ghost use Rattle.cps_clauses.specs.Quiet.{Fits, IsLevelFor, IsQuiet};
ghost use Rattle.cps_branch.specs.Guidances.{Branching, in_order};
ghost use Rattle.cps_branch.specs.Strategies.{Planned};
ghost use Rattle.cps_search.specs.declared.end.End.{End};
ghost use Rattle.cps_search.specs.declared.end.End.TheVariants.{Spent};
ghost use Rattle.cps_search.specs.declared.end.WorkerKind.{WorkerKind};
ghost use Rattle.cps_branch.specs.declared.guidance.Guidance.{Guidance};
ghost use Rattle.cps_search.specs.Enough.{enough};
ghost use Rattle.cps_search.specs.Forgetting.{DropsNothing};
ghost use Rattle.cps_search.specs.Giving.{ByAll};
ghost use Rattle.cps_search.specs.Guided.{RunsBy};
ghost use Rattle.cps_search.specs.Lessons.{GoesBack};
ghost use Rattle.cps_tracer.specs.Traced.{Traced};
ghost use Rattle.cps_search.specs.Moves.{decided, fresh, with_log};
ghost use Rattle.cps_search.specs.Searches.{Search, IsHonestJournal, IsSoundSearch, learnt_count};
ghost use Rattle.cps_search.specs.Ends.{IsComplete, IsHonestEnding, RunsInTurns, RunsTo, ending};

use cps_branch::Brancher;
use cps_instance::Instance;

/// Clauses that are quiet stay quiet: at the levels that remain after a backjump; at the levels below the present one
/// when entries are added there, whatever their reasons; and when a clause is added at a level that is at most its
/// `level_for`.
pub fn quiet_clauses_stay()
    ensures decision { (clauses : List (List Atom)) (s : Trail) (t : Atom) (below : ℕ) → below ≤ s.level + 1
        → IsQuiet clauses s below → IsQuiet clauses (decided s t) below }
    ensures inference { (tasks : List Task) (clauses : List (List Atom)) (s t : Trail)
        → Infers (ByAll tasks clauses) s t → IsQuiet clauses s s.level → IsQuiet clauses t t.level }
    ensures imply { (clauses : List (List Atom)) (s t : Trail) (added : List Entry)
        → t ≡ record s { entries = s.entries ++ added } → All (λ e. e.level ≡ s.level) added
        → IsQuiet clauses s s.level → IsQuiet clauses t t.level }
    ensures add { (clauses : List (List Atom)) (s : Trail) (clause : List Atom) (level : ℕ)
        → IsLevelFor s clause level → s.level ≤ level → IsQuiet clauses s s.level
        → IsQuiet (clauses ++ clause ∷ []) s s.level }
    ensures backjump { (clauses : List (List Atom)) (s t : Trail) (level below : ℕ) → GoesBack s t level
        → below ≤ level + 1 → IsQuiet clauses s below → IsQuiet clauses t below }
    ensures subject { (clauses : List (List Atom)) (s t : Trail) (domain : List (ℤ × ℤ)) (below : ℕ)
        → All (Fits s.first) clauses → t ≡ record s { first = s.first ++ domain ∷ [] } → IsQuiet clauses s below
        → IsQuiet clauses t below }
{}

/// Over an instance without subjects there is nothing to learn: no clause has an atom.
pub fn nothing_to_learn_without_subjects()
    ensures { (p : Problem) (journal : List JournalItem) → p.domains ≡ [] → IsHonestJournal p journal → journal ≡ [] }
{}

/// Of each instance there is a number such that no honest journal without drops is longer. So a greater budget is spent
/// only if clauses were dropped.
pub fn honest_journals_are_bounded(instance: &Instance)
    ensures { (most : ℕ) × ((journal : List JournalItem) → DropsNothing journal → IsHonestJournal instance.now journal
        → length journal ≤ most) }
{
    // Reading the domains gives the proof the instance's invariant.
    let _ = instance.domains();
}

/// In an honest journal nothing was dropped before 2,000 clauses were learnt.
pub fn nothing_is_dropped_early()
    ensures { (p : Problem) (earlier later : List JournalItem) (i : ℕ) → IsHonestJournal p (earlier ++ Drop i ∷ later)
        → 2000 ≤ learnt_count earlier }
{}

/// A worker of a complete kind that has ended is honest, if its actor had offered and raised nothing before it began.
pub fn ended_workers_are_honest()
    ensures { (p : Problem) (gap budget : ℕ) (log : Option Traced) (t : Search) (before after : Part)
        (kind : WorkerKind) (guidance : Option Guidance) (end : End) → IsComplete kind
        → RunsTo (with_log log (fresh p gap (Some budget))) t before after end
        → IsSoundSearch t → before.bounds.offered ≡ Infinite → before.bounds.raised ≡ None
        → IsHonestEnding p.model gap budget after.bounds (ending kind guidance end t) }
{}

/// Turns of a worker one after another, the last of which ended it, come to what `run` comes to, whatever other actors
/// did between them.
pub fn turns_come_to_a_run<B: Brancher>()
    ensures { (rows : ℕ) (s t : Search × B) (p q : Part) (end : End)
        → (h : RunsInTurns B.chooses B.hears B.stays rows s t p q end) → IsSoundSearch h.before.0
        → RunsTo s.0 t.0 p q end }
{}

/// How many conflicts are enough the model alone determines: it is the same for each of its instances with the same
/// sums.
pub fn the_model_says_how_many_are_enough()
    ensures { (p q : Problem) → IsInstance p → IsInstance q → q.model ≡ p.model → q.defs ≡ p.defs
        → enough q ≡ enough p }
{}

/// A worker in order learns from few conflicts, whatever its budget, and whatever other actors share and raise. So it
/// never spends a budget that is enough for its instance.
pub fn workers_in_order_decide()
    ensures few { (p : Problem) (gap rows : ℕ) (budget : Option ℕ) (log : Option Traced) (plan : Planned)
        (t : Search × Branching) (before after : Part) (end : End)
        → RunsBy rows (with_log log (fresh p gap budget), in_order plan) t before after end
        → t.0.tally < enough p }
    ensures unspent { (p : Problem) (gap rows budget : ℕ) (log : Option Traced) (plan : Planned)
        (t : Search × Branching) (before after : Part) (clause : List Atom) (below : Bound) → enough p ≤ budget
        → RunsBy rows (with_log log (fresh p gap (Some budget)), in_order plan) t before after (Spent clause below)
        → ⊥ }
{}
