//! Laws of core-guided workers. Each is the contract of a function with an empty body.

ghost use Rattle.std.specs.Prelude.{◌≡◌, ℕ, None};
ghost use Rattle.cps_model.specs.declared.bound.Bound.TheVariants.{Infinite};
ghost use Rattle.cps_instance.specs.Problem.{Problem};
ghost use Rattle.cps_port.specs.declared.part.Part.{Part};
ghost use Rattle.cps_search.specs.declared.end.End.{End};
ghost use Rattle.cps_search.specs.Ends.{IsHonestEnding};
ghost use Rattle.cps_core_guided.specs.Reforming.{CoreSearch, IsSoundCore};
ghost use Rattle.cps_core_guided.specs.CoreTurns.{BeginsCore, RunsCoreTo, RunsInCoreTurns, core_ending};

use cps_branch::Brancher;

/// A core-guided worker that has ended is honest, if its actor had offered and raised nothing before it began. Its
/// journal is one of the instance with the sums that it defined.
pub fn ended_core_workers_are_honest<B: Brancher>()
    ensures { (p : Problem) (gap budget rows : ℕ) (s t : CoreSearch × B) (before after : Part) (end : End)
        → BeginsCore p gap budget s.0
        → (h : RunsInCoreTurns B.chooses B.hears B.stays rows s t before after end)
        → IsSoundCore h.before.0 → IsSoundCore t.0
        → before.bounds.offered ≡ Infinite → before.bounds.raised ≡ None
        → IsHonestEnding p.model gap budget after.bounds (core_ending end t.0) }
{}

/// Turns of a core-guided worker one after another, the last of which ended it, come to what `run` comes to, whatever
/// other actors did between them.
pub fn core_turns_come_to_a_run<B: Brancher>()
    ensures { (rows : ℕ) (s t : CoreSearch × B) (p q : Part) (end : End)
        → (h : RunsInCoreTurns B.chooses B.hears B.stays rows s t p q end) → IsSoundCore h.before.0
        → RunsCoreTo s.0 t.0 p q end }
{}
