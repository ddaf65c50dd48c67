//! Laws of neighbourhood workers. Each is the contract of a function with an empty body.

ghost use Rattle.std.specs.Prelude.{◌≡◌, ℕ, None};
ghost use Rattle.rand_pcg.specs.Lcg.{Lcg};
ghost use Rattle.cps_model.specs.declared.bound.Bound.TheVariants.{Infinite};
ghost use Rattle.cps_instance.specs.Problem.{Problem};
ghost use Rattle.cps_port.specs.declared.part.Part.{Part};
ghost use Rattle.cps_search.specs.declared.end.End.{End};
ghost use Rattle.cps_search.specs.declared.end.WorkerKind.TheVariants.{Near as NearKind};
ghost use Rattle.cps_search.specs.Ends.{IsHonestEnding, ending};
ghost use Rattle.cps_neighbourhood.specs.Nears.{BeginsNear, Near, NearRunsInTurns, NearRunsTo};

/// A neighbourhood worker that has ended is honest, if its actor had offered and raised nothing before it began: it
/// learnt from at most 100 conflicts for each of its rounds, and, where these are done, from at least as many as there
/// were rounds.
pub fn ended_near_workers_are_honest()
    ensures { (p : Problem) (gap conflicts rows : ℕ) (draws : Lcg) (s t : Near) (before after : Part) (end : End)
        → BeginsNear p gap conflicts draws s → NearRunsInTurns rows s t before after end
        → before.bounds.offered ≡ Infinite → before.bounds.raised ≡ None
        → IsHonestEnding p.model gap conflicts after.bounds (ending NearKind None end t.search) }
{}

/// Turns of a neighbourhood worker one after another, the last of which ended it, come to what `run` comes to, whatever
/// other actors did between them and whatever solutions it was handed.
pub fn near_turns_come_to_a_run()
    ensures { (rows : ℕ) (s t : Near) (p q : Part) (end : End) → NearRunsInTurns rows s t p q end
        → NearRunsTo s t p q end }
{}
