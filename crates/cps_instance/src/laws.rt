//! Laws of all instances. Each is the contract of a function with an empty body.

ghost use Rattle.std.specs.Prelude.{ℤ, List};
ghost use Rattle.cps_instance.specs.Problem.{Problem, IsAssignment, IsInstance, sum_tasks, variable_count};
ghost use Rattle.cps_instance.specs.Sums.{extended};
ghost use Rattle.cps_instance.specs.Tasks.{HoldAll};

/// The task of a defined sum rules nothing out: it holds at each assignment that is followed by the values of the sums.
pub fn tasks_of_sums_hold()
    ensures { (p : Problem) (a : List ℤ) → IsInstance p → IsAssignment p.model a
        → HoldAll (sum_tasks (variable_count p) p.defs) (extended p.defs a) }
{}
