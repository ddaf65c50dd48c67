//! The parts of a model that a search asks for.
ghost use Rattle.std.specs.Prelude.{◌≡◌, length};

use crate::witness::Witness;
use cps_model::{Hint, Objective};
use cps_validate::ValidModel;

/// How many variables a model has, its objective, its hint and its assumptions.
#[derive(Drop)]
pub(crate) struct Essentials<'a> {
    pub witness: Witness,
    pub variables: usize,
    pub objective: &'a Option<Objective>,
    pub hint: &'a Option<Hint>,
    pub assumptions: &'a [i32],
    ghost count: { variables ≡ length witness.model.variables },
    ghost same_objective: { objective.now ≡ witness.model.objective },
    ghost same_hint: { hint.now ≡ witness.model.hint },
    ghost same_assumptions: { assumptions.now ≡ witness.model.assumptions },
}

impl<'a> Essentials<'a> {
    /// Those of a model.
    pub(crate) fn of(valid: &'a ValidModel) -> Essentials<'a>
        ensures { result.witness.model ≡ valid.now }
    {
        let model = valid.model();
        Essentials {
            witness: Witness::of(valid),
            variables: model.variables.len(),
            objective: &model.objective,
            hint: &model.hint,
            assumptions: model.assumptions.as_slice(),
        }
    }
}
