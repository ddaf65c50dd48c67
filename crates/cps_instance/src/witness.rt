//! A model that contracts know and no code holds.
//!
//! Contracts of an instance speak of its whole model, where a search asks for few parts of it. A function pays in its
//! proof for each type that its own types reach, so what holds an instance must not reach the model's.
ghost use Rattle.std.specs.Prelude.{◌≡◌};
ghost use base.Fml.{ftrue};
ghost use Rattle.cps_model.specs.declared.model.CpModel.{CpModel as CpModelOf};

use cps_validate::ValidModel;
use std::marker::Model;

/// A model, for contracts alone.
#[derive(Drop)]
pub(crate) struct Witness {
    ghost model: { CpModelOf },
}

impl Model for Witness {
    ghost use base.Fml.{ftrue};

    ghost also_owns = { λ _. ftrue };
}

impl Witness {
    /// The witness of a model.
    pub(crate) fn of(_model: &ValidModel) -> Witness
        ensures { result.model ≡ _model.now }
    {
        Witness {}
    }
}
