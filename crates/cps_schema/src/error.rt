//! Why a document is no model.
ghost use Rattle.std.specs.Prelude.{◌≡◌};
ghost use Rattle.cps_schema.specs.declared.error.SchemaError.TheVariants.{OutOfMemory};

use cps_model::FaultName;
use std::alloc::{AllocError, AllocFailed};
use std::convert::From;
use thiserror::Error;

/// Why a document is no model.
#[derive(Debug, Drop, Error)]
pub enum SchemaError {
    /// A field is refused at token `token`, and none before it.
    #[error("a field is refused at token {token}")]
    Fault { name: FaultName, token: usize },
    #[error("out of memory")]
    OutOfMemory,
}

impl From<AllocError> for SchemaError {
    ghost from_gives = { λ _ e. e ≡ OutOfMemory };

    fn from(_: AllocError) -> Self {
        SchemaError::OutOfMemory
    }
}

impl<T: Drop> From<AllocFailed<T>> for SchemaError {
    ghost from_gives = { λ _ e. e ≡ OutOfMemory };

    fn from(_: AllocFailed<T>) -> Self {
        SchemaError::OutOfMemory
    }
}
