//! Fields that are not taken.
ghost use Rattle.std.specs.Prelude.{◌≡◌, if◌then◌else◌};
ghost use Rattle.cps_schema.specs.Written.{token_text};
ghost use Rattle.cps_schema.specs.Inputs.{written_of, names_of};
ghost use Rattle.cps_schema.specs.Tables.{is_given};

use super::error::SchemaError;
use super::input::{Input, same_text, token_text};
use cps_model::FaultName;

/// Whether the name is one of these.
#[tactic(auto, unfolding(crate::specs::Tables::is_given))]
pub(crate) fn is_given(names: &[&[u8]], name: &[u8]) -> bool
    ensures { result ≡ is_given (names_of names.now) name.now }
{
    for known in names {
        if same_text(name, known) {
            return true;
        }
    }
    false
}

/// Why a field is refused: its name is one of those that are known and not supported, or it is not known.
pub(crate) fn refused_field(input: &Input, unsupported: &[&[u8]], token: u32) -> SchemaError
    ensures { result ≡ SchemaError.Fault
        (if is_given (names_of unsupported.now) (token_text (written_of input.now) token)
        then FaultName.Unsupported else FaultName.UnknownField) token }
{
    let known = is_given(unsupported, token_text(input, token as usize));
    SchemaError::Fault {
        name: if known {
            FaultName::Unsupported
        } else {
            FaultName::UnknownField
        },
        token: token as usize,
    }
}
