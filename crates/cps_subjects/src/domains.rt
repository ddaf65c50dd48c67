//! The domain of a variable.
ghost use Rattle.std.specs.Prelude.{◌≡◌, ℤ, IfOk, None};
ghost use Rattle.cps_model.specs.Within.{is_within};
ghost use Rattle.cps_model.specs.Validity.{variable_fault};
ghost use Rattle.cps_domain.specs.Window.{contains};

use cps_domain::Domain;
use cps_model::Variable;
use std::alloc::{AllocError, Global};

/// The domain of a variable's values.
pub fn domain_of(alloc: Global, variable: &Variable) -> Result<Domain, AllocError>
    requires { variable_fault variable.now ≡ None }
    ensures { IfOk result (λ domain. (x : ℤ) → contains domain x ≡ is_within variable.now.domain x) }
{
    let domain = Domain::of_bounds(alloc, variable.domain.as_slice())?;
    Ok(domain)
}
