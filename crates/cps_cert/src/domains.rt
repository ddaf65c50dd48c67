//! The domains of a model's variables.
ghost use Rattle.std.specs.Prelude.{◌≡◌, ℤ, [], map, All, IfOk, None};
ghost use Rattle.cps_model.specs.Within.{is_within};
ghost use Rattle.cps_model.specs.Validity.{variable_fault};
ghost use Rattle.cps_domain.specs.Window.{contains};
ghost use Rattle.cps_log.specs.Subjects.{variable_domain};
ghost use Rattle.cps_subjects.specs.Domains.{AreDomains};

use cps_model::Variable;
use cps_rup::{RupChecker, TrailedDomains};
use cps_subjects::domain_of;
use std::alloc::{AllocError, Global};

/// The variables' domains, of which boxes are made.
pub(crate) fn domains_of(
    alloc: Global,
    variables: &[Variable],
) -> Result<TrailedDomains, AllocError>
    requires { All (λ v. variable_fault v ≡ None) variables.now }
    ensures first { IfOk result (λ domains. AreDomains domains.first (map variable_domain variables.now)) }
    ensures now { IfOk result (λ domains. domains.now ≡ domains.first) }
{
    let mut domains = TrailedDomains::new(alloc);
    for variable in variables {
        domains.push(domain_of(alloc, variable)?)?;
    }
    Ok(domains)
}

/// A propagation over the variables, without a clause.
pub(crate) fn checker_of(alloc: Global, variables: &[Variable]) -> Result<RupChecker, AllocError>
    requires { All (λ v. variable_fault v ≡ None) variables.now }
    ensures domains { IfOk result (λ checker. AreDomains checker.domains (map variable_domain variables.now)) }
    ensures clauses { IfOk result (λ checker. checker.clauses ≡ []) }
{
    let mut checker = RupChecker::new(alloc);
    for variable in variables {
        checker.add_subject(domain_of(alloc, variable)?)?;
    }
    Ok(checker)
}
