//! Whether a task is in force.

ghost use Rattle.std.specs.Prelude.{◌<◌, length, All};
ghost use Rattle.cps_enforce.specs.Force.{IsForce};

use cps_literal::{Atom, Truth};
use cps_trail::Before;

/// Whether a task is in force.
#[derive(Clone, Copy)]
pub(crate) enum Force {
    /// All enforcement atoms are true.
    On,
    /// All are true but one, which is open.
    Open(usize),
    /// One is false, or two are open.
    Idle,
}

/// Whether a task with these enforcement atoms was in force.
pub(crate) fn force_of(past: &Before, enforcement: &[Atom]) -> Force
    requires { All (λ u. u.subject < length past.now.first) enforcement.now }
    ensures { IsForce past.now enforcement.now result }
{
    let mut found = None;
    for (place, atom) in enforcement.iter().enumerate() {
        match past.truth(*atom) {
            Truth::Yes => {}
            Truth::No => return Force::Idle,
            Truth::Undecided => {
                if found.is_some() {
                    return Force::Idle;
                }
                found = Some(place);
            }
        }
    }
    match found {
        None => Force::On,
        Some(place) => Force::Open(place),
    }
}
