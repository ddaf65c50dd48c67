//! What a rule looks at: the domains of a store as they stand, or as they stood before an entry. So one search finds
//! what a rule implies and what a reason rests on.

use cps_literal::{Atom, Truth};
use cps_trail::{Before, Store};

/// The domains of a store at some time, seen as the store was then.
pub trait Domains {
    ghost use Rattle.std.specs.Prelude.{◌≡◌, ◌<◌, ◌↔◌, length};
    ghost use Rattle.cps_trail.specs.Trail.{Trail, IsTrueNow, IsFalseNow};

    /// The store as it was then.
    ghost trail: { Self → Trail };

    /// Whether an atom is true or false at each value that its subject may have.
    fn truth(&self, atom: Atom) -> Truth
        requires { atom.subject < length (trail self.now).first }
        ensures yes { (result ≡ Truth.Yes) ↔ IsTrueNow (trail self.now) atom }
        ensures no { (result ≡ Truth.No) ↔ IsFalseNow (trail self.now) atom };
}

impl Domains for Store {
    ghost trail = { λ s. s };

    fn truth(&self, atom: Atom) -> Truth {
        Store::truth(self, atom)
    }
}

impl<'a> Domains for Before<'a> {
    ghost trail = { λ s. s };

    fn truth(&self, atom: Atom) -> Truth {
        Before::truth(self, atom)
    }
}
