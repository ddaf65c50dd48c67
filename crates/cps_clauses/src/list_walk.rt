//! One walk over a list of watchers: for which entry, over which list.

use cps_literal::{Atom, Op};

/// An entry, its subject, an operator, the number of their list, and the range of the atoms that the entry may have
/// made false.
#[derive(Clone, Copy)]
pub(crate) struct ListWalk {
    pub(crate) entry: usize,
    pub(crate) subject: u32,
    pub(crate) op: Op,
    pub(crate) slot: usize,
    pub(crate) range: (i64, i64),
}

impl ListWalk {
    ghost use Rattle.std.specs.Prelude.{◌≡◌};

    /// The atom of the walk, by the value that the atom compares with.
    pub(crate) fn atom(self, value: i64) -> Atom
        ensures { result ≡ record { subject = self.subject; op = self.op; value = value } }
    {
        Atom {
            subject: self.subject,
            op: self.op,
            value,
        }
    }
}
