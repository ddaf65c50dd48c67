//! What a line of a log says.
ghost use Rattle.std.specs.Prelude.{◌≡◌};
ghost use Rattle.cps_log.specs.Deriving.{defined_sum};

use cps_literal::Clause;
use cps_model::LinearExpr;

/// An item of a log. Each but a sum adds a clause.
pub enum LogItem {
    /// The next subject is this sum, over variables.
    Sum(LinearExpr),
    /// The clause follows from the constraint with this number.
    Reason { constraint: u32, clause: Clause },
    /// The clause follows from the objective's domain, and for optimality from its bound.
    Objective(Clause),
    /// The clause follows from what the sum of this subject is.
    Ends { subject: u32, clause: Clause },
    /// The assumption with this number is a clause of one atom.
    Assumed(u32),
    /// The clause follows from the earlier ones by unit propagation.
    Learnt(Clause),
}

impl LogItem {
    /// The sum that the item defines, if it defines one.
    pub fn into_sum(self) -> Option<LinearExpr>
        ensures { result ≡ defined_sum self }
    {
        match self {
            LogItem::Sum(sum) => Some(sum),
            LogItem::Reason {
                constraint: _constraint,
                clause: _clause,
            } => None,
            LogItem::Objective(_clause) | LogItem::Learnt(_clause) => None,
            LogItem::Ends {
                subject: _subject,
                clause: _clause,
            } => None,
            LogItem::Assumed(_assumption) => None,
        }
    }
}

// Written out, so that crates above do not prove it anew.
impl Drop for LogItem {
    fn drop(self) {
        match self {
            LogItem::Sum(_sum) => {}
            LogItem::Reason {
                constraint: _constraint,
                clause: _clause,
            } => {}
            LogItem::Objective(_clause) | LogItem::Learnt(_clause) => {}
            LogItem::Ends {
                subject: _subject,
                clause: _clause,
            } => {}
            LogItem::Assumed(_assumption) => {}
        }
    }
}
