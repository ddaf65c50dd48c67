//! Linear expressions, of which many may be plain references.
//!
//! A text gives a list of expressions in one of two forms: each written out, or as references. A reference is kept as
//! its number alone, four bytes, where the expression that it is would take more than a hundred.
ghost use Rattle.std.specs.Prelude.{◌≡◌, ◌==◌, ◌++◌, map, length};
ghost use Rattle.cps_model.specs.Values.{reference_expression};

use crate::model::LinearExpr;
use std::marker::Model;

/// A list of linear expressions: those that are written out first, and then those that are references. Contracts see
/// all of them as expressions.
pub struct Exprs {
    written: Vec<LinearExpr>,
    references: Vec<i32>,
}

// Written out, so that crates above do not prove it anew.
impl Drop for Exprs {
    fn drop(self) {
        let Exprs {
            written: _written,
            references: _references,
        } = self;
    }
}

impl Model for Exprs {
    ghost use Rattle.std.specs.Prelude.{List, ◌++◌, map};
    ghost use Rattle.cps_model.specs.declared.model.LinearExpr.{LinearExpr};
    ghost use Rattle.cps_model.specs.Values.{reference_expression};

    ghost Value = { List LinearExpr };

    ghost view = { λ e. e.written.items ++ map reference_expression e.references.items };
}

impl Exprs {
    /// Expressions that are written out, and references behind them, which takes no memory.
    pub fn of(written: Vec<LinearExpr>, references: Vec<i32>) -> Self
        ensures { result ≡ written.items ++ map reference_expression references.items }
    {
        Exprs {
            written,
            references,
        }
    }

    /// The expressions that are written out, and the references behind them.
    pub fn parts(&self) -> (&[LinearExpr], &[i32])
        ensures { self.now ≡ result.0.now ++ map reference_expression result.1.now }
    {
        (self.written.as_slice(), self.references.as_slice())
    }

    /// How many expressions there are.
    pub fn len(&self) -> usize
        ensures { result ≡ length self.now }
    {
        self.written.len() + self.references.len()
    }

    /// Whether there is no expression.
    pub fn is_empty(&self) -> bool
        ensures { result ≡ (length self.now == 0) }
    {
        self.written.is_empty() && self.references.is_empty()
    }
}
