//! What is computed of the members.
ghost use Rattle.std.specs.Prelude.{◌≡◌, ℤ, false, List, IsTrue, length};
ghost use Rattle.cps_p_arith.specs.Ranges.{IsIn, AreIn, IsAt, AreAt};
ghost use Rattle.cps_p_arith.specs.Demands.{Relates, IsExcludedBy, IsComputed, AdmitsOrdered};

use crate::ends::Ends;
use crate::greatest::excludes_greatest;
use crate::product::excludes_product;
use crate::quotient::excludes_quotient;
use crate::remainder::excludes_remainder;

/// What the target is of its members.
#[derive(Clone, Copy)]
pub(crate) enum Relation {
    /// The first of two divided by the second, rounded towards zero.
    Quotient,
    /// What that division leaves of the first.
    Remainder,
    /// Their product.
    Product,
    /// The greatest of them.
    Greatest,
}

impl Relation {
    /// Whether no value of the target belongs to values of the members. Where all are fixed it says which.
    pub(crate) fn excludes(self, target: Ends, members: &[Ends]) -> bool
        ensures sound { IsTrue result → IsExcludedBy self target members.now }
        ensures exact { result ≡ false → IsComputed self target members.now }
        ensures possible { result ≡ false → AdmitsOrdered self target members.now }
    {
        match self {
            Relation::Quotient => excludes_quotient(target, members),
            Relation::Remainder => excludes_remainder(target, members),
            Relation::Product => excludes_product(target, members),
            Relation::Greatest => excludes_greatest(target, members),
        }
    }
}
