//! The steps that lift a reformed objective, with what they say of all solutions below a bound.

ghost use Rattle.std.specs.Prelude.{◌≡◌, ◌<◌, ◌^◌, ℤ, ◌≤ℤ◌, unsigned_abs, List, length, true, false, Ok, IfOk, OnErr};
ghost use Rattle.cps_literal.specs.Truth.{value_at};
ghost use Rattle.cps_port.specs.Order.{IsBelow, IsSmallBound};
ghost use Rattle.cps_port.specs.Incumbents.{IsLowerBound};
ghost use Rattle.cps_model.specs.declared.bound.Bound.{Bound};
ghost use Rattle.cps_reform.specs.Forms.{term_at, lifted};
ghost use Rattle.cps_reform.specs.Cores.{least_weight, WeighAtLeast, IsSomeAbove, split};
ghost use Rattle.cps_reform.specs.Floors.{IsReform, OfEachBelow, IsGreatestObjective, IsCoreSum, IsFormPast, NoneIsBelow};

use crate::reform::Reform;
use cps_instance::Instance;
use cps_model::Bound;
use std::alloc::AllocError;

/// What bounds the objective of each solution that is looked for from above.
#[derive(Clone, Copy)]
pub struct Ceiling {
    /// The bound below which solutions are looked for.
    pub z: Bound,
    /// The greatest objective by the domains.
    pub greatest: i64,
}

/// The greatest objective that a solution below a ceiling can have.
fn limit(ceiling: Ceiling) -> i64
    requires z { IsSmallBound ceiling.z }
    ensures all { (v : ℤ) → IsBelow v ceiling.z → v ≤ℤ ceiling.greatest → v ≤ℤ result }
    ensures below { IsBelow result ceiling.z }
    ensures most { result ≤ℤ ceiling.greatest }
{
    match ceiling.z {
        Bound::At(value) => ceiling.greatest.min(value - 1),
        Bound::Infinite => ceiling.greatest,
    }
}

impl Reform {
    /// Raises the bound of a term that no solution below z is below. Where it answers false, no solution is below z,
    /// and nothing changes; else the new base is below z, and at most the objective of each solution.
    pub fn lift_below(
        &mut self,
        instance: &Instance<'_>,
        place: usize,
        bound: i64,
        ceiling: Ceiling,
    ) -> bool
        requires reform { IsReform instance.now ceiling.z self.old }
        requires place { place < length self.old.terms }
        requires rises { (term_at self.old.terms place).bound ≤ℤ bound }
        requires risen { OfEachBelow instance.now ceiling.z
            (λ xs. bound ≤ℤ value_at xs (term_at self.old.terms place).subject) }
        requires z { IsSmallBound ceiling.z }
        requires greatest { IsGreatestObjective instance.now.model ceiling.greatest }
        requires small { unsigned_abs ceiling.greatest < 2 ^ 62 }
        requires base { unsigned_abs self.old.base < 2 ^ 62 }
        ensures reform { IsReform instance.now ceiling.z self.new }
        ensures base { unsigned_abs self.new.base < 2 ^ 62 }
        ensures lifts { result ≡ true → self.new ≡ lifted self.old place bound }
        ensures below { result ≡ true → IsBelow self.new.base ceiling.z }
        ensures not_past { result ≡ true → IsFormPast ceiling.z ceiling.greatest instance.now.domains self.new → ⊥ }
        ensures bounds { result ≡ true → IsLowerBound instance.now.model (Bound.At self.new.base) }
        ensures past { result ≡ false → IsFormPast ceiling.z ceiling.greatest instance.now.domains (lifted self.old place bound) }
        ensures stays { result ≡ false → self.new ≡ self.old }
        ensures none { result ≡ false → NoneIsBelow instance.now ceiling.z }
    {
        let limit = limit(ceiling);
        if limit < self.base() {
            return false;
        }
        self.lift(instance.domains(), place, bound, limit)
    }

    /// Splits a core, of which each solution below z is above a bound, with the subject that is its sum. Where it
    /// answers false, no solution is below z, and nothing changes; else the new base is below z, and at most the
    /// objective of each solution.
    pub fn split_below(
        &mut self,
        instance: &Instance<'_>,
        subject: u32,
        ceiling: Ceiling,
    ) -> Result<bool, AllocError>
        requires reform { IsReform instance.now ceiling.z self.old }
        requires weights { WeighAtLeast 1 self.old.terms }
        requires sum { IsCoreSum instance.now self.old.terms subject }
        requires core { OfEachBelow instance.now ceiling.z (λ xs. IsSomeAbove xs self.old.terms) }
        requires z { IsSmallBound ceiling.z }
        requires greatest { IsGreatestObjective instance.now.model ceiling.greatest }
        requires small { unsigned_abs ceiling.greatest < 2 ^ 62 }
        requires base { unsigned_abs self.old.base < 2 ^ 62 }
        ensures reform { IsReform instance.now ceiling.z self.new }
        ensures base { unsigned_abs self.new.base < 2 ^ 62 }
        ensures splits { result ≡ Ok true → self.new ≡ split self.old (least_weight self.old.terms) subject }
        ensures below { result ≡ Ok true → IsBelow self.new.base ceiling.z }
        ensures not_past { result ≡ Ok true → IsFormPast ceiling.z ceiling.greatest instance.now.domains self.new → ⊥ }
        ensures bounds { result ≡ Ok true → IsLowerBound instance.now.model (Bound.At self.new.base) }
        ensures past { result ≡ Ok false → IsFormPast ceiling.z ceiling.greatest instance.now.domains (split self.old (least_weight
            self.old.terms) subject) }
        ensures stays { result ≡ Ok false → self.new ≡ self.old }
        ensures err { OnErr result (self.new ≡ self.old) }
        ensures none { result ≡ Ok false → NoneIsBelow instance.now ceiling.z }
    {
        let limit = limit(ceiling);
        if limit < self.base() {
            return Ok(false);
        }
        self.split(instance.domains(), subject, limit)
    }
}
