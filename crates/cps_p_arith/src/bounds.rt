//! The ends of the values of a demand's subjects.
ghost use Rattle.std.specs.Prelude.{◌≡◌, ◌<◌, ℤ, List, length, All, OnOk, Ok, true, false, IsTrue};
ghost use Rattle.std.specs.List.{AllZip};
ghost use Rattle.cps_literal.specs.Truth.{value_at};
ghost use Rattle.cps_trail.specs.Trail.{Trail};
ghost use Rattle.cps_p_arith.specs.Ranges.{IsIn, AreIn};
ghost use Rattle.cps_p_arith.specs.Demands.{LieWithinBounds, AreHeldEach, AreMeasured, HasKnownSubjects, AreEndsNow, IsDemandMissed, IsComputedBy, AdmitsOrdered, IsCutAt, AreCut};

use crate::ends::Ends;
use crate::relation::Relation;
use cps_trail::Before;
use std::alloc::{AllocError, Global};

/// A target that is computed of members.
#[derive(Drop)]
pub(crate) struct Demand {
    pub(crate) relation: Relation,
    pub(crate) target: u32,
    pub(crate) exprs: Vec<u32>,
}

/// The ends of the target's values and of each member's.
#[derive(Drop)]
pub(crate) struct Bounds {
    pub(crate) target: Ends,
    pub(crate) members: Vec<Ends>,
}

/// A subject, and between what its value lies.
#[derive(Clone, Copy)]
pub(crate) struct Place {
    pub(crate) subject: u32,
    pub(crate) ends: Ends,
}

/// The ends of a subject's values.
fn ends_of(past: &Before, subject: u32) -> Ends
    requires { subject < length past.now.first }
    ensures { AreEndsNow past.now subject result }
{
    let (low, high) = past.ends(subject);
    Ends { low, high }
}

/// Adds the ends of each subject's values.
fn measure_each(past: &Before, exprs: &[u32], ends: &mut Vec<Ends>) -> Result<(), AllocError>
    requires { All (λ i. i < length past.now.first) exprs.now }
    ensures hulls { OnOk result (AllZip (AreEndsNow past.now) exprs.now ends.new.items) }
    ensures len { OnOk result (length ends.new.items ≡ length exprs.now) }
{
    ends.clear();
    for subject in exprs {
        let each = ends_of(past, *subject);
        ends.push(each)?;
    }
    Ok(())
}

/// The ends of a subject's values: those of a place, where it is about this subject.
fn chosen(subject: u32, ends: Ends, piece: Place) -> Ends
    ensures held { (xs : List ℤ) → IsIn ends (value_at xs subject) → IsIn piece.ends (value_at xs piece.subject)
        → IsIn result (value_at xs subject) }
    ensures cut { (s : Trail) → AreEndsNow s subject ends → IsCutAt s piece subject result }
{
    if subject == piece.subject {
        piece.ends
    } else {
        ends
    }
}

/// Adds the ends that each subject has, those of a place where it is about that subject.
fn cut_each(
    whole: &[Ends],
    exprs: &[u32],
    piece: Place,
    ends: &mut Vec<Ends>,
) -> Result<(), AllocError>
    requires { length whole.now ≡ length exprs.now }
    ensures len { OnOk result (length ends.new.items ≡ length exprs.now) }
    ensures held { OnOk result ((xs : List ℤ) → AreHeldEach xs exprs.now whole.now
        → IsIn piece.ends (value_at xs piece.subject) → AreHeldEach xs exprs.now ends.new.items) }
    ensures cut { OnOk result ((s : Trail) → AllZip (AreEndsNow s) exprs.now whole.now
        → AllZip (IsCutAt s piece) exprs.now ends.new.items) }
{
    ends.clear();
    for (k, subject) in exprs.iter().enumerate() {
        let each = chosen(*subject, whole[k], piece);
        ends.push(each)?;
    }
    Ok(())
}

impl Bounds {
    /// Room for bounds.
    pub(crate) fn new(alloc: Global) -> Self {
        Bounds {
            target: Ends { low: 0, high: 0 },
            members: Vec::new(alloc),
        }
    }

    /// Reads the ends of each subject of a demand.
    pub(crate) fn measure(&mut self, past: &Before, demand: &Demand) -> Result<(), AllocError>
        requires { HasKnownSubjects past.now.first demand.now }
        ensures ends { OnOk result (AreMeasured past.now demand.now self.new) }
        ensures len { OnOk result (length self.new.members.items ≡ length demand.now.exprs.items) }
    {
        self.target = ends_of(past, demand.target);
        measure_each(past, demand.exprs.as_slice(), &mut self.members)
    }

    /// Takes over other bounds, and gives one subject ends of its own.
    pub(crate) fn cut(
        &mut self,
        whole: &Bounds,
        demand: &Demand,
        piece: Place,
    ) -> Result<(), AllocError>
        requires { length whole.now.members.items ≡ length demand.now.exprs.items }
        ensures len { OnOk result (length self.new.members.items ≡ length demand.now.exprs.items) }
        ensures held { OnOk result ((xs : List ℤ) → LieWithinBounds whole.now demand.now xs
            → IsIn piece.ends (value_at xs piece.subject) → LieWithinBounds self.new demand.now xs) }
        ensures cut { OnOk result ((s : Trail) → AreMeasured s demand.now whole.now
            → AreCut s demand.now piece self.new) }
    {
        self.target = chosen(demand.target, whole.target, piece);
        cut_each(
            whole.members.as_slice(),
            demand.exprs.as_slice(),
            piece,
            &mut self.members,
        )
    }

    /// Whether the demand cannot be met by values between these ends. Where all are fixed it says whether it is met.
    pub(crate) fn exclude(&self, demand: &Demand) -> bool
        ensures sound { IsTrue result → IsDemandMissed self.now demand.now }
        ensures exact { result ≡ false → IsComputedBy self.now demand.now }
        ensures possible { result ≡ false
            → AdmitsOrdered demand.now.relation self.now.target self.now.members.items }
    {
        demand
            .relation
            .excludes(self.target, self.members.as_slice())
    }
}
