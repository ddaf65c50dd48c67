//! The two lists of an inverse as lists of positions whose values differ.
//!
//! That follows from an inverse: two positions with one value would both be the number at that place of the other
//! list. So each side has an all-different of its own, found and certified as any, and what it gives the inverse
//! gives.
ghost use Rattle.std.specs.Prelude.{◌≡◌, Ok, true, false, OnOk, IfOk, IsTrue};
ghost use Rattle.cps_instance.specs.declared.task.Body.{Body as BodyOf};
ghost use Rattle.cps_trail.specs.Trail.{Trail};
ghost use Rattle.cps_propagate.specs.Strength.{IsStrongBody};
ghost use Rattle.cps_rule.specs.Rules.{IsFittingRule, IsSeen, IsExplained, IsRefuted};
ghost use Rattle.cps_p_sequence.specs.Inverses.{AreGivenPlaces, AreTrue};
ghost use Rattle.cps_p_sequence.specs.Sides.{AreSides, ImpliesBody, IsSeenImpossible};

use cps_literal::Atom;
use cps_p_alldiff::AllDifferent;
use cps_rule::{Hint, Look, Narrowing, Rule};
use cps_trail::{Before, Store};
use std::alloc::{AllocError, Global};

/// Both lists of an inverse, each as positions whose values differ.
#[derive(Drop)]
pub(crate) struct Sides {
    direct: AllDifferent,
    inverse: AllDifferent,
    /// Room for what one of them gives.
    room: Vec<Narrowing>,
}

/// Whether a look leaves it open whether a body can hold.
pub(crate) fn is_possible(look: &Look) -> bool
    ensures yes { IsTrue result → look.now ≡ Look.Possible }
    ensures no { result ≡ false → look.now ≡ Look.Possible → ⊥ }
{
    match look {
        Look::Possible => true,
        Look::Impossible(_) => false,
    }
}

/// The first of two looks, unless it leaves open what the second does not.
fn surest(one: Look, two: Look) -> Look
    ensures possible { result ≡ Look.Possible → (one ≡ Look.Possible) × (two ≡ Look.Possible) }
    ensures denied { (b : BodyOf) → (s : Trail) → IsSeenImpossible b s one → IsSeenImpossible b s two → IsSeenImpossible b s result }
{
    match one {
        Look::Possible => two,
        Look::Impossible(hint) => Look::Impossible(hint),
    }
}

/// Adds what keeps the values of one list apart at the end of what a list holds.
fn add_apart(
    side: &mut AllDifferent,
    store: &Store,
    room: &mut Vec<Narrowing>,
    found: &mut Vec<Narrowing>,
) -> Result<Look, AllocError>
    requires fits { IsFittingRule store.now.first side.old }
    ensures keeps { side.new ≡ side.old }
    ensures given { OnOk result ((b : BodyOf) → ImpliesBody b side.old → AreGivenPlaces b store.now found.old.items →
        AreGivenPlaces b store.now found.new.items) }
    ensures kept { OnOk result (AreTrue store.now found.new.items → AreTrue store.now found.old.items) }
    ensures seen { IfOk result (IsSeen side.old store.now) }
    ensures strong { result ≡ Ok Look.Possible → AreTrue store.now found.new.items →
        IsStrongBody side.old store.now }
{
    let judged = side.look(store, room)?;
    found.extend_from_slice(room.as_slice())?;
    Ok(judged)
}

impl Sides {
    /// The sides of an inverse of two lists.
    pub(crate) fn new(alloc: Global, direct: &[u32], inverse: &[u32]) -> Result<Self, AllocError>
        ensures { IfOk result (λ sides. AreSides direct.now inverse.now sides.direct sides.inverse) }
    {
        Ok(Sides {
            direct: AllDifferent::over(alloc, direct)?,
            inverse: AllDifferent::over(alloc, inverse)?,
            room: Vec::new(alloc),
        })
    }

    /// Puts what keeps the values of each list apart in the place of what a list holds, and answers whether they can
    /// be.
    pub(crate) fn look(
        &mut self,
        store: &Store,
        found: &mut Vec<Narrowing>,
    ) -> Result<Look, AllocError>
        requires fits_direct { IsFittingRule store.now.first self.old.direct }
        requires fits_inverse { IsFittingRule store.now.first self.old.inverse }
        ensures keeps_direct { self.new.direct ≡ self.old.direct }
        ensures keeps_inverse { self.new.inverse ≡ self.old.inverse }
        ensures given { OnOk result ((b : BodyOf) → ImpliesBody b self.old.direct → ImpliesBody b self.old.inverse →
            AreGivenPlaces b store.now found.new.items) }
        ensures denied { IfOk result (λ look. (b : BodyOf) → ImpliesBody b self.old.direct →
            ImpliesBody b self.old.inverse → IsSeenImpossible b store.now look) }
        ensures seen { result ≡ Ok Look.Possible → IsSeen self.old.direct store.now Look.Possible
            × IsSeen self.old.inverse store.now Look.Possible }
        ensures strong { result ≡ Ok Look.Possible → AreTrue store.now found.new.items →
            IsStrongBody self.old.direct store.now × IsStrongBody self.old.inverse store.now }
    {
        found.clear();
        let one = add_apart(&mut self.direct, store, &mut self.room, found)?;
        let two = add_apart(&mut self.inverse, store, &mut self.room, found)?;
        Ok(surest(one, two))
    }

    /// Puts facts that were true in the place of what a list holds, which with either list's values apart give an
    /// atom. Answers false where it finds none.
    pub(crate) fn explain(
        &self,
        past: &Before,
        target: Atom,
        hint: Hint,
        facts: &mut Vec<Atom>,
    ) -> Result<bool, AllocError>
        requires fits_direct { IsFittingRule past.now.first self.now.direct }
        requires fits_inverse { IsFittingRule past.now.first self.now.inverse }
        ensures { result ≡ Ok true → (b : BodyOf) → ImpliesBody b self.now.direct → ImpliesBody b self.now.inverse →
            IsExplained b past.now target facts.new.items }
    {
        if self.direct.explain(past, target, hint, facts)? {
            return Ok(true);
        }
        let known = self.inverse.explain(past, target, hint, facts)?;
        Ok(known)
    }

    /// The same, beside which either list's values cannot be apart.
    pub(crate) fn refute(
        &self,
        past: &Before,
        hint: Hint,
        facts: &mut Vec<Atom>,
    ) -> Result<bool, AllocError>
        requires fits_direct { IsFittingRule past.now.first self.now.direct }
        requires fits_inverse { IsFittingRule past.now.first self.now.inverse }
        ensures { result ≡ Ok true → (b : BodyOf) → ImpliesBody b self.now.direct → ImpliesBody b self.now.inverse →
            IsRefuted b past.now facts.new.items }
    {
        if self.direct.refute(past, hint, facts)? {
            return Ok(true);
        }
        let known = self.inverse.refute(past, hint, facts)?;
        Ok(known)
    }
}
