//! The rule of two lists that are each other's inverse.
//!
//! Value by value: a position may have a number exactly where that number's position in the other list may have its
//! own. So both lists mirror each other. Beside that the values of each list differ, and the intervals that they fill
//! are left to them (`Sides`); that says more than the mirror where several positions share several numbers.
ghost use Rattle.std.specs.Prelude.{◌≡◌, ◌<◌, ℤ, pos, ◌≤ℤ◌, ◌<ℤ◌, ◌-ℤ◌, true, false, length, Contains, All, OnOk, IfOk, IsTrue};
ghost use Rattle.cps_literal.specs.Truth.{meets};
ghost use Rattle.cps_instance.specs.declared.task.Body.{Body as BodyOf};
ghost use Rattle.cps_propagate.specs.Now.{IsOpenTo};
ghost use Rattle.cps_rule.specs.Rules.{IsExplained};
ghost use Rattle.cps_p_sequence.specs.Inverses.{AreGivenPlaces, AreTrue, HasPlace, IsMatched, ArePaired, AllPaired, IsWithinPlaces, AreMirroredAt, AreMirrored};

use crate::sides::{Sides, is_possible};
use cps_enforce::Enforced;
use cps_instance::{Body, Task};
use cps_literal::{Atom, Op, Truth};
use cps_rule::{Hint, Look, Narrowing, Rule};
use cps_trail::{Before, Store};
use std::alloc::{AllocError, Global};
use std::marker::Model;

/// The rule of a body `Inverse`. Contracts see the body. A hint is the ends of an interval that is full or crowded in
/// one of the lists, or of none.
pub struct Inverse {
    direct: Vec<u32>,
    inverse: Vec<u32>,
    sides: Sides,
}

// Written out, so that crates above do not prove it anew.
impl Drop for Inverse {
    fn drop(self) {
        let Inverse {
            direct: _direct,
            inverse: _inverse,
            sides: _sides,
        } = self;
    }
}

impl Model for Inverse {
    ghost use Rattle.cps_instance.specs.declared.task.Body.{Body};
    ghost use Rattle.cps_instance.specs.declared.task.Body.TheVariants.{Inverse as InverseOf};
    ghost use Rattle.cps_p_sequence.specs.Sides.{AreSides};

    ghost Value = { Body };

    ghost view = { λ r. InverseOf r.direct.items r.inverse.items };

    ghost invariant = { λ r. AreSides r.direct.items r.inverse.items r.sides.direct r.sides.inverse };
}

/// A position of one of the lists, by its subject and its number there.
#[derive(Clone, Copy)]
struct Position {
    subject: u32,
    number: i64,
}

/// An atom that is given, with the hint of no interval.
fn given(target: Atom) -> Narrowing
    ensures { result.target ≡ target }
{
    Narrowing {
        target,
        hint: Hint { a: 0, b: -1 },
    }
}

/// Adds what keeps a subject's values from being negative.
fn keep_from_zero(store: &Store, subject: u32, found: &mut Vec<Narrowing>) -> Result<(), AllocError>
    requires { subject < length store.now.first }
    ensures given { OnOk result ((b : BodyOf) → (count : ℤ) → HasPlace b subject count
        → AreGivenPlaces b store.now found.old.items → AreGivenPlaces b store.now found.new.items) }
    ensures kept { OnOk result (AreTrue store.now found.new.items → AreTrue store.now found.old.items) }
    ensures least { OnOk result (AreTrue store.now found.new.items → (x : ℤ) → IsOpenTo store.now subject x
        → pos 0 ≤ℤ x) }
{
    if 0 <= store.domain(subject).min() {
        return Ok(());
    }
    found.push(given(Atom {
        subject,
        op: Op::Ge,
        value: 0,
    }))?;
    Ok(())
}

/// Adds what keeps a subject's values below a number.
fn keep_below(
    store: &Store,
    subject: u32,
    count: i64,
    found: &mut Vec<Narrowing>,
) -> Result<(), AllocError>
    requires subject { subject < length store.now.first }
    requires count { pos 0 ≤ℤ count }
    ensures given { OnOk result ((b : BodyOf) → HasPlace b subject count → AreGivenPlaces b store.now found.old.items
        → AreGivenPlaces b store.now found.new.items) }
    ensures kept { OnOk result (AreTrue store.now found.new.items → AreTrue store.now found.old.items) }
    ensures below { OnOk result (AreTrue store.now found.new.items → (x : ℤ) → IsOpenTo store.now subject x
        → x <ℤ count) }
{
    if store.domain(subject).max() < count {
        return Ok(());
    }
    found.push(given(Atom {
        subject,
        op: Op::Le,
        value: count - 1,
    }))?;
    Ok(())
}

/// Adds what keeps the values of subjects among `count` places.
fn keep_within(
    store: &Store,
    subjects: &[u32],
    count: i64,
    found: &mut Vec<Narrowing>,
) -> Result<(), AllocError>
    requires subjects { All (λ i. i < length store.now.first) subjects.now }
    requires count { pos 0 ≤ℤ count }
    ensures given { OnOk result ((b : BodyOf) → All (λ i. HasPlace b i count) subjects.now
        → AreGivenPlaces b store.now found.old.items → AreGivenPlaces b store.now found.new.items) }
    ensures kept { OnOk result (AreTrue store.now found.new.items → AreTrue store.now found.old.items) }
    ensures within { OnOk result (AreTrue store.now found.new.items
        → All (λ i. IsWithinPlaces store.now i count) subjects.now) }
{
    for subject in subjects {
        keep_from_zero(store, *subject, found)?;
        keep_below(store, *subject, count, found)?;
    }
    Ok(())
}

/// Adds what keeps a position off the number of another one that cannot have its own.
fn keep_off(
    store: &Store,
    one: Position,
    other: Position,
    found: &mut Vec<Narrowing>,
) -> Result<(), AllocError>
    requires one { one.subject < length store.now.first }
    requires other { other.subject < length store.now.first }
    ensures given { OnOk result ((b : BodyOf) → IsMatched b one.subject one.number other.subject other.number
        → AreGivenPlaces b store.now found.old.items → AreGivenPlaces b store.now found.new.items) }
    ensures kept { OnOk result (AreTrue store.now found.new.items → AreTrue store.now found.old.items) }
    ensures mirrored { OnOk result
        (AreTrue store.now found.new.items → IsOpenTo store.now one.subject other.number
        → IsOpenTo store.now other.subject one.number) }
{
    if !store.domain(one.subject).contains(other.number) {
        return Ok(());
    }
    if store.domain(other.subject).contains(one.number) {
        return Ok(());
    }
    found.push(given(Atom {
        subject: one.subject,
        op: Op::Ne,
        value: other.number,
    }))?;
    Ok(())
}

/// Adds what keeps a position and those of a list off each other's numbers, where one cannot have the other's.
fn keep_apart(
    store: &Store,
    one: Position,
    others: &[u32],
    found: &mut Vec<Narrowing>,
) -> Result<(), AllocError>
    requires one { one.subject < length store.now.first }
    requires others { All (λ i. i < length store.now.first) others.now }
    ensures given { OnOk result ((b : BodyOf) → ArePaired b one.subject one.number others.now
        → AreGivenPlaces b store.now found.old.items → AreGivenPlaces b store.now found.new.items) }
    ensures kept { OnOk result (AreTrue store.now found.new.items → AreTrue store.now found.old.items) }
    ensures mirrored { OnOk result
        (AreTrue store.now found.new.items → AreMirroredAt store.now one.subject one.number others.now) }
{
    for (place, subject) in others.iter().enumerate() {
        let other = Position {
            subject: *subject,
            number: place as i64,
        };
        keep_off(store, one, other, found)?;
        keep_off(store, other, one, found)?;
    }
    Ok(())
}

/// Adds what keeps each position of the first list and those of the second off each other's numbers.
fn mirror(
    store: &Store,
    direct: &[u32],
    inverse: &[u32],
    found: &mut Vec<Narrowing>,
) -> Result<(), AllocError>
    requires direct { All (λ i. i < length store.now.first) direct.now }
    requires inverse { All (λ i. i < length store.now.first) inverse.now }
    ensures given { OnOk result ((b : BodyOf) → AllPaired b direct.now inverse.now
        → AreGivenPlaces b store.now found.old.items → AreGivenPlaces b store.now found.new.items) }
    ensures kept { OnOk result (AreTrue store.now found.new.items → AreTrue store.now found.old.items) }
    ensures mirrored { OnOk result (AreTrue store.now found.new.items → AreMirrored store.now direct.now inverse.now) }
{
    for (place, subject) in direct.iter().enumerate() {
        let one = Position {
            subject: *subject,
            number: place as i64,
        };
        keep_apart(store, one, inverse, found)?;
    }
    Ok(())
}

/// Adds what keeps the values of both lists among the places, and each position off what the other list does not have.
fn keep_places(
    store: &Store,
    direct: &[u32],
    inverse: &[u32],
    found: &mut Vec<Narrowing>,
) -> Result<(), AllocError>
    requires direct { All (λ i. i < length store.now.first) direct.now }
    requires inverse { All (λ i. i < length store.now.first) inverse.now }
    ensures given { OnOk result ((b : BodyOf) → All (λ i. HasPlace b i (pos (length direct.now))) direct.now
        → All (λ i. HasPlace b i (pos (length direct.now))) inverse.now → AllPaired b direct.now inverse.now
        → AreGivenPlaces b store.now found.old.items → AreGivenPlaces b store.now found.new.items) }
    ensures kept { OnOk result (AreTrue store.now found.new.items → AreTrue store.now found.old.items) }
    ensures direct { OnOk result (AreTrue store.now found.new.items
        → All (λ i. IsWithinPlaces store.now i (pos (length direct.now))) direct.now) }
    ensures inverse { OnOk result (AreTrue store.now found.new.items
        → All (λ i. IsWithinPlaces store.now i (pos (length direct.now))) inverse.now) }
    ensures mirrored { OnOk result (AreTrue store.now found.new.items → AreMirrored store.now direct.now inverse.now) }
{
    let count = direct.len() as i64;
    keep_within(store, direct, count, found)?;
    keep_within(store, inverse, count, found)?;
    mirror(store, direct, inverse, found)
}

/// Whether an atom is a bound that each number of `count` places meets.
fn is_wide(target: Atom, count: i64) -> bool
    requires { pos 0 ≤ℤ count }
    ensures wide { IsTrue result → (x : ℤ) → pos 0 ≤ℤ x → x <ℤ count → meets target.op target.value x ≡ true }
    ensures narrow { result ≡ false → (target.op ≡ Op.Ge → pos 0 <ℤ target.value)
        × (target.op ≡ Op.Le → target.value <ℤ (count -ℤ pos 1)) }
{
    match target.op {
        Op::Ge => target.value <= 0,
        Op::Le => count - 1 <= target.value,
        _ => false,
    }
}

/// Whether a subject is among these.
fn is_among(subjects: &[u32], subject: u32) -> bool
    ensures { IsTrue result → Contains subjects.now subject }
{
    subjects.contains(&subject)
}

/// The greatest number that a fact may name.
const LIMIT: i64 = (1 << 62) - 1;

/// Puts the fact by which a position cannot have the place that an atom denies it: that place's position cannot have
/// its number. Answers whether it was true.
fn explain_by(
    past: &Before,
    target: Atom,
    number: i64,
    others: &[u32],
    facts: &mut Vec<Atom>,
) -> Result<bool, AllocError>
    requires others { All (λ i. i < length past.now.first) others.now }
    requires number { pos 0 ≤ℤ number }
    requires op { target.op ≡ Op.Ne }
    ensures { IfOk result (λ known. IsTrue known → (b : BodyOf) → ArePaired b target.subject number others.now
        → IsExplained b past.now target facts.new.items) }
{
    if LIMIT < number {
        return Ok(false);
    }
    for (place, other) in others.iter().enumerate() {
        if place as i64 == target.value {
            let fact = Atom {
                subject: *other,
                op: Op::Ne,
                value: number,
            };
            match past.truth(fact) {
                Truth::Yes => {
                    facts.clear();
                    facts.push(fact)?;
                    return Ok(true);
                }
                _ => return Ok(false),
            }
        }
    }
    Ok(false)
}

/// The same, for a position of a list whose subject is the atom's.
fn explain_from(
    past: &Before,
    target: Atom,
    own: &[u32],
    others: &[u32],
    facts: &mut Vec<Atom>,
) -> Result<bool, AllocError>
    requires others { All (λ i. i < length past.now.first) others.now }
    requires op { target.op ≡ Op.Ne }
    ensures { IfOk result (λ known. IsTrue known → (b : BodyOf) → AllPaired b own.now others.now
        → IsExplained b past.now target facts.new.items) }
{
    for (place, subject) in own.iter().enumerate() {
        if *subject == target.subject && explain_by(past, target, place as i64, others, facts)? {
            return Ok(true);
        }
    }
    Ok(false)
}

impl Inverse {
    ghost use Rattle.std.specs.Prelude.{◌≡◌, Ok, true, IfOk, IsTrue};
    ghost use Rattle.cps_rule.specs.Rules.{IsFittingRule, IsExplained};
    ghost use Rattle.cps_p_sequence.specs.Inverses.{is_inverse};

    /// The rule of a body that is `Inverse`.
    pub fn new(alloc: Global, body: &Body) -> Result<Self, AllocError>
        requires { IsTrue (is_inverse body.now) }
        ensures { IfOk result (λ rule. rule ≡ body.now) }
    {
        match body {
            Body::Inverse { direct, inverse } => Ok(Inverse {
                direct: Vec::from_slice(alloc, direct.as_slice())?,
                inverse: Vec::from_slice(alloc, inverse.as_slice())?,
                sides: Sides::new(alloc, direct.as_slice(), inverse.as_slice())?,
            }),
            _ => unreachable!(),
        }
    }

    /// The propagator of a task whose body is `Inverse`.
    pub fn of(alloc: Global, task: &Task) -> Result<Enforced<Inverse>, AllocError>
        requires { IsTrue (is_inverse task.now.body) }
        ensures { IfOk result (λ propagator. propagator ≡ task.now) }
    {
        let rule = Inverse::new(alloc, &task.body)?;
        let propagator = Enforced::new(alloc, task.enforcement.as_slice(), rule)?;
        Ok(propagator)
    }

    /// Puts the fact of the other list that gives an atom in the place of what a list holds, or none where the number
    /// of places gives it. Answers false where neither does.
    fn explain_mirrored(
        &self,
        past: &Before,
        target: Atom,
        facts: &mut Vec<Atom>,
    ) -> Result<bool, AllocError>
        requires fits { IsFittingRule past.now.first self.now }
        ensures { result ≡ Ok true → IsExplained self.now past.now target facts.new.items }
    {
        let direct = self.direct.as_slice();
        let inverse = self.inverse.as_slice();
        facts.clear();
        match target.op {
            Op::Ne => {
                if explain_from(past, target, direct, inverse, facts)? {
                    return Ok(true);
                }
                let known = explain_from(past, target, inverse, direct, facts)?;
                Ok(known)
            }
            _ => {
                if !is_wide(target, direct.len() as i64) {
                    return Ok(false);
                }
                if is_among(direct, target.subject) {
                    return Ok(true);
                }
                Ok(is_among(inverse, target.subject))
            }
        }
    }
}

impl Rule for Inverse {
    ghost body = { λ r. r };

    fn look(&mut self, store: &Store, found: &mut Vec<Narrowing>) -> Result<Look, AllocError> {
        let judged = self.sides.look(store, found)?;
        if !is_possible(&judged) {
            return Ok(judged);
        }
        let direct = self.direct.as_slice();
        let inverse = self.inverse.as_slice();
        keep_places(store, direct, inverse, found)?;
        Ok(Look::Possible)
    }

    fn explain(
        &self,
        past: &Before,
        target: Atom,
        hint: Hint,
        facts: &mut Vec<Atom>,
    ) -> Result<bool, AllocError> {
        if self.explain_mirrored(past, target, facts)? {
            return Ok(true);
        }
        let known = self.sides.explain(past, target, hint, facts)?;
        Ok(known)
    }

    fn refute(&self, past: &Before, hint: Hint, facts: &mut Vec<Atom>) -> Result<bool, AllocError> {
        let is_refuted = self.sides.refute(past, hint, facts)?;
        Ok(is_refuted)
    }

    fn push_subjects(&self, subjects: &mut Vec<u32>) -> Result<(), AllocError> {
        subjects.extend_from_slice(self.direct.as_slice())?;
        subjects.extend_from_slice(self.inverse.as_slice())?;
        Ok(())
    }
}
