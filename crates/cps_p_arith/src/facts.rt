//! The facts of an explanation: bounds that were true in the store.
//!
//! An explanation is right if the facts' bounds and the denied atom leave no values that meet the demand, which one
//! test per kind tells (`relation`); here the bounds are looked up, each as an atom that was true, or as the atom that
//! is supposed. A bound that every value keeps to is no fact.
ghost use Rattle.std.specs.Prelude.{◌≡◌, ◌<◌, ℤ, List, length, All, true, Ok, IsTrue};
ghost use Rattle.cps_literal.specs.Truth.{atom_holds};
ghost use Rattle.cps_instance.specs.Terms.{AreIntervals, domain_at};
ghost use Rattle.cps_rule.specs.Rules.{AreFacts};
ghost use Rattle.cps_p_arith.specs.Demands.{IsSupposed, Needs, NeedsWithin, SupportsEnds, SupportsEach, RefutesDemand, HasKnownSubjects, AreSoundFor};

use crate::bounds::{Bounds, Demand};
use crate::ends::Ends;
use cps_literal::{Atom, Op, Truth};
use cps_trail::Before;
use std::alloc::AllocError;

/// Past the magnitude of each value of a domain.
pub(crate) const LIMIT: i64 = 4_611_686_018_427_387_904;

/// Whether what is supposed gives an atom.
fn is_supposed(supposed: Option<Atom>, atom: Atom) -> bool
    ensures { IsTrue result → (xs : List ℤ) → IsSupposed supposed xs → atom_holds xs atom ≡ true }
{
    match supposed {
        Some(other) => other.implies(atom),
        None => false,
    }
}

/// Adds an atom to the facts, unless it is supposed. Answers false where it was not true.
fn need(
    past: &Before,
    supposed: Option<Atom>,
    atom: Atom,
    facts: &mut Vec<Atom>,
) -> Result<bool, AllocError>
    requires subject { atom.subject < length past.now.first }
    requires facts { AreFacts past.now facts.old.items }
    ensures { result ≡ Ok true → Needs past.now supposed atom facts.old.items facts.new.items }
{
    if is_supposed(supposed, atom) {
        return Ok(true);
    }
    if atom.value <= -LIMIT || LIMIT <= atom.value {
        return Ok(false);
    }
    match past.truth(atom) {
        Truth::Yes => {
            facts.push(atom)?;
            Ok(true)
        }
        _ => Ok(false),
    }
}

/// Adds the bound from below, unless each value keeps to it.
fn support_low(
    past: &Before,
    supposed: Option<Atom>,
    low: Atom,
    facts: &mut Vec<Atom>,
) -> Result<bool, AllocError>
    requires subject { low.subject < length past.now.first }
    requires op { low.op ≡ Op.Ge }
    requires sound { AreIntervals (domain_at past.now.first low.subject) }
    requires facts { AreFacts past.now facts.old.items }
    ensures { result ≡ Ok true → NeedsWithin past.now supposed low facts.old.items facts.new.items }
{
    if low.value <= -LIMIT {
        return Ok(true);
    }
    need(past, supposed, low, facts)
}

/// Adds the bound from above, unless each value keeps to it.
fn support_high(
    past: &Before,
    supposed: Option<Atom>,
    high: Atom,
    facts: &mut Vec<Atom>,
) -> Result<bool, AllocError>
    requires subject { high.subject < length past.now.first }
    requires op { high.op ≡ Op.Le }
    requires sound { AreIntervals (domain_at past.now.first high.subject) }
    requires facts { AreFacts past.now facts.old.items }
    ensures { result ≡ Ok true → NeedsWithin past.now supposed high facts.old.items facts.new.items }
{
    if LIMIT <= high.value {
        return Ok(true);
    }
    need(past, supposed, high, facts)
}

/// Adds what keeps a subject's value between ends.
fn support(
    past: &Before,
    supposed: Option<Atom>,
    subject: u32,
    ends: Ends,
    facts: &mut Vec<Atom>,
) -> Result<bool, AllocError>
    requires subject { subject < length past.now.first }
    requires sound { AreIntervals (domain_at past.now.first subject) }
    requires facts { AreFacts past.now facts.old.items }
    ensures { result ≡ Ok true → SupportsEnds past.now supposed subject ends facts.old.items facts.new.items }
{
    let low = Atom {
        subject,
        op: Op::Ge,
        value: ends.low,
    };
    let high = Atom {
        subject,
        op: Op::Le,
        value: ends.high,
    };
    if !support_low(past, supposed, low, facts)? {
        return Ok(false);
    }
    support_high(past, supposed, high, facts)
}

/// Adds what keeps the value of each subject between ends.
fn support_each(
    past: &Before,
    supposed: Option<Atom>,
    exprs: &[u32],
    ends: &[Ends],
    facts: &mut Vec<Atom>,
) -> Result<bool, AllocError>
    requires len { length exprs.now ≡ length ends.now }
    requires subjects { All (λ i. i < length past.now.first) exprs.now }
    requires sound { All (λ i. AreIntervals (domain_at past.now.first i)) exprs.now }
    requires facts { AreFacts past.now facts.old.items }
    ensures { result ≡ Ok true → SupportsEach past.now supposed exprs.now ends.now facts.old.items facts.new.items }
{
    for (k, subject) in exprs.iter().enumerate() {
        if !support(past, supposed, *subject, ends[k], facts)? {
            return Ok(false);
        }
    }
    Ok(true)
}

/// Fills a list anew with facts that keep all values between bounds between which no values meet the demand. What is
/// supposed is no fact. Answers false if the bounds admit values that meet it, or one of them was not true.
pub(crate) fn justify(
    past: &Before,
    demand: &Demand,
    supposed: Option<Atom>,
    bounds: &Bounds,
    facts: &mut Vec<Atom>,
) -> Result<bool, AllocError>
    requires known { HasKnownSubjects past.now.first demand.now }
    requires sound { AreSoundFor past.now.first demand.now }
    ensures { result ≡ Ok true → RefutesDemand past.now demand.now supposed facts.new.items }
{
    facts.clear();
    if bounds.members.len() != demand.exprs.len() || !bounds.exclude(demand) {
        return Ok(false);
    }
    if !support(past, supposed, demand.target, bounds.target, facts)? {
        return Ok(false);
    }
    support_each(
        past,
        supposed,
        demand.exprs.as_slice(),
        bounds.members.as_slice(),
        facts,
    )
}
