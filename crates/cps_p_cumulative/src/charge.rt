//! Why a window of times is overloaded.
//!
//! What spans demand, summed over the times of a window, is at most the capacity times its width. One search for facts
//! serves conflicts and narrowings alike: it sums what spans surely use of the window until that passes the greatest
//! capacity, by facts that were true and one atom that is assumed. For a narrowing the assumed atom is the denial of
//! what was narrowed, so that a span that would run there if it were not pushed counts like any other, and the atoms of
//! its that the denial gives are no facts. A span counts for no more times than are needed, so its bounds are as loose
//! as may be. In the time table the window is one time; a span then counts where it surely runs.
ghost use Rattle.std.specs.Prelude.{[], ◌∷◌, ◌++◌, ◌≡◌, ◌<◌, ◌*ℤ◌, ◌-ℤ◌, ◌≤ℤ◌, ℤ, pos, unsigned_abs, true, IsTrue, All, length, IfSome, Ok, Some};
ghost use Rattle.cps_literal.specs.Truth.{atom_holds};
ghost use Rattle.cps_trail.specs.Trail.{IsInside};
ghost use Rattle.cps_instance.specs.Tasks.{HoldsBody, atom_subjects, subjects_of_span, span_subjects, subjects_of_body};
ghost use Rattle.cps_rule.specs.Rules.{AreFacts};
ghost use Rattle.cps_p_cumulative.specs.Running.{IsSpanOf, IsResourceOf, body_of, energy_of, energies};
ghost use Rattle.cps_p_cumulative.specs.Relying.{Relies, IsBound, IsLater, IsStay, IsClaim, IsActiveBetween, IsEnergyTaken};

use crate::resource::Resource;
use crate::segments::time_of;
use cps_instance::Span;
use cps_literal::{Atom, Op, Truth};
use cps_trail::Before;
use std::alloc::AllocError;

/// The greatest magnitude of a value that a subject may have.
const MOST: i64 = (1 << 62) - 1;

/// `width` times from `time` on, and an atom that is assumed.
#[derive(Clone, Copy)]
pub(crate) struct Case {
    pub(crate) time: i64,
    pub(crate) width: i64,
    pub(crate) assumed: Atom,
}

/// At how many of the times a span runs, as it starts by one time and ends after another.
#[derive(Clone, Copy)]
pub(crate) struct Stay {
    ticks: i64,
    latest: i64,
    after: i64,
}

/// What a span uses of the times: so much at each time of a stay.
#[derive(Clone, Copy)]
pub(crate) struct Claim {
    demand: i64,
    stay: Stay,
}

/// Whether a number is one that a subject may have.
pub(crate) fn is_inside(value: i64) -> bool
    ensures { IsTrue result → IsInside value }
{
    -MOST <= value && value <= MOST
}

/// That a subject is at most a number.
pub(crate) fn at_most(subject: u32, value: i64) -> Atom
    ensures { result ≡ record { subject = subject; op = Op.Le; value = value } }
{
    Atom {
        subject,
        op: Op::Le,
        value,
    }
}

/// That a subject is at least a number.
pub(crate) fn at_least(subject: u32, value: i64) -> Atom
    ensures { result ≡ record { subject = subject; op = Op.Ge; value = value } }
{
    Atom {
        subject,
        op: Op::Ge,
        value,
    }
}

/// Sees that an atom is true: the assumed one implies it, or it is added to the facts, unless each first value meets
/// it.
pub(crate) fn rely(
    past: &Before,
    case: Case,
    atom: Atom,
    facts: &mut Vec<Atom>,
) -> Result<bool, AllocError>
    requires subject { atom.subject < length past.now.first }
    requires facts { AreFacts past.now facts.old.items }
    ensures { result ≡ Ok true → Relies past.now case.assumed (atom.subject ∷ [])
        (λ xs. atom_holds xs atom ≡ true) facts.old.items facts.new.items }
{
    if case.assumed.implies(atom) {
        return Ok(true);
    }
    if !is_inside(atom.value) {
        return Ok(false);
    }
    match past.truth(atom) {
        Truth::Yes => {}
        _ => return Ok(false),
    }
    if !past.was_always(atom) {
        facts.push(atom)?;
    }
    Ok(true)
}

/// Sees that each of these atoms is true.
fn rely_all(
    past: &Before,
    case: Case,
    atoms: &[Atom],
    facts: &mut Vec<Atom>,
) -> Result<bool, AllocError>
    requires subjects { All (λ u. u.subject < length past.now.first) atoms.now }
    requires facts { AreFacts past.now facts.old.items }
    ensures { result ≡ Ok true → Relies past.now case.assumed (atom_subjects atoms.now)
        (λ xs. All (λ u. atom_holds xs u ≡ true) atoms.now) facts.old.items facts.new.items }
{
    for atom in atoms {
        if !rely(past, case, *atom, facts)? {
            return Ok(false);
        }
    }
    Ok(true)
}

/// That a subject is at least a number, where that is an atom.
fn bound(subject: u32, value: i128) -> Option<Atom>
    ensures { IfSome result (IsBound subject value) }
{
    if value < i128::from(-MOST) || i128::from(MOST) < value {
        return None;
    }
    Some(at_least(subject, value as i64))
}

/// That a span ends after a time, as an atom.
fn later(time: i64, span: &Span) -> Option<Atom>
    ensures { IfSome result (IsLater time span.now) }
{
    match span.length {
        Some(length) => bound(span.start, i128::from(time) + 1 - i128::from(length)),
        None => bound(span.end, i128::from(time) + 1),
    }
}

/// Sees that a span is present, starts by one time and ends after another.
fn rely_run(
    past: &Before,
    case: Case,
    span: &Span,
    stay: Stay,
    facts: &mut Vec<Atom>,
) -> Result<bool, AllocError>
    requires span { IsSpanOf past.now.first span.now }
    requires facts { AreFacts past.now facts.old.items }
    ensures { result ≡ Ok true → Relies past.now case.assumed (subjects_of_span span.now)
        (IsActiveBetween stay.latest stay.after span.now) facts.old.items facts.new.items }
{
    let Some(last) = later(stay.after, span) else {
        return Ok(false);
    };
    if !rely_all(past, case, span.presence.as_slice(), facts)? {
        return Ok(false);
    }
    rely_all(past, case, &[at_most(span.start, stay.latest), last], facts)
}

/// Whether an atom was true, or the assumed one implies it.
pub(crate) fn is_known(past: &Before, case: Case, atom: Atom) -> bool
    requires { atom.subject < length past.now.first }
{
    if case.assumed.implies(atom) {
        return true;
    }
    match past.truth(atom) {
        Truth::Yes => true,
        _ => false,
    }
}

/// Whether a span seems to be present.
fn seems_present(past: &Before, case: Case, span: &Span) -> bool
    requires { IsSpanOf past.now.first span.now }
{
    for atom in span.presence.as_slice() {
        if !is_known(past, case, *atom) {
            return false;
        }
    }
    true
}

/// What a subject seems to be at least.
fn least(past: &Before, case: Case, subject: u32) -> i64
    requires { subject < length past.now.first }
{
    let least = past.ends(subject).0;
    if case.assumed.subject != subject {
        return least;
    }
    match case.assumed.op {
        Op::Ge | Op::Eq => least.max(case.assumed.value),
        _ => least,
    }
}

/// What a subject seems to be at most.
fn greatest(past: &Before, case: Case, subject: u32) -> i64
    requires { subject < length past.now.first }
{
    let greatest = past.ends(subject).1;
    if case.assumed.subject != subject {
        return greatest;
    }
    match case.assumed.op {
        Op::Le | Op::Eq => greatest.min(case.assumed.value),
        _ => greatest,
    }
}

/// The least number that times a size reaches what is left; 0 where none does.
fn enough(left: i128, size: i64) -> i64 {
    let size = i128::from(size);
    match left.wrapping_add(size).wrapping_sub(1).checked_div(size) {
        Some(whole) => time_of(whole),
        None => 0,
    }
}

/// At how many times of the window a span seems to run, no more than are needed.
fn stay_of(past: &Before, case: Case, span: &Span, needed: i64) -> Stay
    requires { IsSpanOf past.now.first span.now }
{
    let start = i128::from(case.time);
    let stop = start.wrapping_add(i128::from(case.width));
    let latest = i128::from(greatest(past, case, span.start));
    let needed = i128::from(needed);
    let (ticks, latest, end) = match span.length {
        Some(length) => {
            let length = i128::from(length);
            let end = i128::from(least(past, case, span.start)).wrapping_add(length);
            let inside = end.wrapping_sub(start).min(stop.wrapping_sub(latest));
            let ticks = inside.min(length).min(i128::from(case.width)).min(needed);
            (ticks, stop.wrapping_sub(ticks), start.wrapping_add(ticks))
        }
        None => {
            let from = start.max(latest);
            let to = stop.min(i128::from(least(past, case, span.end)));
            let ticks = to.wrapping_sub(from).min(needed);
            (ticks, from, from.wrapping_add(ticks))
        }
    };
    Stay {
        ticks: time_of(ticks),
        latest: time_of(latest),
        after: time_of(end.wrapping_sub(1)),
    }
}

/// Whether a span runs for `ticks` times of the window if it starts and ends as `stay` says.
fn is_stay(case: Case, span: &Span, stay: Stay) -> bool
    ensures { IsTrue result → IsStay case.time case.width span.now.length stay }
{
    let ticks = i128::from(stay.ticks);
    let start = i128::from(case.time);
    let end = i128::from(stay.after) + 1;
    if stay.ticks < 0 || case.width < stay.ticks || end < start + ticks {
        return false;
    }
    let latest = i128::from(stay.latest);
    if start + i128::from(case.width) < latest + ticks {
        return false;
    }
    match span.length {
        Some(length) => stay.ticks <= length,
        None => latest + ticks <= end,
    }
}

/// A span, and its demand.
#[derive(Clone, Copy)]
struct Load<'a> {
    span: &'a Span,
    demand: u32,
}

/// What a span seems to use of the window, as far as it is needed.
fn claim_of(past: &Before, case: Case, load: &Load, left: i128) -> Option<Claim>
    requires span { IsSpanOf past.now.first load.now.span.now }
    requires demand { load.now.demand < length past.now.first }
    ensures { IfSome result (IsClaim case.time case.width load.now.span.now.length) }
{
    let span = load.span;
    let demand = load.demand;
    let size = least(past, case, demand);
    if left <= 0 || size <= 0 || !seems_present(past, case, span) {
        return None;
    }
    let stay = stay_of(past, case, span, enough(left, size));
    if stay.ticks <= 0 || !is_stay(case, span, stay) {
        return None;
    }
    let demand = size.min(enough(left, stay.ticks));
    if demand < 0 {
        return None;
    }
    Some(Claim { demand, stay })
}

/// The energy of a demand over a number of times.
fn energy(demand: i64, ticks: i64) -> i128
    ensures { result ≡ ticks *ℤ demand }
{
    i128::from(ticks) * i128::from(demand)
}

/// What is left where so much is taken, or all.
fn rest_of(left: i128, taken: i128) -> i128
    requires left { pos 0 ≤ℤ left }
    requires taken { pos 0 ≤ℤ taken }
    ensures low { pos 0 ≤ℤ result }
    ensures high { result ≤ℤ left }
    ensures taken { (left -ℤ result) ≤ℤ taken }
{
    if left <= taken { 0 } else { left - taken }
}

/// Sees that a span uses what is claimed of it.
fn rely_claim(
    past: &Before,
    case: Case,
    load: &Load,
    claim: Claim,
    facts: &mut Vec<Atom>,
) -> Result<bool, AllocError>
    requires span { IsSpanOf past.now.first load.now.span.now }
    requires demand { load.now.demand < length past.now.first }
    requires claim { IsClaim case.time case.width load.now.span.now.length claim }
    requires facts { AreFacts past.now facts.old.items }
    ensures { result ≡ Ok true → Relies past.now case.assumed (load.now.demand ∷ subjects_of_span load.now.span.now)
        (λ xs. (claim.stay.ticks *ℤ claim.demand) ≤ℤ energy_of xs case.time
        (unsigned_abs case.width) load.now.span.now load.now.demand) facts.old.items facts.new.items }
{
    if !rely_run(past, case, load.span, claim.stay, facts)? {
        return Ok(false);
    }
    rely(past, case, at_least(load.demand, claim.demand), facts)
}

/// Lets one span take from the energy that is `left` to show. None where it may demand less than 0.
fn charge_one(
    past: &Before,
    case: Case,
    load: &Load,
    left: i128,
    facts: &mut Vec<Atom>,
) -> Result<Option<i128>, AllocError>
    requires span { IsSpanOf past.now.first load.now.span.now }
    requires demand { load.now.demand < length past.now.first }
    requires left { pos 0 ≤ℤ left }
    requires facts { AreFacts past.now facts.old.items }
    ensures falls { (after : ℤ) → result ≡ Ok (Some after) → (pos 0 ≤ℤ after) × (after ≤ℤ left) }
    ensures charged { (after : ℤ) → result ≡ Ok (Some after)
        → Relies past.now case.assumed (load.now.demand ∷ subjects_of_span load.now.span.now)
        (IsEnergyTaken case.time case.width load.now.span.now load.now.demand left after) facts.old.items facts.new.items }
{
    let Some(claim) = claim_of(past, case, load, left) else {
        if rely(past, case, at_least(load.demand, 0), facts)? {
            return Ok(Some(left));
        }
        return Ok(None);
    };
    if !rely_claim(past, case, load, claim, facts)? {
        return Ok(None);
    }
    Ok(Some(rest_of(left, energy(claim.demand, claim.stay.ticks))))
}

/// Sees that the spans use so much of the window.
fn charge_all(
    past: &Before,
    case: Case,
    resource: &Resource,
    need: i128,
    facts: &mut Vec<Atom>,
) -> Result<bool, AllocError>
    requires resource { IsResourceOf past.now.first resource.now }
    requires need { pos 0 ≤ℤ need }
    requires facts { AreFacts past.now facts.old.items }
    ensures { result ≡ Ok true → Relies past.now case.assumed (span_subjects resource.now.spans ++ resource.now.demands)
        (λ xs. need ≤ℤ energies xs case.time
        (unsigned_abs case.width) resource.now.spans resource.now.demands) facts.old.items facts.new.items }
{
    let spans = resource.spans.as_slice();
    let demands = resource.demands.as_slice();
    let count = spans.len().min(demands.len());
    let mut left = need;
    for k in 0..count {
        let load = Load {
            span: &spans[k],
            demand: demands[k],
        };
        match charge_one(past, case, &load, left, facts)? {
            Some(after) => left = after,
            None => return Ok(false),
        }
    }
    if left > 0 {
        return Ok(false);
    }
    Ok(true)
}

/// Adds facts by which, with the assumed atom, the window is overloaded. Returns false if it finds none.
pub(crate) fn charge(
    past: &Before,
    case: Case,
    resource: &Resource,
    facts: &mut Vec<Atom>,
) -> Result<bool, AllocError>
    requires resource { IsResourceOf past.now.first resource.now }
    requires facts { AreFacts past.now facts.old.items }
    ensures { result ≡ Ok true → Relies past.now case.assumed (subjects_of_body (body_of resource.now))
        (λ xs. HoldsBody (body_of resource.now) xs → ⊥) facts.old.items facts.new.items }
{
    let most = greatest(past, case, resource.capacity);
    if !rely(past, case, at_most(resource.capacity, most), facts)? {
        return Ok(false);
    }
    if most < 0 {
        return Ok(true);
    }
    if case.width < 0 {
        return Ok(false);
    }
    charge_all(past, case, resource, energy(most, case.width) + 1, facts)
}
