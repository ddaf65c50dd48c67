//! What sets of spans give: windows that hold too much, and spans that others push.
//!
//! The rules are tried from the cheapest on, each in both directions of time, and the next only where those before it
//! give nothing. `desk` finds what crowds may give, `set_reasons` says why, and `hints` keeps what a reason asks for.
ghost use Rattle.std.specs.Prelude.{[], ◌≡◌, true, length, OnOk, IfOk, IfSome};
ghost use Rattle.cps_instance.specs.declared.task.Body.{Body as BodyOf};
ghost use Rattle.cps_instance.specs.Parts.{span_runs};
ghost use Rattle.cps_literal.specs.Truth.{atom_holds};
ghost use Rattle.cps_model.specs.Scheduling.{IsNoOverlap};
ghost use Rattle.cps_rule.specs.Rules.{IsImpossible};
ghost use Rattle.cps_instance.specs.Tasks.{span_subjects};
ghost use Rattle.cps_p_span.specs.Citing.{AreTrueNow, Cites, GivesMore};
ghost use Rattle.cps_p_nooverlap.specs.Crowds.{IsReasoned};
ghost use Rattle.cps_p_span.specs.Spans.{AreSeen, AreSpans, AreAllowed, ArePairsSettled, IsPair};

use crate::desk::Desk;
use crate::hints::{Question, hint_of, question_of, window_hint};
use crate::overload::Overload;
use crate::pushes::SetRule;
use crate::set_reasons::{give, refute_anew};
use cps_instance::Span;
use cps_literal::Atom;
use cps_p_span::{Pair, Seen, explain_pair, meet_all, pair_of, propose, refute_pair, same_atom};
use cps_rule::{Hint, Narrowing};
use cps_trail::{Before, Store};
use std::alloc::{AllocError, Global};

/// The rules, from the cheapest on.
const RULES: [SetRule; 3] = [SetRule::Detectable, SetRule::NotFirst, SetRule::EdgeFinding];

/// Adds what the crowd gives that makes a push of the desk's last survey, if there is one.
fn push_next(
    past: &Before,
    spans: &[Span],
    desk: &mut Desk,
    turn: usize,
    found: &mut Vec<Narrowing>,
) -> Result<(), AllocError>
    requires { AreSpans past.now.first spans.now }
    ensures { OnOk result (GivesMore (BodyOf.NoOverlap spans.now) past.now found.old.items found.new.items) }
{
    match desk.next_crowd(turn, spans.len())? {
        Some(crowd) => {
            let target = give(past, spans, desk, crowd)?;
            propose(target, hint_of(&crowd), found)?;
            Ok(())
        }
        None => Ok(()),
    }
}

/// Adds what crowds give by a rule in one direction of time.
fn push_all(
    past: &Before,
    spans: &[Span],
    desk: &mut Desk,
    rule: SetRule,
    found: &mut Vec<Narrowing>,
) -> Result<(), AllocError>
    requires { AreSpans past.now.first spans.now }
    ensures { OnOk result (GivesMore (BodyOf.NoOverlap spans.now) past.now found.old.items found.new.items) }
{
    desk.survey(rule)?;
    let pushes = desk.pushes.len();
    for turn in 0..pushes {
        push_next(past, spans, desk, turn, found)?;
    }
    Ok(())
}

/// Adds what crowds give by a rule, in both directions of time.
fn push_both(
    past: &Before,
    spans: &[Span],
    desk: &mut Desk,
    rule: SetRule,
    found: &mut Vec<Narrowing>,
) -> Result<(), AllocError>
    requires { AreSpans past.now.first spans.now }
    ensures { OnOk result (GivesMore (BodyOf.NoOverlap spans.now) past.now found.old.items found.new.items) }
{
    push_all(past, spans, desk, rule, found)?;
    desk.reverse();
    push_all(past, spans, desk, rule, found)?;
    desk.reverse();
    Ok(())
}

/// An overloaded window, if one is found.
fn overload(past: &Before, spans: &[Span], desk: &mut Desk) -> Result<Option<Overload>, AllocError>
    requires { AreSpans past.now.first spans.now }
    ensures { IfOk result (λ answer. IfSome answer (λ window. IsImpossible (BodyOf.NoOverlap spans.now) past.now)) }
{
    match desk.find_window()? {
        Some(window) => {
            let loose = desk.mark_window(window, spans.len())?;
            let weights = desk.marks.whole.as_slice();
            if refute_anew(past, spans, weights, loose, &mut desk.facts)? {
                return Ok(Some(window));
            }
            Ok(None)
        }
        None => Ok(None),
    }
}

/// Adds what crowds give of each job by the first rule that gives something.
fn push_first(
    past: &Before,
    spans: &[Span],
    desk: &mut Desk,
    found: &mut Vec<Narrowing>,
) -> Result<(), AllocError>
    requires { AreSpans past.now.first spans.now }
    ensures { OnOk result (GivesMore (BodyOf.NoOverlap spans.now) past.now found.old.items found.new.items) }
{
    let known = found.len();
    for rule in RULES {
        if found.len() != known {
            return Ok(());
        }
        push_both(past, spans, desk, rule, found)?;
    }
    Ok(())
}

/// Adds what crowds imply of each job, or finds an overloaded window.
fn meet_sets(
    past: &Before,
    spans: &[Span],
    desk: &mut Desk,
    found: &mut Vec<Narrowing>,
) -> Result<Option<Hint>, AllocError>
    requires { AreSpans past.now.first spans.now }
    ensures given { OnOk result (GivesMore (BodyOf.NoOverlap spans.now) past.now found.old.items found.new.items) }
    ensures impossible { IfOk result
        (λ answer. IfSome answer (λ hint. IsImpossible (BodyOf.NoOverlap spans.now) past.now)) }
{
    desk.begin(past, spans)?;
    if let Some(window) = overload(past, spans, desk)? {
        return Ok(Some(window_hint(window)));
    }
    desk.prepare()?;
    push_first(past, spans, desk, found)?;
    Ok(None)
}

/// Adds what each two spans give, and where that is nothing, what sets of them give, or finds why there is no way.
pub(crate) fn meet_both(
    store: &Store,
    spans: &[Span],
    seen: &[Seen],
    desk: &mut Desk,
    found: &mut Vec<Narrowing>,
) -> Result<Option<Hint>, AllocError>
    requires { AreSeen store.now spans.now seen.now }
    ensures given { OnOk result (GivesMore (BodyOf.NoOverlap spans.now) store.now found.old.items found.new.items) }
    ensures impossible { IfOk result
        (λ answer. IfSome answer (λ hint. IsImpossible (BodyOf.NoOverlap spans.now) store.now)) }
    ensures allowed { result ≡ Ok None → AreAllowed seen.now (length spans.now) }
    ensures rest { result ≡ Ok None → AreTrueNow store.now found.new.items
        → ArePairsSettled store.now spans.now seen.now (length spans.now) }
{
    if let Some(pair) = meet_all(spans, seen, found)? {
        return Ok(Some(pair.hint()));
    }
    if !found.is_empty() {
        return Ok(None);
    }
    let past = store.present();
    let hint = meet_sets(&past, spans, desk, found)?;
    Ok(hint)
}

/// Replaces `facts` by those by which a window is overloaded.
fn refute_set(
    past: &Before,
    spans: &[Span],
    desk: &mut Desk,
    hint: Hint,
    facts: &mut Vec<Atom>,
) -> Result<bool, AllocError>
    requires { AreSpans past.now.first spans.now }
    ensures { result ≡ Ok true → Cites past.now (span_subjects spans.now) [] facts.new.items (λ xs. IsNoOverlap (span_runs xs spans.now) → ⊥) }
{
    desk.begin(past, spans)?;
    let window = Overload {
        from: hint.a,
        to: hint.b,
    };
    let loose = desk.mark_window(window, spans.len())?;
    refute_anew(past, spans, desk.marks.whole.as_slice(), loose, facts)
}

/// Replaces the desk's facts by those by which a crowd implies a target.
fn explain_at(
    past: &Before,
    spans: &[Span],
    desk: &mut Desk,
    question: Question,
) -> Result<bool, AllocError>
    requires { AreSpans past.now.first spans.now }
    ensures { result ≡ Ok true → IsReasoned past.now spans.now desk.new.facts.items question.target }
{
    desk.begin(past, spans)?;
    if question.place >= spans.len() {
        return Ok(false);
    }
    match desk.ask_crowd(question, &spans[question.place], spans.len())? {
        Some(crowd) => match give(past, spans, desk, crowd)? {
            Some(atom) => {
                if !same_atom(atom, question.target) {
                    return Ok(false);
                }
                Ok(true)
            }
            None => Ok(false),
        },
        None => Ok(false),
    }
}

/// The same, in the place of what a list holds.
fn explain_set(
    past: &Before,
    spans: &[Span],
    desk: &mut Desk,
    question: Question,
    facts: &mut Vec<Atom>,
) -> Result<bool, AllocError>
    requires { AreSpans past.now.first spans.now }
    ensures { result ≡ Ok true → Cites past.now (span_subjects spans.now) [] facts.new.items
        (λ xs. IsNoOverlap (span_runs xs spans.now) → atom_holds xs question.target ≡ true) }
{
    if !explain_at(past, spans, desk, question)? {
        return Ok(false);
    }
    facts.clear();
    facts.extend_from_slice(desk.facts.as_slice())?;
    Ok(true)
}

/// Replaces `facts` by those by which two spans or a set of them imply a target.
pub(crate) fn explain_both(
    alloc: Global,
    past: &Before,
    spans: &[Span],
    wanted: Narrowing,
    facts: &mut Vec<Atom>,
) -> Result<bool, AllocError>
    requires { AreSpans past.now.first spans.now }
    ensures { result ≡ Ok true → Cites past.now (span_subjects spans.now) [] facts.new.items
        (λ xs. IsNoOverlap (span_runs xs spans.now) → atom_holds xs wanted.target ≡ true) }
{
    if let Some(pair) = pair_of(wanted.hint, spans.len()) {
        return explain_pair(past, spans, pair, wanted.target, facts);
    }
    match question_of(wanted) {
        Some(question) => {
            let mut desk = Desk::new(alloc);
            explain_set(past, spans, &mut desk, question, facts)
        }
        None => Ok(false),
    }
}

/// Replaces `facts` by those by which two spans must overlap.
fn refute_two(
    past: &Before,
    spans: &[Span],
    pair: Pair,
    facts: &mut Vec<Atom>,
) -> Result<bool, AllocError>
    requires spans { AreSpans past.now.first spans.now }
    requires pair { IsPair (length spans.now) pair }
    ensures { result ≡ Ok true → Cites past.now (span_subjects spans.now) [] facts.new.items (λ xs. IsNoOverlap (span_runs xs spans.now) → ⊥) }
{
    facts.clear();
    refute_pair(past, spans, pair, facts)
}

/// Replaces `facts` by those by which two spans must overlap, or two of a set.
pub(crate) fn refute_both(
    alloc: Global,
    past: &Before,
    spans: &[Span],
    hint: Hint,
    facts: &mut Vec<Atom>,
) -> Result<bool, AllocError>
    requires { AreSpans past.now.first spans.now }
    ensures { result ≡ Ok true → Cites past.now (span_subjects spans.now) [] facts.new.items (λ xs. IsNoOverlap (span_runs xs spans.now) → ⊥) }
{
    if let Some(pair) = pair_of(hint, spans.len()) {
        if refute_two(past, spans, pair, facts)? {
            return Ok(true);
        }
    }
    let mut desk = Desk::new(alloc);
    refute_set(past, spans, &mut desk, hint, facts)
}
