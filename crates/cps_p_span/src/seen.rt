//! What a store leaves to spans.
ghost use Rattle.std.specs.Prelude.{◌<◌, ◌≤◌, ℕ, length, IsTrue, ◌↔◌, OnOk, All, slice_index_or};
ghost use Rattle.std.specs.List.{AllZip};
ghost use Rattle.cps_literal.specs.declared.atom.Atom.{Atom as AtomOf};
ghost use Rattle.cps_trail.specs.Trail.{IsTrueNow};
ghost use Rattle.cps_p_span.specs.Spans.{IsSpan, AreSpans, AreTimes, IsPresence, IsSpanSeen};

use crate::hull::hull_of;
use cps_instance::Span;
use cps_literal::Atom;
use cps_trail::Store;
use std::alloc::AllocError;

/// Between which times a span starts and ends.
#[derive(Clone, Copy)]
pub struct Times {
    pub start_low: i128,
    pub start_high: i128,
    pub end_low: i128,
    pub end_high: i128,
}

/// Whether a span is surely present. Where one of its atoms is open and all others are true, `last` is that atom's
/// place, and else it is the number of atoms.
#[derive(Clone, Copy)]
pub struct Presence {
    pub sure: bool,
    pub last: usize,
}

/// What a store leaves to a span.
#[derive(Clone, Copy)]
pub struct Seen {
    pub times: Times,
    pub presence: Presence,
}

/// Between which times a span starts and ends now.
fn times_of(store: &Store, span: &Span) -> Times
    requires { IsSpan store.now.first span.now }
    ensures { AreTimes store.now span.now result }
{
    let start = hull_of(store, span.start);
    match span.length {
        Some(far) => Times {
            start_low: start.low as i128,
            start_high: start.high as i128,
            end_low: start.low as i128 + far as i128,
            end_high: start.high as i128 + far as i128,
        },
        None => {
            let end = hull_of(store, span.end);
            Times {
                start_low: start.low as i128,
                start_high: start.high as i128,
                end_low: end.low as i128,
                end_high: end.high as i128,
            }
        }
    }
}

/// Whether an atom is true.
fn is_true(store: &Store, atom: Atom) -> bool
    requires { atom.subject < length store.now.first }
    ensures { IsTrue result ↔ IsTrueNow store.now atom }
{
    store.truth(atom).is_yes()
}

/// The first place from `from` on whose atom is not true; the list's length where there is none.
fn first_untrue(store: &Store, atoms: &[Atom], from: usize) -> usize
    requires from { from ≤ length atoms.now }
    requires subjects { All (λ u. u.subject < length store.now.first) atoms.now }
    ensures begins { from ≤ result }
    ensures within { result ≤ length atoms.now }
    ensures passed { (k : ℕ) (d : AtomOf) → from ≤ k → k < result → IsTrueNow store.now (slice_index_or atoms.now k d) }
    ensures found { (d : AtomOf) → result < length atoms.now → IsTrueNow store.now (slice_index_or atoms.now result d)
        → ⊥ }
{
    for i in from..atoms.len() {
        if !is_true(store, atoms[i]) {
            return i;
        }
    }
    atoms.len()
}

/// Whether these atoms are all true now, or all but one, which is open.
fn presence_of(store: &Store, atoms: &[Atom]) -> Presence
    requires { All (λ u. u.subject < length store.now.first) atoms.now }
    ensures { IsPresence store.now atoms.now result }
{
    let none = atoms.len();
    let open = first_untrue(store, atoms, 0);
    if open == none {
        return Presence {
            sure: true,
            last: none,
        };
    }
    let is_open = store.truth(atoms[open]).is_open();
    if is_open && first_untrue(store, atoms, open + 1) == none {
        return Presence {
            sure: false,
            last: open,
        };
    }
    Presence {
        sure: false,
        last: none,
    }
}

/// What a store leaves to a span.
fn seen_of(store: &Store, span: &Span) -> Seen
    requires { IsSpan store.now.first span.now }
    ensures { IsSpanSeen store.now span.now result }
{
    Seen {
        times: times_of(store, span),
        presence: presence_of(store, span.presence.as_slice()),
    }
}

/// What a store leaves to each span.
pub fn see(store: &Store, spans: &[Span], seen: &mut Vec<Seen>) -> Result<(), AllocError>
    requires { AreSpans store.now.first spans.now }
    ensures { OnOk result (AllZip (IsSpanSeen store.now) spans.now seen.new.items) }
{
    seen.clear();
    for span in spans {
        seen.push(seen_of(store, span))?;
    }
    Ok(())
}
