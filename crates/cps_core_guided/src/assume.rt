//! Assumptions: that the subject of each term with a weight above 0 stays at its bound.

ghost use Rattle.std.specs.Prelude.{◌↔◌, ◌<◌, ◌≤◌, length, All, IfSome, IsNone, IsTrue};
ghost use Rattle.cps_trail.specs.Trail.{IsFalseNow, IsTrueNow};
ghost use Rattle.cps_branch.specs.Choice.{IsUndecided};
ghost use Rattle.cps_reform.specs.Marks.{assumed};
ghost use Rattle.cps_core_guided.specs.Assuming.{AreAssumed, IsFailed, IsFirstOpenTerm, NoTermFails};
ghost use Rattle.cps_core_guided.specs.Reforming.{most_sums};

use cps_reform::Held;
use cps_trail::Store;

/// The most sums that are defined for cores; after them no term is assumed any more: the model's assumptions are
/// decided first, and then the brancher chooses. With them there are at most 2^31 subjects.
const MOST_SUMS: u32 = 1 << 24;

/// Whether terms are still assumed: until `MOST_SUMS` sums are defined.
fn assumes_terms(sums: u32) -> bool
    ensures { IsTrue result ↔ (sums < most_sums) }
{
    sums < MOST_SUMS
}

/// Whether a term's assumption is true. No atom is made, since each decision asks each term.
fn stays(store: &Store, term: &Held) -> bool
    requires { term.now.subject < length store.now.first }
    ensures { IsTrue result ↔ IsTrueNow store.now (assumed term.now) }
{
    store.domain(term.subject).max() <= term.bound
}

/// Whether a term's assumption is false.
fn is_past(store: &Store, term: &Held) -> bool
    requires { term.now.subject < length store.now.first }
    ensures { IsTrue result ↔ IsFalseNow store.now (assumed term.now) }
{
    term.bound < store.domain(term.subject).min()
}

/// Whether a term has a weight above 0 and its assumption is false.
fn fails(store: &Store, term: &Held) -> bool
    requires { term.now.subject < length store.now.first }
    ensures { IsTrue result ↔ ((1 ≤ term.now.weight) × IsFalseNow store.now (assumed term.now)) }
{
    term.weight > 0 && is_past(store, term)
}

/// Whether a term has a weight above 0 and its assumption is undecided.
fn is_open(store: &Store, term: &Held) -> bool
    requires { term.now.subject < length store.now.first }
    ensures { IsTrue result ↔ ((1 ≤ term.now.weight) × IsUndecided store.now (assumed term.now)) }
{
    term.weight > 0 && !is_past(store, term) && !stays(store, term)
}

/// The place of the first term with a weight above 0 whose assumption is false.
fn first_failed(store: &Store, terms: &[Held]) -> Option<usize>
    requires { All (λ t. t.subject < length store.now.first) terms.now }
    ensures some { IfSome result (IsFailed store.now terms.now) }
    ensures none { IsNone result → NoTermFails store.now terms.now }
{
    for (place, term) in terms.iter().enumerate() {
        if fails(store, term) {
            return Some(place);
        }
    }
    None
}

/// The place of the first term with a weight above 0 whose assumption is undecided.
fn first_open(store: &Store, terms: &[Held]) -> Option<usize>
    requires { All (λ t. t.subject < length store.now.first) terms.now }
    ensures some { IfSome result (IsFirstOpenTerm store.now terms.now) }
    ensures none { IsNone result → NoTermFails store.now terms.now → AreAssumed store.now.first store.now.entries
        terms.now }
{
    for (place, term) in terms.iter().enumerate() {
        if is_open(store, term) {
            return Some(place);
        }
    }
    None
}

/// The place of the first term with a weight above 0 whose assumption is false, as long as terms are assumed. `sums`
/// were defined for cores.
pub(crate) fn failed_term(store: &Store, terms: &[Held], sums: u32) -> Option<usize>
    requires { All (λ t. t.subject < length store.now.first) terms.now }
    ensures some { IfSome result (λ place. (sums < most_sums) × IsFailed store.now terms.now place) }
    ensures none { IsNone result → sums < most_sums → NoTermFails store.now terms.now }
{
    if !assumes_terms(sums) {
        return None;
    }
    first_failed(store, terms)
}

/// The place of the first term with a weight above 0 whose assumption is undecided, as long as terms are assumed.
/// `sums` were defined for cores.
pub(crate) fn open_term(store: &Store, terms: &[Held], sums: u32) -> Option<usize>
    requires { All (λ t. t.subject < length store.now.first) terms.now }
    ensures some { IfSome result (λ place. (sums < most_sums) × IsFirstOpenTerm store.now terms.now place) }
    ensures none { IsNone result → sums < most_sums → NoTermFails store.now terms.now
        → AreAssumed store.now.first store.now.entries terms.now }
{
    if !assumes_terms(sums) {
        return None;
    }
    first_open(store, terms)
}
