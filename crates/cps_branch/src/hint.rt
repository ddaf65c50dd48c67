//! Values to try first.
ghost use Rattle.std.specs.Prelude.{ℕ, ◌≡◌, ◌↔◌, ◌==◌, ◌<◌, None, if◌then◌else◌, length, slice_index_or, IfOk, IsTrue};
ghost use Rattle.cps_model.specs.Values.{variable_of};
ghost use Rattle.cps_branch.specs.Fixed.{IsFixed};
ghost use Rattle.cps_branch.specs.Choice.{IsUndecided};
ghost use Rattle.cps_branch.specs.Strategies.{Admits};
ghost use Rattle.cps_branch.specs.Hints.{hinted_value, hinted_in, hint_for, TakesHinted};

use crate::scan::take_least;
use cps_domain::DOMAIN_LIMIT;
use cps_literal::{Atom, Op};
use cps_model::{Hint, variable_of};
use cps_trail::Store;
use std::alloc::{AllocError, Global};

/// The value that a reference with a value gives its variable: the opposite if the reference is below 0. `None` if no
/// domain can have it.
fn hinted_value(reference: i32, value: i64) -> Option<i64>
    ensures { result ≡ hinted_value reference value }
{
    if value.unsigned_abs() > DOMAIN_LIMIT.unsigned_abs() {
        return None;
    }
    if reference >= 0 {
        Some(value)
    } else {
        Some(-value)
    }
}

/// Notes the value that a reference gives its variable, if that is one of those noted.
fn note_one(hints: &mut [Option<i64>], reference: i32, value: i64)
    ensures { (i : ℕ) → i < length hints.old
        → slice_index_or hints.new i None
        ≡ (if variable_of reference == i then hinted_value reference value else slice_index_or hints.old i None) }
{
    let variable = variable_of(reference);
    if variable < hints.len() {
        hints[variable] = hinted_value(reference, value);
    }
}

/// Notes the values that references give their variables, from the last to the first, so that the first reference to a
/// variable counts.
fn note_all(hints: &mut [Option<i64>], vars: &[i32], values: &[i64])
    requires { (i : ℕ) → i < length hints.old → slice_index_or hints.old i None ≡ None }
    ensures { (i : ℕ) → i < length hints.old → slice_index_or hints.new i None ≡ hinted_in vars.now values.now i }
{
    let mut place = vars.len().min(values.len());
    while place > 0 {
        place -= 1;
        note_one(hints, vars[place], values[place]);
    }
}

/// For each of `count` variables the value to try first, if there is one.
pub(crate) fn hints_of(
    alloc: Global,
    hint: &Option<Hint>,
    count: usize,
) -> Result<Vec<Option<i64>>, AllocError>
    ensures count { IfOk result (λ hints. length hints.items ≡ count) }
    ensures values { IfOk result (λ hints. (i : ℕ) → i < count
        → slice_index_or hints.items i None ≡ hint_for hint.now i) }
{
    let mut hints = vec![in alloc; None; count]?;
    if let Some(hint) = hint {
        note_all(&mut hints, hint.vars.as_slice(), hint.values.as_slice());
    }
    Ok(hints)
}

/// Whether a subject may have a value.
fn may_have(store: &Store, subject: u32, value: i64) -> bool
    requires { subject < length store.now.first }
    ensures { IsTrue result ↔ Admits store.now subject value }
{
    store.domain(subject).contains(value)
}

/// The atom that gives a subject the value to try first, if it may have it, and else its least.
pub(crate) fn at_hint(store: &Store, subject: u32, hint: Option<i64>) -> Atom
    requires subject { subject < length store.now.first }
    requires open_now { IsFixed store.now subject → ⊥ }
    ensures subject { result.subject ≡ subject }
    ensures takes { TakesHinted hint store.now result }
    ensures undecided { IsUndecided store.now result }
{
    match hint {
        Some(value) => {
            if may_have(store, subject, value) {
                Atom {
                    subject,
                    op: Op::Eq,
                    value,
                }
            } else {
                take_least(store, subject)
            }
        }
        None => take_least(store, subject),
    }
}
