//! What full intervals give of the other positions.
ghost use Rattle.std.specs.Prelude.{◌<◌, length, All, OnOk, IfSome};
ghost use Rattle.cps_p_alldiff.specs.Intervals.{IsInRange, IsFull, AreEnclosed};
ghost use Rattle.cps_p_alldiff.specs.Bars.{IsBar, AreGivenBars};

use crate::interval::{Interval, covers, is_full};
use crate::settled::Settled;
use cps_literal::{Atom, Op};
use cps_rule::{Hint, Narrowing};
use cps_trail::Store;
use std::alloc::AllocError;

/// The atom that keeps a subject with these ends out of an interval: past it if an end lies in it, off its number if it
/// has only one; `None` if the subject has no such value.
fn bar_of(store: &Store, subject: u32, ends: &Interval, hall: &Interval) -> Option<Atom>
    requires subject { subject < length store.now.first }
    requires range { IsInRange hall.now }
    ensures { IfSome result (IsBar subject ends.now hall.now) }
{
    if hall.low <= ends.low && ends.low <= hall.high {
        return Some(Atom {
            subject,
            op: Op::Ge,
            value: hall.high + 1,
        });
    }
    if hall.low <= ends.high && ends.high <= hall.high {
        return Some(Atom {
            subject,
            op: Op::Le,
            value: hall.low - 1,
        });
    }
    if hall.low == hall.high && store.domain(subject).contains(hall.low) {
        return Some(Atom {
            subject,
            op: Op::Ne,
            value: hall.low,
        });
    }
    None
}

/// Adds what keeps each position out of a full interval that does not fill it.
fn keep_out(
    store: &Store,
    subjects: &[u32],
    ends: &[Interval],
    hall: &Interval,
    found: &mut Vec<Narrowing>,
) -> Result<(), AllocError>
    requires subjects { All (λ i. i < length store.now.first) subjects.now }
    requires bounded { AreEnclosed store.now subjects.now ends.now }
    requires full { IsFull ends.now hall.now }
    requires given { AreGivenBars store.now subjects.now found.old.items }
    ensures { OnOk result (AreGivenBars store.now subjects.now found.new.items) }
{
    let hint = Hint {
        a: hall.low,
        b: hall.high,
    };
    for (place, each) in ends.iter().enumerate() {
        if !covers(hall, each) {
            match bar_of(store, subjects[place], each, hall) {
                Some(target) => found.push(Narrowing { target, hint })?,
                None => {}
            }
        }
    }
    Ok(())
}

/// Adds what keeps all other positions out of each of these intervals that is full.
fn clear_all(
    store: &Store,
    subjects: &[u32],
    ends: &[Interval],
    halls: &[Interval],
    found: &mut Vec<Narrowing>,
) -> Result<(), AllocError>
    requires subjects { All (λ i. i < length store.now.first) subjects.now }
    requires bounded { AreEnclosed store.now subjects.now ends.now }
    requires given { AreGivenBars store.now subjects.now found.old.items }
    ensures { OnOk result (AreGivenBars store.now subjects.now found.new.items) }
{
    for hall in halls {
        if is_full(hall, ends) {
            keep_out(store, subjects, ends, hall, found)?;
        }
    }
    Ok(())
}

/// The same, and forgets the intervals where they give nothing: until an end moves they give nothing.
pub(crate) fn clear_halls(
    store: &Store,
    subjects: &[u32],
    ends: &[Interval],
    halls: &mut Vec<Interval>,
    found: &mut Vec<Narrowing>,
) -> Result<(), AllocError>
    requires subjects { All (λ i. i < length store.now.first) subjects.now }
    requires bounded { AreEnclosed store.now subjects.now ends.now }
    requires given { AreGivenBars store.now subjects.now found.old.items }
    ensures { OnOk result (AreGivenBars store.now subjects.now found.new.items) }
{
    let before = found.len();
    clear_all(store, subjects, ends, halls.as_slice(), found)?;
    if found.len() == before {
        halls.clear();
    }
    Ok(())
}

/// Adds what keeps all other positions off the value of each that is fixed, unless that was seen to be done.
pub(crate) fn clear_fixed(
    store: &Store,
    subjects: &[u32],
    ends: &[Interval],
    settled: &mut Settled,
    found: &mut Vec<Narrowing>,
) -> Result<(), AllocError>
    requires subjects { All (λ i. i < length store.now.first) subjects.now }
    requires bounded { AreEnclosed store.now subjects.now ends.now }
    requires given { AreGivenBars store.now subjects.now found.old.items }
    ensures { OnOk result (AreGivenBars store.now subjects.now found.new.items) }
{
    for (place, each) in ends.iter().enumerate() {
        if each.low == each.high && !settled.has(place) && is_full(each, ends) {
            let before = found.len();
            keep_out(store, subjects, ends, each, found)?;
            if found.len() == before {
                settled.add(place)?;
            }
        }
    }
    Ok(())
}
