//! Atoms that say when a span starts or ends.
ghost use Rattle.std.specs.Prelude.{◌≡◌, ◌≤ℤ◌, ◌-ℤ◌, IfSome};
ghost use Rattle.cps_trail.specs.Trail.{IsInside};
ghost use Rattle.cps_p_span.specs.Spans.{start_at, end_at, lead, SaysOfTimes, KeepsStartFrom, KeepsStartUpTo, KeepsEndUpTo};

use cps_instance::Span;
use cps_literal::{Atom, Op};

/// The greatest magnitude of a value that an atom may compare with.
const FARTHEST: i128 = 0x3fff_ffff_ffff_ffff;

/// The number, if an atom may compare with it.
fn inside(value: i128) -> Option<i64>
    ensures is { IfSome result (λ v. v ≡ value) }
    ensures none { result ≡ None → IsInside value → ⊥ }
{
    if value < -FARTHEST || FARTHEST < value {
        return None;
    }
    Some(value as i64)
}

/// That a span starts at a time or later.
pub fn start_from(span: &Span, time: i128) -> Option<Atom>
    ensures says { IfSome result (λ u. SaysOfTimes span.now u (λ xs. time ≤ℤ start_at xs span.now)) }
    ensures now { IfSome result (KeepsStartFrom span.now time) }
    ensures none { result ≡ None → IsInside time → ⊥ }
{
    let value = inside(time)?;
    Some(Atom {
        subject: span.start,
        op: Op::Ge,
        value,
    })
}

/// That a span starts at a time or earlier.
pub fn start_up_to(span: &Span, time: i128) -> Option<Atom>
    ensures says { IfSome result (λ u. SaysOfTimes span.now u (λ xs. start_at xs span.now ≤ℤ time)) }
    ensures now { IfSome result (KeepsStartUpTo span.now time) }
    ensures none { result ≡ None → IsInside time → ⊥ }
{
    let value = inside(time)?;
    Some(Atom {
        subject: span.start,
        op: Op::Le,
        value,
    })
}

/// That a span ends at a time or later.
pub fn end_from(span: &Span, time: i128) -> Option<Atom>
    ensures { IfSome result (λ u. SaysOfTimes span.now u (λ xs. time ≤ℤ end_at xs span.now)) }
{
    match span.length {
        Some(far) => start_from(span, time.checked_sub(far as i128)?),
        None => {
            let value = inside(time)?;
            Some(Atom {
                subject: span.end,
                op: Op::Ge,
                value,
            })
        }
    }
}

/// That a span ends at a time or earlier.
pub fn end_up_to(span: &Span, time: i128) -> Option<Atom>
    ensures says { IfSome result (λ u. SaysOfTimes span.now u (λ xs. end_at xs span.now ≤ℤ time)) }
    ensures now { IfSome result (KeepsEndUpTo span.now time) }
    ensures none { result ≡ None → IsInside (time -ℤ lead span.now.length) → ⊥ }
{
    match span.length {
        Some(far) => start_up_to(span, time.checked_sub(far as i128)?),
        None => {
            let value = inside(time)?;
            Some(Atom {
                subject: span.end,
                op: Op::Le,
                value,
            })
        }
    }
}
