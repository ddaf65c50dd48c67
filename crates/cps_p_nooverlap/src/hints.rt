//! Pushes and full windows as hints.
//!
//! The hint of a push has a number below 0 for the span, the rule and the direction of time, and by edge finding the end
//! of the window that the span is pushed past. The hint of a full window has its two ends.
ghost use Rattle.std.specs.Prelude.{◌≡◌, IfSome};

use crate::crowd::Crowd;
use crate::overload::Overload;
use crate::pushes::{Push, SetRule};
use cps_literal::Atom;
use cps_rule::{Hint, Narrowing};

/// How many pushes there are of a span: by each rule in both directions.
const PUSHES: i64 = 6;

/// An atom to be explained, the span that it speaks of, and the push that gives it.
#[derive(Clone, Copy)]
pub(crate) struct Question {
    pub(crate) place: usize,
    pub(crate) push: Push,
    pub(crate) is_reversed: bool,
    pub(crate) target: Atom,
}

/// The number of a crowd's rule, and the end of the window past which it pushes a span by edge finding.
fn numbers_of(crowd: &Crowd) -> (i64, i64) {
    match crowd {
        Crowd::Detectable(_) => (0, 0),
        Crowd::NotFirst(_) => (1, 0),
        Crowd::EdgeFinding(edge) => (2, edge.to),
    }
}

/// The rule of a number.
fn rule_of(number: i64) -> SetRule {
    match number {
        0 => SetRule::Detectable,
        1 => SetRule::NotFirst,
        _ => SetRule::EdgeFinding,
    }
}

/// The push of a crowd as a hint.
pub(crate) fn hint_of(crowd: &Crowd) -> Hint {
    let pushed = crowd.pushed();
    let place = i64::try_from(pushed.place).unwrap_or(-1);
    let direction = if pushed.is_reversed { 1 } else { 0 };
    let (rule, to) = numbers_of(crowd);
    let number = rule.wrapping_mul(2).wrapping_add(direction);
    Hint {
        a: place
            .wrapping_mul(PUSHES)
            .wrapping_add(number)
            .wrapping_add(1)
            .wrapping_neg(),
        b: to,
    }
}

/// The question of what gave a target, where a hint names a push.
pub(crate) fn question_of(wanted: Narrowing) -> Option<Question>
    ensures { IfSome result (λ question. question.target ≡ wanted.target) }
{
    let hint = wanted.hint;
    if hint.a >= 0 {
        return None;
    }
    let number = hint.a.wrapping_add(1).wrapping_neg();
    let place = usize::try_from(number / PUSHES).ok()?;
    let rest = number % PUSHES;
    Some(Question {
        place,
        push: Push {
            rule: rule_of(rest / 2),
            time: wanted.target.value,
            to: hint.b,
        },
        is_reversed: rest % 2 == 1,
        target: wanted.target,
    })
}

/// The window as a hint.
pub(crate) fn window_hint(overload: Overload) -> Hint {
    Hint {
        a: overload.from,
        b: overload.to,
    }
}
