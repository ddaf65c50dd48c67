//! The rule of all-different.
//!
//! A look measures the ends of all subjects and asks whether an interval is crowded (`judge`). Where none is, the
//! values of fixed positions leave the others, and then those of full intervals (`bars`). A hint is the ends of an
//! interval, so an explanation counts again, in the domains as they were: for a narrowing as many positions as the
//! interval has numbers, apart from the narrowed one; for a conflict one more.
ghost use Rattle.std.specs.Prelude.{◌≡◌, IfOk, IfSome, IsTrue, Contains};
ghost use Rattle.cps_p_alldiff.specs.Intervals.{AreEnds};

use crate::bars::{clear_fixed, clear_halls};
use crate::facts::{Crowd, add_near, hold};
use crate::find::Finder;
use crate::interval::{Interval, are_ends, measure, numbers};
use crate::judge::judge;
use crate::settled::Settled;
use cps_enforce::Enforced;
use cps_instance::{Body, Task};
use cps_literal::Atom;
use cps_rule::{Hint, Look, Narrowing, Rule};
use cps_trail::{Before, Store};
use std::alloc::{AllocError, Global};
use std::marker::Model;

/// The rule of a body `AllDiff`. Contracts see the body. A hint is the ends of a full or of a crowded interval.
pub struct AllDifferent {
    subjects: Vec<u32>,
    ends: Vec<Interval>,
    finder: Finder,
    settled: Settled,
}

// Written out, so that crates above do not prove it anew.
impl Drop for AllDifferent {
    fn drop(self) {
        let AllDifferent {
            subjects: _subjects,
            ends: _ends,
            finder: _finder,
            settled: _settled,
        } = self;
    }
}

impl Model for AllDifferent {
    ghost use Rattle.cps_instance.specs.declared.task.Body.{Body};
    ghost use Rattle.cps_instance.specs.declared.task.Body.TheVariants.{AllDiff};

    ghost Value = { Body };

    ghost view = { λ r. AllDiff r.subjects.items };
}

/// Whether a subject is among these.
fn is_among(subjects: &[u32], subject: u32) -> bool
    ensures { IsTrue result → Contains subjects.now subject }
{
    subjects.contains(&subject)
}

/// The interval of a hint, if it is one.
fn hall_of(hint: Hint) -> Option<Interval>
    ensures { IfSome result AreEnds }
{
    let hall = Interval {
        low: hint.a,
        high: hint.b,
    };
    if are_ends(&hall) { Some(hall) } else { None }
}

impl AllDifferent {
    ghost use Rattle.cps_instance.specs.declared.task.Body.TheVariants.{AllDiff};
    ghost use Rattle.cps_p_alldiff.specs.Bars.{is_all_diff};

    /// The rule that these subjects have different values.
    pub fn over(alloc: Global, subjects: &[u32]) -> Result<Self, AllocError>
        ensures { IfOk result (λ rule. rule ≡ AllDiff subjects.now) }
    {
        Ok(AllDifferent {
            subjects: Vec::from_slice(alloc, subjects)?,
            ends: Vec::new(alloc),
            finder: Finder::new(alloc),
            settled: Settled::new(alloc),
        })
    }

    /// The rule of a body that is `AllDiff`.
    pub fn new(alloc: Global, body: &Body) -> Result<Self, AllocError>
        requires { IsTrue (is_all_diff body.now) }
        ensures { IfOk result (λ rule. rule ≡ body.now) }
    {
        match body {
            Body::AllDiff(subjects) => AllDifferent::over(alloc, subjects.as_slice()),
            _ => unreachable!(),
        }
    }

    /// The propagator of a task whose body is `AllDiff`.
    pub fn of(alloc: Global, task: &Task) -> Result<Enforced<AllDifferent>, AllocError>
        requires { IsTrue (is_all_diff task.now.body) }
        ensures { IfOk result (λ propagator. propagator ≡ task.now) }
    {
        let rule = AllDifferent::new(alloc, &task.body)?;
        let propagator = Enforced::new(alloc, task.enforcement.as_slice(), rule)?;
        Ok(propagator)
    }
}

impl Rule for AllDifferent {
    ghost body = { λ r. r };

    fn look(&mut self, store: &Store, found: &mut Vec<Narrowing>) -> Result<Look, AllocError> {
        found.clear();
        let subjects = self.subjects.as_slice();
        let moved = measure(store, subjects, &mut self.ends)?;
        let ends = self.ends.as_slice();
        self.settled.begin(store.entries(), ends)?;
        match judge(ends, moved, &mut self.finder, &self.settled)? {
            Some(hall) => Ok(Look::Impossible(Hint {
                a: hall.low,
                b: hall.high,
            })),
            None => {
                clear_fixed(store, subjects, ends, &mut self.settled, found)?;
                clear_halls(store, subjects, ends, &mut self.finder.halls, found)?;
                Ok(Look::Possible)
            }
        }
    }

    fn explain(
        &self,
        past: &Before,
        target: Atom,
        hint: Hint,
        facts: &mut Vec<Atom>,
    ) -> Result<bool, AllocError> {
        let subjects = self.subjects.as_slice();
        let Some(hall) = hall_of(hint) else {
            return Ok(false);
        };
        if !is_among(subjects, target.subject) {
            return Ok(false);
        }
        let needed = numbers(&hall);
        let crowd = Crowd {
            hall,
            apart: Some(target.subject),
            needed,
        };
        // A number is cited most where a position is fixed at it, and is still put there.
        let likely = match needed {
            1 => self.finder.placing.owner(hall.low),
            _ => 0,
        };
        if !hold(past, subjects, likely, &crowd, facts)? {
            return Ok(false);
        }
        let given = add_near(past, target, &hall, facts)?;
        Ok(given)
    }

    fn refute(&self, past: &Before, hint: Hint, facts: &mut Vec<Atom>) -> Result<bool, AllocError> {
        let Some(hall) = hall_of(hint) else {
            return Ok(false);
        };
        let needed = numbers(&hall) + 1;
        let crowd = Crowd {
            hall,
            apart: None,
            needed,
        };
        let crowded = hold(past, self.subjects.as_slice(), 0, &crowd, facts)?;
        Ok(crowded)
    }

    fn push_subjects(&self, subjects: &mut Vec<u32>) -> Result<(), AllocError> {
        subjects.extend_from_slice(self.subjects.as_slice())?;
        Ok(())
    }
}
