//! What conflicts teach.
//!
//! A row is a list of steps that lead a store to a conflict, and the lesson: how many atoms the clause has, the first
//! of them, the level to go back to and the atom that is asserted. The lessons are those of the first unique
//! implication point, found by hand.

ghost use Rattle.std.specs.Prelude.{ℕ, ℤ, ◌≡◌, ◌<◌, length, IsTrue, OnOk};
ghost use Rattle.std.specs.List.{All};
ghost use Rattle.cps_trail.specs.Trail.{IsFalseNow};
ghost use Rattle.cps_trail.specs.Notes.{AllFit};
ghost use Rattle.cps_learning_tests.specs.Resting.{IsBaseAtRest};

use crate::resting::{settle, settle_more};
use crate::small::{bits, decide, one, zero};
use cps_clauses::ClauseBase;
use cps_conflict::{Analyser, Learnt, conflict_level};
use cps_domain::Domain;
use cps_literal::{Atom, Clause, Op, Truth};
use cps_trail::{Explain, Store};
use std::alloc::{AllocError, Global};
use std::process::Abort;
use std::test::Fail;

/// Makes an atom true because another is false.
fn implied(alloc: Global, store: &mut Store, other: Atom, atom: Atom) -> Result<(), AllocError> {
    if store.len() <= other.subject as usize {
        return Err(AllocError);
    }
    if store.len() <= atom.subject as usize {
        return Err(AllocError);
    }
    match store.truth(other) {
        Truth::No => {}
        _ => return Err(AllocError),
    }
    let mut reason = Clause::new(alloc);
    reason.push(other)?;
    reason.push(atom)?;
    store.imply(atom, reason)?;
    Ok(())
}

/// Makes no reasons: every entry of these stores keeps its own.
pub(crate) struct Nobody;

impl Explain for Nobody {
    ghost fits = { λ _. λ _. λ _. Unit {0} };

    ghost makes = { λ _. λ _. λ _. λ _. ⊥ };

    ghost holds = { λ _. λ _. ⊥ };

    fn explain_into(
        &self,
        _store: &Store,
        _entry: usize,
        _reason: &mut Vec<Atom>,
    ) -> Result<(), AllocError> {
        Err(AllocError)
    }

    ghost made = { λ e. λ s. λ k. λ clause. λ none. absurd none };

    ghost forced = { λ e. λ s. λ k. λ has. λ fits. record { at = λ d. record { at = λ a left holds. absurd holds } } };
}

/// Whether all of these atoms are false.
pub(crate) fn all_false(store: &Store, atoms: &[Atom]) -> bool
    ensures subjects { IsTrue result → All (λ t. t.subject < length store.now.first) atoms.now }
    ensures false_now { IsTrue result → All (IsFalseNow store.now) atoms.now }
{
    for atom in atoms {
        if store.len() <= atom.subject as usize {
            return false;
        }
        match store.truth(*atom) {
            Truth::No => {}
            _ => return false,
        }
    }
    true
}

/// A step that a store is led by.
#[derive(Clone, Copy)]
pub(crate) enum Step {
    Decide(Atom),
    /// Makes the second atom true because the first is false.
    Imply(Atom, Atom),
}

pub(crate) fn lead(alloc: Global, store: &mut Store, steps: &[Step]) -> Result<(), AllocError> {
    for step in steps {
        match *step {
            Step::Decide(atom) => decide(store, atom)?,
            Step::Imply(other, atom) => implied(alloc, store, other, atom)?,
        }
    }
    Ok(())
}

/// What is looked at of a learnt clause: how many atoms it has, the first of them, the level to go back to and the
/// atom that is asserted there.
#[derive(Clone, Copy, PartialEq, Eq)]
struct Lesson {
    count: usize,
    first: Atom,
    back_level: usize,
    assert: Atom,
}

/// A clause of this atom alone.
fn unit(atom: Atom) -> Lesson {
    Lesson {
        count: 1,
        first: atom,
        back_level: 0,
        assert: atom,
    }
}

/// What is looked at of a learnt clause; `None` if it has no atom.
fn lesson_in(learnt: &Learnt) -> Option<Lesson> {
    let atoms = learnt.clause.as_slice();
    let first = atoms.first()?;
    Some(Lesson {
        count: atoms.len(),
        first: *first,
        back_level: learnt.back_level,
        assert: learnt.assert,
    })
}

/// What a conflict of the present level teaches.
fn taught<E: Explain>(
    alloc: Global,
    store: &Store,
    conflict: &[Atom],
    explain: &E,
) -> Result<Option<Lesson>, AllocError>
    requires { AllFit (E.fits explain.now) store.now }
{
    if !all_false(store, conflict) {
        return Ok(None);
    }
    let level = store.level();
    if level == 0 || conflict_level(store, conflict) < level {
        return Ok(None);
    }
    let mut analyser = Analyser::new(alloc);
    let learnt = analyser.analyse(store, conflict, explain)?;
    Ok(lesson_in(&learnt))
}

/// What a conflict teaches in a store of three subjects with the values 0 and 1, and one with 1, 3 and 5.
fn lesson_of(
    alloc: Global,
    steps: &[Step],
    conflict: &[Atom],
) -> Result<Option<Lesson>, AllocError> {
    let mut store = bits(alloc)?;
    store.add(Domain::of_bounds(alloc, &[1, 1, 3, 3, 5, 5])?)?;
    lead(alloc, &mut store, steps)?;
    taught(alloc, &store, conflict, &Nobody)
}

struct Row {
    name: &'static str,
    steps: &'static [Step],
    conflict: &'static [Atom],
    lesson: Lesson,
}

/// Whether the conflict of a row teaches the row's lesson.
fn teaches(alloc: Global, row: &Row) -> Result<bool, AllocError> {
    Ok(lesson_of(alloc, row.steps, row.conflict)? == Some(row.lesson))
}

fn assert_taught(rt: &impl Abort, alloc: Global, rows: &[Row]) -> Result<(), Fail> {
    for row in rows {
        let is_taught = teaches(alloc, row)?;
        assert!(rt; is_taught, "{}", row.name);
    }
    Ok(())
}

static FIRST_POINTS: [Row; 3] = [
    Row {
        name: "the decision is asserted",
        steps: &[
            Step::Decide(atom!(0, Le, 0)),
            Step::Imply(atom!(0, Ge, 1), atom!(1, Ge, 1)),
            Step::Imply(atom!(0, Ge, 1), atom!(2, Ge, 1)),
        ],
        conflict: &[atom!(1, Le, 0), atom!(2, Le, 0)],
        lesson: Lesson {
            count: 1,
            first: atom!(0, Ge, 1),
            back_level: 0,
            assert: atom!(0, Ge, 1),
        },
    },
    Row {
        name: "the first point through which all goes is not the decision",
        steps: &[
            Step::Decide(atom!(0, Le, 0)),
            Step::Imply(atom!(0, Ge, 1), atom!(1, Ge, 1)),
            Step::Imply(atom!(1, Le, 0), atom!(2, Ge, 1)),
            Step::Imply(atom!(1, Le, 0), atom!(3, Ne, 3)),
        ],
        conflict: &[atom!(2, Le, 0), atom!(3, Eq, 3)],
        lesson: Lesson {
            count: 1,
            first: atom!(1, Le, 0),
            back_level: 0,
            assert: atom!(1, Le, 0),
        },
    },
    Row {
        name: "two sides are united",
        steps: &[Step::Decide(atom!(3, Eq, 3))],
        conflict: &[atom!(3, Le, 2), atom!(3, Ge, 4)],
        lesson: Lesson {
            count: 1,
            first: atom!(3, Ne, 3),
            back_level: 0,
            assert: atom!(3, Ne, 3),
        },
    },
];

#[test]
fn the_first_point_through_which_all_goes_is_asserted(rt: HostRuntime) -> Result<(), Fail> {
    assert_taught(&rt, rt.alloc(), &FIRST_POINTS)
}

static EARLIER_LEVELS: [Row; 2] = [
    Row {
        name: "what closes a gap is named",
        steps: &[
            Step::Decide(atom!(0, Le, 0)),
            Step::Imply(atom!(0, Ge, 1), atom!(3, Ne, 3)),
            Step::Decide(atom!(1, Le, 0)),
            Step::Imply(atom!(1, Ge, 1), atom!(3, Ge, 2)),
        ],
        conflict: &[atom!(1, Ge, 1), atom!(3, Le, 4)],
        lesson: Lesson {
            count: 2,
            first: atom!(1, Ge, 1),
            back_level: 1,
            assert: atom!(1, Ge, 1),
        },
    },
    Row {
        name: "what is redundant is left out",
        steps: &[
            Step::Imply(atom!(3, Le, 0), atom!(3, Ne, 5)),
            Step::Decide(atom!(0, Le, 0)),
            Step::Imply(atom!(0, Ge, 1), atom!(1, Ge, 1)),
            Step::Decide(atom!(2, Le, 0)),
        ],
        conflict: &[
            atom!(0, Ge, 1),
            atom!(1, Le, 0),
            atom!(2, Ge, 1),
            atom!(3, Eq, 5),
        ],
        lesson: Lesson {
            count: 2,
            first: atom!(0, Ge, 1),
            back_level: 1,
            assert: atom!(2, Ge, 1),
        },
    },
];

#[test]
fn what_fell_at_earlier_levels_is_named_unless_redundant(rt: HostRuntime) -> Result<(), Fail> {
    assert_taught(&rt, rt.alloc(), &EARLIER_LEVELS)
}

/// Decides that the first subject is 0; by one clause each the second and the third are 1 then.
fn lead_by_clauses(
    alloc: Global,
    base: &mut ClauseBase,
    store: &mut Store,
) -> Result<(), AllocError>
    requires rest { IsBaseAtRest base.old store.old }
    requires level { store.old.level ≡ 0 }
    ensures { OnOk result (IsBaseAtRest base.new store.new) }
{
    settle_more(alloc, base, store, &[one(0), one(1)])?;
    settle_more(alloc, base, store, &[one(0), one(2)])?;
    let from = store.entries().len();
    decide(store, zero(0))?;
    settle(base, store, from)
}

/// What a conflict teaches where the reasons are notes of clauses.
fn lesson_by_notes(alloc: Global) -> Result<Option<Lesson>, AllocError> {
    let mut store = bits(alloc)?;
    let mut base = ClauseBase::new(alloc);
    lead_by_clauses(alloc, &mut base, &mut store)?;
    taught(alloc, &store, &[zero(1), zero(2)], &base)
}

#[test]
fn notes_of_clauses_teach_the_same(rt: HostRuntime) -> Result<(), Fail> {
    assert!(rt; lesson_by_notes(rt.alloc())? == Some(unit(one(0))));
    Ok(())
}
