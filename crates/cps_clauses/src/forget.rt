//! Which learnt clauses are dropped, and in which order.
//!
//! A clause that a note of the store names is the reason of an entry, and stays until the entry goes. Of the others the
//! longest go first: the longer a clause is, the more has to be decided before it says anything.

ghost use Rattle.std.specs.Prelude.{ℕ, ◌↔◌, ◌≡◌, ◌<◌, true, false, map, length, slice_index_or, slice_set, AllPairs, IfOk};
ghost use Rattle.std.specs.List.{All};
ghost use Rattle.cps_clauses.specs.InForce.{marked};
ghost use Rattle.cps_clauses.specs.Bases.{number_at};
ghost use Rattle.cps_clauses.specs.Forgets.{GoInOrder, IsNamed};
ghost use Rattle.cps_clauses.specs.Candidates.{AreCandidates, AreSortedCandidates};

use crate::clauses::Clauses;
use cps_trail::Store;
use std::alloc::{AllocError, Global};

/// A learnt clause that may be dropped.
#[derive(Clone, Copy)]
pub(crate) struct Candidate {
    /// How many atoms fewer it has than a clause can have.
    pub(crate) rank: usize,
    /// Its place among the learnt ones.
    pub(crate) place: u32,
}

/// Marks a number, if the list has it.
fn mark(marks: &mut Vec<bool>, number: usize)
    ensures { marks.new.items ≡ slice_set marks.old.items number true }
{
    if number < marks.len() {
        marks[number] = true;
    }
}

/// Which of the first `count` clauses a note of the store names.
fn named_clauses(alloc: Global, store: &Store, count: usize) -> Result<Vec<bool>, AllocError>
    ensures size { IfOk result (λ named. length named.items ≡ count) }
    ensures named { IfOk result (λ named. (i : ℕ) → i < count → (slice_index_or named.items i false ≡ true)
        ↔ IsNamed store.now i) }
{
    let mut named = vec![in alloc; false; count]?;
    for view in store.entries() {
        let Some(number) = view.reason.clause() else {
            continue;
        };
        mark(&mut named, number as usize);
    }
    Ok(named)
}

/// The learnt clauses that may go, the oldest first.
fn candidates(
    alloc: Global,
    store: &Store,
    clauses: &Clauses,
    dropped: &[bool],
    learnt: &[u32],
) -> Result<Vec<Candidate>, AllocError>
    requires sizes { length dropped.now ≡ length clauses.now }
    requires within { All (λ i. i < length clauses.now) learnt.now }
    ensures { IfOk result (λ found. AreCandidates clauses.now dropped.now learnt.now store.now found.items) }
{
    let named = named_clauses(alloc, store, clauses.len())?;
    let mut found = Vec::new(alloc);
    for place in 0..learnt.len() {
        let number = learnt[place] as usize;
        if dropped[number] {
            continue;
        }
        if named[number] {
            continue;
        }
        let Ok(turn) = u32::try_from(place) else {
            return Err(AllocError);
        };
        found.push(Candidate {
            rank: usize::MAX - clauses.clause(number).len(),
            place: turn,
        })?;
    }
    Ok(found)
}

/// Sorts candidates: the longest first, and of equally long ones the oldest.
fn sort_by_turn(candidates: &mut Vec<Candidate>)
    requires { AllPairs (λ c d. c.place < d.place) candidates.old.items }
    ensures { AreSortedCandidates candidates.old.items candidates.new.items }
{
    candidates.sort_unstable_by_key(|candidate| (candidate.rank, candidate.place));
}

/// The learnt clauses that may go, in the order in which they go, by their places among the learnt ones.
pub(crate) fn in_turn(
    alloc: Global,
    store: &Store,
    clauses: &Clauses,
    dropped: &[bool],
    learnt: &[u32],
) -> Result<Vec<u32>, AllocError>
    requires sizes { length dropped.now ≡ length clauses.now }
    requires within { All (λ i. i < length clauses.now) learnt.now }
    ensures { IfOk result (λ order. GoInOrder clauses.now dropped.now learnt.now store.now order.items) }
{
    let mut found = candidates(alloc, store, clauses, dropped, learnt)?;
    sort_by_turn(&mut found);
    let mut order = Vec::new(alloc);
    order.reserve(found.len())?;
    for candidate in &found {
        order.push_reserved(candidate.place);
    }
    Ok(order)
}

/// Which clauses are dropped, these learnt ones included.
pub(crate) fn marks_with(
    alloc: Global,
    dropped: &[bool],
    learnt: &[u32],
    which: &[u32],
) -> Result<Vec<bool>, AllocError>
    requires { All (λ n. n < length learnt.now) which.now }
    ensures { IfOk result (λ marks. marks.items ≡ marked dropped.now (map (number_at learnt.now) which.now)) }
{
    let mut marks = Vec::from_slice(alloc, dropped)?;
    for place in which {
        mark(&mut marks, learnt[*place as usize] as usize);
    }
    Ok(marks)
}
