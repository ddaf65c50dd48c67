//! Rounds: what each decides, and how far it has come.
//!
//! The first levels of the trail began with assumptions of the model, as many as `assumed` says, and those after them
//! up to `held` with the round's own decisions; the round is left with a clause that sends the search back below
//! `held`. A decision of the round that inference made true already begins no level, and one that it made false
//! is passed over: the round then searches where the aim cannot be followed. Decisions are looked for from `place` on,
//! which goes back to 0 whenever entries may have gone.

ghost use Rattle.std.specs.Prelude.{◌≡◌, ◌↔◌, ◌⊎◌, ℕ, ◌+◌, ◌≤◌, ◌<◌, ◌^◌, All, IfOk, IfSome, OnOk, IsNone, IsTrue, length, min, pos, slice_index_or};
ghost use Rattle.cps_literal.specs.declared.atom.Atom.{Atom as AtomOf};
ghost use Rattle.cps_trail.specs.Trail.{IsSoundTrail};
ghost use Rattle.cps_branch.specs.Choice.{IsUndecided};
ghost use Rattle.cps_search.specs.Ends.{round_conflicts};
ghost use Rattle.cps_neighbourhood.specs.Drawing.{after_words, AscendsStrictly};
ghost use Rattle.cps_neighbourhood.specs.Rounds.{first_round, fixed_from, free_count, freed, has_value, is_on, to_decide, IsFirstOpenDecision, NoneOpen};
ghost use Rattle.cps_neighbourhood.specs.Standing.{begun, held_to, round_of, solution_of, IsRoundEnd, IsUnderWay};

use crate::aim::Aim;
use crate::draws::choose_free;
use cps_literal::{Atom, Op};
use cps_trail::Store;
use rand_pcg::Lcg64Xsh32;
use std::alloc::{AllocError, Global};

/// After how many conflicts a round ends if it was not left before, so that the next draws others to free.
pub(crate) const ROUND_CONFLICTS: u64 = 100;

/// A round, and how far it has come.
#[derive(Drop)]
pub(crate) struct Progress {
    /// What it decides, in order.
    pub decisions: Vec<Atom>,
    /// How many clauses were learnt in it.
    pub learnt: u64,
    /// The level of the last assumption on the trail: all levels up to this one began with assumptions.
    pub assumed: usize,
    /// The level of its last decision on the trail, which comes after all assumptions; 0 if none is there.
    pub held: usize,
    /// None of its decisions before this place is open.
    pub place: usize,
}

/// How many of `n` variables a round frees: a fifth and one more, so at least one where there are any.
fn free_count(n: u32) -> u32
    ensures is { result ≡ free_count n }
    ensures most { result ≤ n }
{
    n.min(1 + n / 5)
}

/// The atom that a variable has its value in a list.
fn has_value(values: &[i64], variable: usize) -> Atom
    requires within { variable < length values.now }
    requires few { length values.now ≤ 2 ^ 31 }
    ensures { result ≡ has_value variable (slice_index_or values.now variable (pos 0)) }
{
    Atom {
        subject: variable as u32,
        op: Op::Eq,
        value: values[variable],
    }
}

/// Whether a variable is free. `free` is sorted, and `place` is where the variable would stand.
fn is_free(free: &[u32], place: usize, variable: usize) -> bool
    requires rising { AscendsStrictly free.now }
    requires before { (k : ℕ) → k < place → k < length free.now → slice_index_or free.now k 0 < variable }
    requires after { (k : ℕ) → place ≤ k → k < length free.now → variable ≤ slice_index_or free.now k 0 }
    ensures is { result ≡ is_on free.now variable }
    ensures here { IsTrue result ↔ ((place < length free.now) × (slice_index_or free.now place 0 ≡ variable)) }
{
    place < free.len() && free[place] as usize == variable
}

/// The decisions that the variables which are not free have these values.
fn fix_others(alloc: Global, values: &[i64], free: &[u32]) -> Result<Vec<Atom>, AllocError>
    requires few { length values.now ≤ 2 ^ 31 }
    requires rising { AscendsStrictly free.now }
    ensures { IfOk result (λ decisions. decisions.items ≡ fixed_from 0 values.now free.now) }
{
    let mut decisions = Vec::new(alloc);
    let mut place = 0;
    for variable in 0..values.len() {
        if is_free(free, place, variable) {
            place += 1;
        } else {
            decisions.push(has_value(values, variable))?;
        }
    }
    Ok(decisions)
}

/// The decisions of a round that frees these variables: none without an aim.
fn to_decide(alloc: Global, aim: &Aim, free: &[u32]) -> Result<Vec<Atom>, AllocError>
    requires few { length aim.now.values.items ≤ 2 ^ 31 }
    requires rising { AscendsStrictly free.now }
    ensures { IfOk result (λ decisions. decisions.items ≡ to_decide (solution_of aim.now) free.now) }
{
    match aim.solution() {
        Some(values) => fix_others(alloc, values, free),
        None => Ok(Vec::new(alloc)),
    }
}

/// The place of the first of a round's decisions, from `from` on, that a store leaves undecided; their count if there
/// is none.
fn first_open(store: &Store, decisions: &[Atom], from: usize) -> usize
    requires { All (λ t. t.subject < length store.now.first) decisions.now }
    ensures after { from ≤ length decisions.now → from ≤ result }
    ensures within { result ≤ length decisions.now }
    ensures passed { (j : ℕ) (d : AtomOf) → from ≤ j → j < result
        → IsUndecided store.now (slice_index_or decisions.now j d) → ⊥ }
    ensures here { (d : AtomOf) → result < length decisions.now
        → IsUndecided store.now (slice_index_or decisions.now result d) }
{
    for (place, atom) in decisions.iter().enumerate() {
        if from <= place && store.truth(*atom).is_open() {
            return place;
        }
    }
    decisions.len()
}

impl Progress {
    /// No round yet.
    pub fn none(alloc: Global) -> Self {
        Progress {
            decisions: Vec::new(alloc),
            learnt: 0,
            assumed: 0,
            held: 0,
            place: 0,
        }
    }

    /// A round over an aim's variables that begins: it frees a drawn share of them, and is to decide the others'
    /// values.
    pub fn begin(alloc: Global, aim: &Aim, draws: &mut Lcg64Xsh32) -> Result<Self, AllocError>
        requires { length aim.now.values.items ≤ 2 ^ 31 }
        ensures is { IfOk result (λ r. round_of r
            ≡ first_round (length aim.now.values.items) (solution_of aim.now) draws.old) }
        ensures draws { OnOk result (draws.new ≡ after_words (length aim.now.values.items) draws.old) }
        ensures held { IfOk result (λ r. (r.assumed ≡ 0) × (r.held ≡ 0)) }
        ensures place { IfOk result (λ r. r.place ≡ 0) }
    {
        let count = aim.values.len() as u32;
        let free = choose_free(alloc, count, free_count(count), draws)?;
        let decisions = to_decide(alloc, aim, free.as_slice())?;
        Ok(Progress {
            decisions,
            learnt: 0,
            assumed: 0,
            held: 0,
            place: 0,
        })
    }

    /// The first decision of the round that a store leaves undecided.
    pub fn next_open(&mut self, store: &Store) -> Option<Atom>
        requires { IsUnderWay self.old store.now }
        ensures decisions { self.new.decisions.items ≡ self.old.decisions.items }
        ensures learnt { self.new.learnt ≡ self.old.learnt }
        ensures held { (self.new.assumed ≡ self.old.assumed) × (self.new.held ≡ self.old.held) }
        ensures none { IsNone result → NoneOpen self.old.decisions.items store.now }
        ensures some { IfSome result (λ t. IsFirstOpenDecision self.old.decisions.items store.now t
            × (begun self.old ≡ store.now.level)) }
        ensures under_way { IsUnderWay self.new store.now }
        ensures sound { IsSoundTrail store.now }
    {
        // Reading the entries gives the proof the store's invariant.
        let _ = store.entries();
        if self.assumed.max(self.held) < store.level() {
            self.place = self.decisions.len();
            return None;
        }
        self.place = first_open(store, self.decisions.as_slice(), self.place);
        if self.place < self.decisions.len() {
            Some(self.decisions[self.place])
        } else {
            None
        }
    }

    /// Whether a learnt clause that sends the search back to level `back` ends the round.
    pub fn is_ended_at(&self, back: usize) -> bool
        requires { self.now.learnt < round_conflicts }
        ensures { IsTrue result ↔ IsRoundEnd self.now back }
    {
        self.learnt + 1 == ROUND_CONFLICTS || back < self.held
    }

    /// Counts one more learnt clause, and keeps what is left where the search went back to a level.
    pub fn count_learnt(&mut self, level: usize)
        requires few { self.old.learnt < round_conflicts }
        ensures assumed { self.new.assumed ≡ min self.old.assumed level }
        ensures held { self.new.held ≡ held_to self.old level }
        ensures place { self.new.place ≡ 0 }
        ensures decisions { self.new.decisions.items ≡ self.old.decisions.items }
        ensures learnt { self.new.learnt ≡ self.old.learnt + 1 }
    {
        self.learnt += 1;
        self.go_back(level);
    }

    /// Keeps what is left where the search went back to a level.
    pub fn go_back(&mut self, level: usize)
        ensures assumed { self.new.assumed ≡ min self.old.assumed level }
        ensures held { self.new.held ≡ held_to self.old level }
        ensures place { self.new.place ≡ 0 }
        ensures decisions { self.new.decisions.items ≡ self.old.decisions.items }
        ensures learnt { self.new.learnt ≡ self.old.learnt }
    {
        self.held = if level <= self.assumed {
            0
        } else {
            self.held.min(level)
        };
        self.assumed = self.assumed.min(level);
        self.place = 0;
    }
}
