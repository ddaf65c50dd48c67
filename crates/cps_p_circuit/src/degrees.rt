//! Degrees: which arcs are taken and which are open at each node, on the side of the arcs' tails and on that of their
//! heads.
//!
//! One pass reads the literals, and one for each side counts. What is given by degrees is proved whole: a node with two
//! taken arcs on a side, or with none that may be taken, cannot be had; beside a taken arc the others are not taken;
//! and the last open arc of a node is taken where none is. The finder goes by the same counts.

ghost use Rattle.std.specs.Prelude.{◌≡◌, ◌≢◌, ◌⊎◌, ◌+◌, ◌<◌, ◌≤◌, OnOk, IfSome, MatchOption, IsTrue, All, ℕ, List, length, false, slice_index, slice_index_or};
ghost use Rattle.cps_literal.specs.declared.atom.Truth.{Truth};
ghost use Rattle.cps_instance.specs.Tasks.{atom_subjects};
ghost use Rattle.cps_trail.specs.Trail.{Trail};
ghost use Rattle.cps_p_circuit.specs.Counts.{AreStates, IsCounted, AreCounted, AreAllCounted, nothing, degree_at, IsKept, IsLost, AreKept, HasLost, AreNarrow, AddsGiven, LeavesOthers, LeavesLast, IsLastOpen, AddsArc};

use crate::graph::Graph;
use crate::hints::{Claim, hint_of};
use cps_literal::{Atom, Truth};
use cps_rule::Narrowing;
use cps_trail::Store;
use std::alloc::{AllocError, Global};

/// What was seen of the arcs at one end of a node. Each number is 1 more than an arc's, or 0 where there is none.
#[derive(Clone, Copy)]
pub struct Degree {
    /// An arc that is taken, and another one.
    pub taken: usize,
    pub second: usize,
    /// An arc that is open, and another one.
    pub undecided: usize,
    pub other: usize,
}

pub const NOTHING: Degree = Degree {
    taken: 0,
    second: 0,
    undecided: 0,
    other: 0,
};

/// What is taken and open of a circuit's arcs.
#[derive(Drop)]
pub struct Degrees {
    /// Whether each arc is taken.
    pub states: Vec<Truth>,
    /// For each node, what was seen of the arcs that leave it, and of those that enter it.
    pub out: Vec<Degree>,
    pub into: Vec<Degree>,
}

/// Reads what is known of each literal.
fn read_states(literals: &[Atom], store: &Store, states: &mut Vec<Truth>) -> Result<(), AllocError>
    requires { All (λ i. i < length store.now.first) (atom_subjects literals.now) }
    ensures { OnOk result (AreStates store.now literals.now states.new.items) }
{
    // Reading the entries gives the proof the store's invariant: each subject has a value left.
    let _ = store.entries();
    states.clear();
    for literal in literals {
        let state = store.truth(*literal);
        states.push(state)?;
    }
    Ok(())
}

/// What was seen at a node, with one taken arc more, numbered from 1.
fn with_taken(degree: Degree, by: usize) -> Degree
    ensures { (ends : List ℕ) (states : List Truth) (v k : ℕ) → by ≡ k + 1 → slice_index ends k ≡ v
        → slice_index_or states k Truth.No ≡ Truth.Yes → IsCounted ends states v k degree
        → IsCounted ends states v (k + 1) result }
{
    if degree.taken == 0 {
        return Degree {
            taken: by,
            second: degree.second,
            undecided: degree.undecided,
            other: degree.other,
        };
    }
    Degree {
        taken: degree.taken,
        second: by,
        undecided: degree.undecided,
        other: degree.other,
    }
}

/// What was seen at a node, with one arc more, numbered from 1.
fn noted(degree: Degree, by: usize, state: Truth) -> Degree
    ensures { (ends : List ℕ) (states : List Truth) (v k : ℕ) → by ≡ k + 1 → slice_index ends k ≡ v
        → slice_index_or states k Truth.No ≡ state → IsCounted ends states v k degree
        → IsCounted ends states v (k + 1) result }
{
    match state {
        Truth::Yes => with_taken(degree, by),
        Truth::Undecided => Degree {
            taken: degree.taken,
            second: degree.second,
            undecided: by,
            other: degree.undecided,
        },
        Truth::No => degree,
    }
}

/// As many nodes of which nothing was seen.
fn clear_degrees(degrees: &mut Vec<Degree>, nodes: usize) -> Result<(), AllocError>
    ensures len { OnOk result (length degrees.new.items ≡ nodes) }
    ensures none { OnOk result ((v : ℕ) → degree_at degrees.new.items v ≡ nothing) }
{
    degrees.clear();
    for _ in 0..nodes {
        degrees.push(NOTHING)?;
    }
    Ok(())
}

/// Counts the arcs at each node, on the side of these ends.
fn count(
    ends: &[usize],
    states: &[Truth],
    nodes: usize,
    degrees: &mut Vec<Degree>,
) -> Result<(), AllocError>
    requires within { (k : ℕ) → k < length ends.now → slice_index ends.now k < nodes }
    requires known { length ends.now ≡ length states.now }
    ensures { OnOk result (AreCounted ends.now states.now nodes (length states.now) degrees.new.items) }
{
    clear_degrees(degrees, nodes)?;
    for k in 0..ends.len() {
        let node = ends[k];
        let degree = noted(degrees[node], k + 1, states[k]);
        degrees[node] = degree;
    }
    Ok(())
}

/// Whether a node cannot have exactly one arc on a side.
fn is_lost(degree: Degree) -> bool
    ensures lost { IsTrue result → IsLost degree }
    ensures kept { result ≡ false → IsKept degree }
{
    degree.second != 0 || (degree.taken == 0 && degree.undecided == 0)
}

/// The first node that cannot have exactly one arc on a side.
fn first_lost(degrees: &[Degree]) -> Option<usize>
    ensures { MatchOption result (AreKept degrees.now) (λ v. HasLost degrees.now v) }
{
    for v in 0..degrees.len() {
        if is_lost(degrees[v]) {
            return Some(v);
        }
    }
    None
}

/// The last open arc of a node that has no taken one, numbered from 1; 0 where there is none.
fn last_open(degree: Degree) -> usize
    ensures { IsLastOpen degree result }
{
    if degree.taken == 0 && degree.other == 0 {
        degree.undecided
    } else {
        0
    }
}

/// Adds the literal of an arc, numbered from 1, if there is an arc.
fn add_arc(
    literals: &[Atom],
    by: usize,
    claim: Claim,
    found: &mut Vec<Narrowing>,
) -> Result<(), AllocError>
    requires { by ≤ length literals.now }
    ensures { OnOk result (AddsArc literals.now by found.old.items found.new.items) }
{
    if by == 0 {
        return Ok(());
    }
    let target = literals[by - 1];
    found.push(Narrowing {
        target,
        hint: hint_of(claim),
    })?;
    Ok(())
}

impl Degrees {
    ghost use Rattle.std.specs.Prelude.{◌≡◌, ◌<◌, OnOk, IfSome, MatchOption, All, ℕ, length};
    ghost use Rattle.cps_instance.specs.Tasks.{atom_subjects};
    ghost use Rattle.cps_p_circuit.specs.Counts.{AreStates, AreAllCounted, AreNarrow, AreAllKept, HasLostOn, AddsGiven, IsOpenBeside, LeavesArc, LeavesOthers, LeavesLast};

    /// Room for degrees.
    pub fn new(alloc: Global) -> Self {
        Degrees {
            states: Vec::new(alloc),
            out: Vec::new(alloc),
            into: Vec::new(alloc),
        }
    }

    /// Reads the literals, and counts.
    pub fn count(
        &mut self,
        graph: &Graph,
        literals: &[Atom],
        store: &Store,
    ) -> Result<(), AllocError>
        requires subjects { All (λ i. i < length store.now.first) (atom_subjects literals.now) }
        requires tails { length graph.now.from.items ≡ length literals.now }
        requires heads { length graph.now.to.items ≡ length literals.now }
        ensures states { OnOk result (AreStates store.now literals.now self.new.states.items) }
        ensures counted { OnOk result (AreAllCounted graph.now self.new) }
    {
        read_states(literals, store, &mut self.states)?;
        let nodes = graph.nodes.len();
        let states = self.states.as_slice();
        count(graph.from.as_slice(), states, nodes, &mut self.out)?;
        count(graph.to.as_slice(), states, nodes, &mut self.into)
    }

    /// Why some node cannot have exactly one arc on a side, if there is one.
    pub fn lost(&self) -> Option<Claim>
        ensures { MatchOption result (AreAllKept self.now) (λ _. HasLostOn self.now) }
    {
        if let Some(v) = first_lost(self.out.as_slice()) {
            let degree = self.out[v];
            if degree.second == 0 {
                return Some(Claim::NoneOut(v));
            }
            let one = degree.taken.wrapping_sub(1);
            return Some(Claim::TwoOut(one, degree.second.wrapping_sub(1)));
        }
        if let Some(v) = first_lost(self.into.as_slice()) {
            let degree = self.into[v];
            if degree.second == 0 {
                return Some(Claim::NoneIn(v));
            }
            let one = degree.taken.wrapping_sub(1);
            return Some(Claim::TwoIn(one, degree.second.wrapping_sub(1)));
        }
        None
    }

    /// Why an arc that is open is not taken beside another that is, if there is one.
    fn beside(&self, graph: &Graph, k: usize) -> Option<Claim>
        requires counted { AreAllCounted graph.now self.now }
        requires tail { k < length graph.now.from.items }
        requires head { k < length graph.now.to.items }
        requires state { k < length self.now.states.items }
        ensures { MatchOption result (IsOpenBeside graph.now self.now k → ⊥) (λ _. IsOpenBeside graph.now self.now k) }
    {
        match self.states[k] {
            Truth::Undecided => {}
            Truth::Yes => return None,
            Truth::No => return None,
        }
        let out = self.out[graph.tail(k)].taken;
        if out != 0 {
            return Some(Claim::TwoOut(out - 1, k));
        }
        let into = self.into[graph.head(k)].taken;
        if into != 0 {
            return Some(Claim::TwoIn(into - 1, k));
        }
        None
    }

    /// Adds that an arc is not taken, if it is open beside a taken one.
    fn exclude_at(
        &self,
        graph: &Graph,
        literals: &[Atom],
        k: usize,
        found: &mut Vec<Narrowing>,
    ) -> Result<(), AllocError>
        requires counted { AreAllCounted graph.now self.now }
        requires narrow { AreNarrow literals.now }
        requires arc { k < length literals.now }
        requires tails { length graph.now.from.items ≡ length literals.now }
        requires heads { length graph.now.to.items ≡ length literals.now }
        requires states { length self.now.states.items ≡ length literals.now }
        ensures given { OnOk result (AddsGiven graph.now literals.now self.now.states.items
            found.old.items found.new.items) }
        ensures rests { OnOk result (LeavesArc graph.now literals.now self.now k found.old.items found.new.items) }
    {
        let Some(claim) = self.beside(graph, k) else {
            return Ok(());
        };
        let target = literals[k].negate();
        let hint = hint_of(claim);
        found.push(Narrowing { target, hint })?;
        Ok(())
    }

    /// Adds that open arcs beside taken ones are not taken.
    pub fn exclude(
        &self,
        graph: &Graph,
        literals: &[Atom],
        found: &mut Vec<Narrowing>,
    ) -> Result<(), AllocError>
        requires counted { AreAllCounted graph.now self.now }
        requires narrow { AreNarrow literals.now }
        requires tails { length graph.now.from.items ≡ length literals.now }
        requires heads { length graph.now.to.items ≡ length literals.now }
        requires states { length self.now.states.items ≡ length literals.now }
        ensures given { OnOk result (AddsGiven graph.now literals.now self.now.states.items
            found.old.items found.new.items) }
        ensures rests { OnOk result (LeavesOthers graph.now literals.now self.now (length literals.now)
            found.old.items found.new.items) }
    {
        for k in 0..literals.len() {
            self.exclude_at(graph, literals, k, found)?;
        }
        Ok(())
    }

    /// Adds that the last open arc of each node is taken, on both sides, where none is taken there.
    pub fn require(
        &self,
        graph: &Graph,
        literals: &[Atom],
        found: &mut Vec<Narrowing>,
    ) -> Result<(), AllocError>
        requires counted { AreAllCounted graph.now self.now }
        requires tails { length graph.now.from.items ≡ length literals.now }
        requires heads { length graph.now.to.items ≡ length literals.now }
        requires states { length self.now.states.items ≡ length literals.now }
        ensures given { OnOk result (AddsGiven graph.now literals.now self.now.states.items
            found.old.items found.new.items) }
        ensures rests { OnOk result (LeavesLast literals.now self.now (length graph.now.nodes.items)
            found.old.items found.new.items) }
    {
        for v in 0..graph.nodes.len() {
            let out = last_open(self.out[v]);
            add_arc(literals, out, Claim::NoneOut(v), found)?;
            let into = last_open(self.into[v]);
            add_arc(literals, into, Claim::NoneIn(v), found)?;
        }
        Ok(())
    }
}
