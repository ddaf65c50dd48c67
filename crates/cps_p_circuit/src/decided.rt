//! Whether the arcs are a circuit, where each literal is known.

ghost use Rattle.std.specs.Prelude.{◌≡◌, ◌↔◌, ◌<◌, ◌++◌, Ok, IfOk, OnOk, IsTrue, All, MatchOption};
ghost use Rattle.std.specs.Prelude.{true, false, map, length, min, List, ℤ};
ghost use Rattle.cps_literal.specs.Truth.{value_at, atom_holds};
ghost use Rattle.cps_propagate.specs.Now.{IsFixedNow, IsOpenTo};
ghost use Rattle.cps_instance.specs.Tasks.{atom_subjects};
ghost use Rattle.cps_p_circuit.specs.Graphs.{number, arcs_by, IsRound};
ghost use Rattle.cps_p_circuit.specs.Showing.{AreTaken, IsOpenStill};

use crate::graph::Graph;
use cps_eval::is_circuit;
use cps_literal::{Atom, Truth};
use cps_model::Arc;
use cps_trail::Store;
use std::alloc::{AllocError, Global};

/// Whether an atom is true, where that is known.
fn known(store: &Store, atom: Atom) -> Option<bool>
    requires { atom.subject < length store.now.first }
    ensures { MatchOption result (IsFixedNow store.now atom.subject → ⊥) (λ b. (xs : List ℤ)
        → IsOpenTo store.now atom.subject (value_at xs atom.subject) → atom_holds xs atom ≡ b) }
{
    // Reading the entries gives the proof the store's invariant: each subject has a value left.
    let _ = store.entries();
    match store.truth(atom) {
        Truth::Yes => Some(true),
        Truth::No => Some(false),
        Truth::Undecided => None,
    }
}

/// Whether a literal at a place is not known.
fn is_open(literals: &[Atom], store: &Store, place: usize) -> bool
    requires { All (λ i. i < length store.now.first) (atom_subjects literals.now) }
    ensures { IsTrue result → IsOpenStill store.now literals.now }
{
    if place >= literals.len() {
        return false;
    }
    match known(store, literals[place]) {
        Some(_) => false,
        None => true,
    }
}

/// Lists which literals are true. Answers false where one is not known: the one at a place that is proposed, or another.
pub fn read_taken(
    literals: &[Atom],
    store: &Store,
    proposed: usize,
    taken: &mut Vec<bool>,
) -> Result<bool, AllocError>
    requires { All (λ i. i < length store.now.first) (atom_subjects literals.now) }
    ensures yes { result ≡ Ok true → AreTaken store.now literals.now taken.new.items }
    ensures no { result ≡ Ok false → IsOpenStill store.now literals.now }
{
    if is_open(literals, store, proposed) {
        return Ok(false);
    }
    taken.clear();
    for literal in literals {
        match known(store, *literal) {
            Some(holds) => taken.push(holds)?,
            None => return Ok(false),
        }
    }
    Ok(true)
}

/// Adds the numbers of nodes.
fn add_numbers(nodes: &[i32], ends: &[usize], numbers: &mut Vec<i64>) -> Result<(), AllocError>
    requires { All (λ v. v < length nodes.now) ends.now }
    ensures { OnOk result (numbers.new.items ≡ numbers.old.items ++ map (number nodes.now) ends.now) }
{
    for end in ends {
        numbers.push(i64::from(nodes[*end]))?;
    }
    Ok(())
}

/// The arcs that are taken.
fn taken_arcs(alloc: Global, graph: &Graph, taken: &[bool]) -> Result<Vec<Arc>, AllocError>
    ensures { IfOk result (λ arcs.
        arcs.items ≡ arcs_by graph.now.nodes.items graph.now.from.items graph.now.to.items taken.now) }
{
    let mut arcs = Vec::new(alloc);
    let count = graph.arcs().min(taken.len());
    for k in 0..count {
        if !taken[k] {
            continue;
        }
        let tail = graph.number(graph.tail(k));
        let head = graph.number(graph.head(k));
        arcs.push(Arc { tail, head })?;
    }
    Ok(arcs)
}

/// Whether the arcs that are taken are a circuit.
pub fn is_round(alloc: Global, graph: &Graph, taken: &[bool]) -> Result<bool, AllocError>
    ensures { IfOk result (λ answer.
        IsTrue answer ↔ IsRound graph.now.nodes.items graph.now.from.items graph.now.to.items taken.now) }
{
    let mut numbers = Vec::new(alloc);
    add_numbers(graph.nodes.as_slice(), graph.from.as_slice(), &mut numbers)?;
    add_numbers(graph.nodes.as_slice(), graph.to.as_slice(), &mut numbers)?;
    let arcs = taken_arcs(alloc, graph, taken)?;
    let answer = is_circuit(alloc, numbers.as_slice(), arcs.as_slice())?;
    Ok(answer)
}
