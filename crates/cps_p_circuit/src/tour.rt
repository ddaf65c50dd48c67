//! Marks of the nodes that taken arcs lead by. Nothing is proved of them but that they are safe and end: `Graph::cut`
//! tests them.

ghost use Rattle.std.specs.Prelude.{◌<◌, All, length};
ghost use Rattle.cps_instance.specs.Tasks.{atom_subjects};

use crate::graph::Graph;
use crate::reach::Links;
use crate::shown::{follows, was_true};
use cps_literal::Atom;
use cps_trail::Before;
use std::alloc::{AllocError, Global};

/// The number at a place, or 0.
pub fn slot_at(slots: &[usize], place: usize) -> usize {
    if place < slots.len() { slots[place] } else { 0 }
}

/// Sets the number at a place, where there is one.
pub fn set_slot(slots: &mut Vec<usize>, place: usize, number: usize) {
    if place < slots.len() {
        slots[place] = number;
    }
}

/// As many zeros as there are nodes.
pub fn clear_slots(slots: &mut Vec<usize>, count: usize) -> Result<(), AllocError> {
    if slots.len() == count {
        for slot in slots.iter_mut() {
            *slot = 0;
        }
        return Ok(());
    }
    slots.clear();
    slots.reserve(count)?;
    for _ in 0..count {
        slots.push(0)?;
    }
    Ok(())
}

/// The head of an arc, or 0 where there is none.
pub fn head_of(graph: &Graph, arc: usize) -> usize {
    if arc < graph.arcs() {
        graph.head(arc)
    } else {
        0
    }
}

/// The tail of an arc, or 0 where there is none.
pub fn tail_of(graph: &Graph, arc: usize) -> usize {
    if arc < graph.arcs() {
        graph.tail(arc)
    } else {
        0
    }
}

/// A graph, the arcs at each of its nodes, and the literal of each arc.
#[derive(Clone, Copy)]
pub struct Arcs<'a> {
    pub graph: &'a Graph,
    pub links: &'a Links,
    pub literals: &'a [Atom],
}

/// Whether an arc was taken, or an atom that is denied says that it is.
fn was_taken(literals: &[Atom], past: &Before, denied: Option<Atom>, arc: usize) -> bool
    requires { All (λ i. i < length past.now.first) (atom_subjects literals.now) }
{
    if arc >= literals.len() {
        return false;
    }
    let literal = literals[arc];
    follows(denied, literal) || was_true(past, literal)
}

/// 1 more than an arc that was taken from a node, or that an atom that is denied says is taken; 0 where there is none.
fn taken_from(arcs: &Arcs, past: &Before, denied: Option<Atom>, node: usize) -> usize
    requires { All (λ i. i < length past.now.first) (atom_subjects arcs.now.literals.now) }
{
    let mut by = slot_at(arcs.links.first_out(), node);
    for _ in 0..arcs.literals.len() {
        if by == 0 || was_taken(arcs.literals, past, denied, by - 1) {
            return by;
        }
        by = arcs.links.next_out(by - 1);
    }
    0
}

/// The marks of the nodes that taken arcs lead by from an arc's tail on.
pub fn marks_from(
    alloc: Global,
    arcs: &Arcs,
    past: &Before,
    denied: Option<Atom>,
    arc: usize,
) -> Result<Vec<usize>, AllocError>
    requires { All (λ i. i < length past.now.first) (atom_subjects arcs.now.literals.now) }
{
    let graph = arcs.graph;
    let mut marks = Vec::new(alloc);
    clear_slots(&mut marks, graph.nodes.len())?;
    let mut node = tail_of(graph, arc);
    for _ in 0..graph.nodes.len() {
        if slot_at(marks.as_slice(), node) != 0 {
            break;
        }
        let by = taken_from(arcs, past, denied, node);
        if by == 0 {
            break;
        }
        set_slot(&mut marks, node, by.wrapping_add(1));
        node = head_of(graph, by - 1);
    }
    Ok(marks)
}
