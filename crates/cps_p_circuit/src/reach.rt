//! Reachability: the nodes that arcs lead to from a node, or from which they lead to it, by breadth-first search.
//!
//! Nothing is proved of it but that it is safe and ends: `Graph::cut` tests the set of nodes. The arcs at each node are
//! linked once, in both directions; which arcs are shut is handed in for each search, so that one structure serves the
//! present domains and the earlier ones of an explanation.

ghost use Rattle.std.specs.Prelude.{◌<◌, All, length};
ghost use Rattle.cps_instance.specs.Tasks.{atom_subjects};

use crate::graph::Graph;
use crate::hints::Way;
use crate::tour::{clear_slots, set_slot, slot_at};
use cps_literal::{Atom, Truth};
use cps_trail::Before;
use std::alloc::{AllocError, Global};

/// Lists of arcs, one for each node.
#[derive(Drop)]
pub struct Lists {
    /// For each node 1 more than the first arc of its list, or 0.
    first: Vec<usize>,
    /// For each arc 1 more than the arc after it in its list, or 0.
    next: Vec<usize>,
    /// For each arc the node at its other end.
    to: Vec<usize>,
}

/// The arcs that leave each node, and those that enter it.
#[derive(Drop)]
pub struct Links {
    out: Lists,
    into: Lists,
}

/// Lists arcs by their ends, with the nodes at the others.
fn lists_by(
    alloc: Global,
    nodes: usize,
    ends: &[usize],
    others: &[usize],
) -> Result<Lists, AllocError> {
    let mut first = Vec::new(alloc);
    let mut next = Vec::new(alloc);
    clear_slots(&mut first, nodes)?;
    for k in 0..ends.len() {
        let node = ends[k];
        next.push(slot_at(first.as_slice(), node))?;
        set_slot(&mut first, node, k.wrapping_add(1));
    }
    let to = Vec::from_slice(alloc, others)?;
    Ok(Lists { first, next, to })
}

impl Links {
    /// The arcs at each node of a graph.
    pub fn of(alloc: Global, graph: &Graph) -> Result<Self, AllocError> {
        let nodes = graph.nodes.len();
        let from = graph.from.as_slice();
        let to = graph.to.as_slice();
        let out = lists_by(alloc, nodes, from, to)?;
        let into = lists_by(alloc, nodes, to, from)?;
        Ok(Links { out, into })
    }

    /// For each node 1 more than the first arc that leaves it, or 0.
    pub fn first_out(&self) -> &[usize] {
        self.out.first.as_slice()
    }

    /// For each node 1 more than the first arc that enters it, or 0.
    pub fn first_into(&self) -> &[usize] {
        self.into.first.as_slice()
    }

    /// 1 more than the arc after one among those that leave its tail, or 0.
    pub fn next_out(&self, arc: usize) -> usize {
        slot_at(self.out.next.as_slice(), arc)
    }
}

/// The nodes that a walk came by.
#[derive(Drop)]
pub struct Reach {
    /// For each node, 1 where the walk came by it, and else 0.
    marks: Vec<usize>,
    /// These nodes, in the order in which they were found.
    queue: Vec<usize>,
}

impl Reach {
    /// A walk that has not begun.
    pub fn new(alloc: Global) -> Self {
        Reach {
            marks: Vec::new(alloc),
            queue: Vec::new(alloc),
        }
    }

    /// The marks, by node.
    pub fn marks(&self) -> &[usize] {
        self.marks.as_slice()
    }

    /// Whether the walk came by a node.
    pub fn has(&self, node: usize) -> bool {
        slot_at(self.marks.as_slice(), node) != 0
    }

    /// Comes by a node.
    fn enter(&mut self, node: usize) -> Result<(), AllocError> {
        if self.has(node) {
            return Ok(());
        }
        set_slot(&mut self.marks, node, 1);
        self.queue.push(node)?;
        Ok(())
    }

    /// Comes by the nodes at the other ends of a node's arcs that are not shut.
    fn spread(&mut self, lists: &Lists, shut: &[usize], node: usize) -> Result<(), AllocError> {
        let mut by = slot_at(lists.first.as_slice(), node);
        for _ in 0..lists.next.len() {
            if by == 0 {
                break;
            }
            let k = by - 1;
            if slot_at(shut, k) == 0 && k < lists.to.len() {
                self.enter(lists.to[k])?;
            }
            by = slot_at(lists.next.as_slice(), k);
        }
        Ok(())
    }

    /// Goes from a node on over arcs that are not shut, forward or back.
    pub fn explore(
        &mut self,
        links: &Links,
        way: Way,
        shut: &[usize],
        start: usize,
    ) -> Result<(), AllocError> {
        let lists = match way {
            Way::Forward => &links.out,
            Way::Back => &links.into,
        };
        let nodes = lists.first.len();
        self.queue.clear();
        clear_slots(&mut self.marks, nodes)?;
        self.enter(start)?;
        for step in 0..nodes {
            if step >= self.queue.len() || self.queue.len() >= nodes {
                break;
            }
            let node = self.queue[step];
            self.spread(lists, shut, node)?;
        }
        Ok(())
    }

    /// Marks the other nodes instead.
    fn turn(&mut self) {
        for mark in self.marks.iter_mut() {
            *mark = if *mark == 0 { 1 } else { 0 };
        }
    }
}

/// For each arc, 1 where it could not be taken, and else 0.
fn shut_arcs(alloc: Global, literals: &[Atom], past: &Before) -> Result<Vec<usize>, AllocError>
    requires { All (λ i. i < length past.now.first) (atom_subjects literals.now) }
{
    let mut shut = Vec::new(alloc);
    shut.reserve(literals.len())?;
    for k in 0..literals.len() {
        let literal = literals[k];
        match past.truth(literal) {
            Truth::No => shut.push(1)?,
            _ => shut.push(0)?,
        }
    }
    Ok(shut)
}

/// From which node a walk goes on, and whether forward or back.
#[derive(Clone, Copy)]
pub struct Outset {
    pub start: usize,
    pub way: Way,
}

/// Nodes that no arc left that could be taken: those that the arcs led to from a node, or those from which they did not
/// lead there.
pub fn closed_nodes(
    alloc: Global,
    links: &Links,
    literals: &[Atom],
    past: &Before,
    from: Outset,
) -> Result<Reach, AllocError>
    requires { All (λ i. i < length past.now.first) (atom_subjects literals.now) }
{
    let shut = shut_arcs(alloc, literals, past)?;
    let mut reach = Reach::new(alloc);
    reach.explore(links, from.way, shut.as_slice(), from.start)?;
    if let Way::Back = from.way {
        reach.turn();
    }
    Ok(reach)
}
