//! The finder: what chains and reachability may give, beside degrees.
//!
//! Nothing is proved of it but that it is safe and ends; the rule tests each candidate. One pass over the arcs notes
//! loops and open arcs; chains of taken arcs are then followed from their first nodes; a pass over open arcs proposes
//! what chains exclude. Where degrees and chains give nothing, two searches from a node that
//! is surely on the circuit find what it cannot reach and what cannot reach it: they are dear, and a look that narrowed
//! something is followed by another. Numbers are kept one higher, so that 0 stands for none, and reads past the end
//! give 0.

ghost use Rattle.std.specs.Prelude.{◌<◌, length};

use crate::clash::{Sign, Witness};
use crate::degrees::{Degree, Degrees};
use crate::graph::Graph;
use crate::hints::{Claim, Parting, Subtour, Way, hint_of};
use crate::reach::{Links, Reach};
use crate::tour::{clear_slots, head_of, set_slot, slot_at, tail_of};
use cps_literal::Truth;
use cps_rule::Hint;
use std::alloc::{AllocError, Global};

/// A literal that may be given.
#[derive(Clone, Copy)]
pub struct Candidate {
    pub sign: Sign,
    pub hint: Hint,
}

/// The arcs, and what was seen of them.
#[derive(Clone, Copy)]
pub struct Seen<'a> {
    pub graph: &'a Graph,
    pub links: &'a Links,
    pub degrees: &'a Degrees,
}

/// Arcs that show that their tails are on the circuit: one, and one whose tail is not on the same chain.
#[derive(Clone, Copy)]
struct Sure {
    one: Option<Witness>,
    label: usize,
    other: Option<Witness>,
}

const UNSURE: Sure = Sure {
    one: None,
    label: 0,
    other: None,
};

/// The buffers of a search.
#[derive(Drop)]
pub struct Finder {
    /// For each node, 1 more than a loop there that is taken or open.
    loops: Vec<usize>,
    /// For each arc, 1 where it is not taken.
    shut: Vec<usize>,
    /// The arcs that are open.
    open: Vec<usize>,
    /// For each node on a chain of taken arcs, 1 more than the chain's first node.
    label: Vec<usize>,
    /// For the last node of a chain, 1 more than its first node.
    first: Vec<usize>,
    sure: Sure,
    /// The nodes that a sure one leads to, and those that lead there.
    ahead: Reach,
    behind: Reach,
    pub candidates: Vec<Candidate>,
    pub conflict: Option<Hint>,
}

/// The arc that is taken at a place, numbered from 1; 0 where there is none.
fn taken_at(degrees: &[Degree], place: usize) -> usize {
    if place < degrees.len() {
        degrees[place].taken
    } else {
        0
    }
}

/// That an arc is not taken, by a claim.
fn untaken(arc: usize, claim: Claim) -> Candidate {
    Candidate {
        sign: Sign { arc, holds: false },
        hint: hint_of(claim),
    }
}

impl Finder {
    /// An empty finder.
    pub fn new(alloc: Global) -> Self {
        Finder {
            loops: Vec::new(alloc),
            shut: Vec::new(alloc),
            open: Vec::new(alloc),
            label: Vec::new(alloc),
            first: Vec::new(alloc),
            sure: UNSURE,
            ahead: Reach::new(alloc),
            behind: Reach::new(alloc),
            candidates: Vec::new(alloc),
            conflict: None,
        }
    }

    /// Notes where there are loops that are taken or open, and which arcs are not taken and which are open.
    fn note_all(&mut self, graph: &Graph, states: &[Truth]) -> Result<(), AllocError> {
        clear_slots(&mut self.loops, graph.nodes.len())?;
        let arcs = graph.arcs().min(states.len());
        clear_slots(&mut self.shut, arcs)?;
        self.open.clear();
        for k in 0..arcs {
            match states[k] {
                Truth::No => set_slot(&mut self.shut, k, 1),
                Truth::Yes => self.note_loop(graph, k),
                Truth::Undecided => {
                    self.note_loop(graph, k);
                    self.open.push(k)?;
                }
            }
        }
        Ok(())
    }

    /// Notes an arc that may be taken, if it is a loop.
    fn note_loop(&mut self, graph: &Graph, k: usize)
        requires tail { k < length graph.now.from.items }
        requires head { k < length graph.now.to.items }
    {
        let from = graph.tail(k);
        if from == graph.head(k) {
            set_slot(&mut self.loops, from, k.wrapping_add(1));
        }
    }

    /// The taken arc that leaves a node and is no loop, counted from 1; 0 where there is none.
    fn next_of(&self, seen: &Seen, node: usize) -> usize {
        let graph = seen.graph;
        let by = taken_at(seen.degrees.out.as_slice(), node);
        if by == 0 || head_of(graph, by - 1) == node {
            return 0;
        }
        by
    }

    /// Labels the nodes that taken arcs lead by from a node on, and answers with the last one.
    fn follow(&mut self, seen: &Seen, start: usize) -> usize {
        let graph = seen.graph;
        let mut node = start;
        for _ in 0..graph.nodes.len() {
            let by = self.next_of(seen, node);
            if slot_at(self.label.as_slice(), node) != 0 {
                break;
            }
            set_slot(&mut self.label, node, start.wrapping_add(1));
            if by == 0 {
                break;
            }
            node = head_of(graph, by - 1);
        }
        node
    }

    /// What shows that a node is on the circuit, if it surely is. That no loop is taken there comes first: where
    /// there is none, that needs no fact.
    fn witness(&self, seen: &Seen, node: usize) -> Option<Witness> {
        let any = slot_at(seen.links.first_out(), node);
        if any != 0 && slot_at(self.loops.as_slice(), node) == 0 {
            return Some(Witness {
                arc: any - 1,
                moves: false,
            });
        }
        let by = self.next_of(seen, node);
        if by == 0 {
            return None;
        }
        Some(Witness {
            arc: by - 1,
            moves: true,
        })
    }

    /// Keeps an arc whose tail is surely on the circuit.
    fn note_sure(&mut self, seen: &Seen, node: usize) {
        let Some(witness) = self.witness(seen, node) else {
            return;
        };
        let label = slot_at(self.label.as_slice(), node);
        if self.sure.one.is_none() {
            self.sure.one = Some(witness);
            self.sure.label = label;
        } else if label != self.sure.label {
            self.sure.other = Some(witness);
        }
    }

    /// An arc whose tail is surely on the circuit and not on a chain.
    fn outside(&self, label: usize) -> Option<Witness> {
        if self.sure.label == label {
            self.sure.other
        } else {
            self.sure.one
        }
    }

    /// Follows the chains of taken arcs from their first nodes on, then those that have none.
    fn follow_all(&mut self, seen: &Seen) -> Result<(), AllocError> {
        let nodes = seen.graph.nodes.len();
        clear_slots(&mut self.label, nodes)?;
        clear_slots(&mut self.first, nodes)?;
        self.sure = UNSURE;
        for v in 0..nodes {
            let entered = taken_at(seen.degrees.into.as_slice(), v);
            if entered == 0 && self.next_of(seen, v) != 0 {
                let last = self.follow(seen, v);
                set_slot(&mut self.first, last, v.wrapping_add(1));
            }
        }
        for v in 0..nodes {
            if slot_at(self.label.as_slice(), v) == 0 && self.next_of(seen, v) != 0 {
                let _ = self.follow(seen, v);
            }
        }
        for v in 0..nodes {
            self.note_sure(seen, v);
        }
        self.close_all(seen);
        Ok(())
    }

    /// Notes a conflict where a chain is closed and another node is on the circuit.
    fn close_all(&mut self, seen: &Seen) {
        for v in 0..seen.graph.nodes.len() {
            let by = self.next_of(seen, v);
            let own = slot_at(self.label.as_slice(), v);
            let entered = taken_at(seen.degrees.into.as_slice(), v);
            if by == 0 || entered == 0 || own != v.wrapping_add(1) {
                continue;
            }
            if let Some(outer) = self.outside(own) {
                self.conflict = Some(hint_of(Claim::Tour(Subtour { arc: by - 1, outer })));
            }
        }
    }

    /// That an open arc is not taken, if it closes a chain and another node is on the circuit.
    fn tour_exclusion_of(&self, seen: &Seen, k: usize) -> Option<Candidate> {
        let graph = seen.graph;
        let start = head_of(graph, k);
        let label = slot_at(self.first.as_slice(), tail_of(graph, k));
        let by = self.next_of(seen, start);
        if label == 0 || label - 1 != start || by == 0 {
            return None;
        }
        let outer = self.outside(label)?;
        Some(untaken(k, Claim::Tour(Subtour { arc: by - 1, outer })))
    }

    /// Sees that a node is parted from one that is surely on the circuit: if it is on the circuit too, that is a
    /// conflict, and else its loop is proposed.
    fn set_apart(
        &mut self,
        seen: &Seen,
        node: usize,
        way: Way,
        root: Witness,
    ) -> Result<(), AllocError> {
        if let Some(other) = self.witness(seen, node) {
            let parting = Parting { way, root, other };
            self.conflict = Some(hint_of(Claim::Parted(parting)));
            return Ok(());
        }
        let stay = slot_at(self.loops.as_slice(), node);
        if stay == 0 || taken_at(seen.degrees.out.as_slice(), node) != 0 {
            return Ok(());
        }
        let other = Witness {
            arc: stay - 1,
            moves: false,
        };
        self.candidates.push(Candidate {
            sign: Sign {
                arc: stay - 1,
                holds: true,
            },
            hint: hint_of(Claim::Parted(Parting { way, root, other })),
        })?;
        Ok(())
    }

    /// Looks at the nodes that a node which is surely on the circuit does not lead to, or that do not lead there, as
    /// `find` saw the arcs. The candidates are those alone.
    pub fn part(&mut self, seen: &Seen) -> Result<(), AllocError> {
        let graph = seen.graph;
        let links = seen.links;
        self.candidates.clear();
        self.conflict = None;
        let Some(root) = self.sure.one else {
            return Ok(());
        };
        let start = tail_of(graph, root.arc);
        let shut = self.shut.as_slice();
        self.ahead.explore(links, Way::Forward, shut, start)?;
        self.behind.explore(links, Way::Back, shut, start)?;
        for v in 0..graph.nodes.len() {
            if !self.ahead.has(v) {
                self.set_apart(seen, v, Way::Forward, root)?;
            } else if !self.behind.has(v) {
                self.set_apart(seen, v, Way::Back, root)?;
            }
        }
        Ok(())
    }

    /// Proposes which open arcs are not taken.
    fn exclude_all(&mut self, seen: &Seen) -> Result<(), AllocError> {
        for place in 0..self.open.len() {
            let k = slot_at(self.open.as_slice(), place);
            if let Some(candidate) = self.tour_exclusion_of(seen, k) {
                self.candidates.push(candidate)?;
            }
        }
        Ok(())
    }

    /// An arc that is open; 0 where there is none.
    pub fn open_one(&self) -> usize {
        slot_at(self.open.as_slice(), 0)
    }

    /// Looks for what chains give.
    pub fn find(&mut self, seen: &Seen) -> Result<(), AllocError> {
        self.candidates.clear();
        self.conflict = None;
        self.note_all(seen.graph, seen.degrees.states.as_slice())?;
        self.follow_all(seen)?;
        self.exclude_all(seen)
    }
}
