//! Windows of times that spans seem to use up.
//!
//! A span that lies in a window wherever it may be uses its least demand there for its whole length. Spans are let into
//! a tree in the order of their greatest ends, at leaves in the order of their least starts. A node keeps the energy of
//! the spans below it that were let in, and their envelope: the most that the capacity up to the least start of one of
//! them and the energy from that one on come to. Where the envelope of all passes the capacity up to the greatest end
//! of the span that came last, the window from that one's least start to this end is used up. A look so costs n log n.
//!
//! The tree is that of Vilim, "Timetable edge finding filtering algorithm for discrete cumulative resources" (2011) and
//! "Max energy filtering algorithm for discrete cumulative resources" (2009), section on overload checking. Its pushes
//! of ends are not made: a proposal is certified over all spans, which one look can pay for a conflict and not for each
//! span and window.
//!
//! Nothing is claimed here: what is found is certified before it is used.
ghost use Rattle.std.specs.Prelude.{◌<◌, length};
ghost use Rattle.cps_p_cumulative.specs.Running.{IsSpanOf, IsResourceOf};

use crate::measure::{are_true, least_end};
use crate::resource::Resource;
use crate::segments::time_of;
use cps_instance::Span;
use cps_rule::Hint;
use cps_trail::Before;
use std::alloc::{AllocError, Global};

/// The least start of a span, its greatest end, and what it uses between them at least.
#[derive(Clone, Copy)]
struct Job {
    from: i64,
    to: i64,
    energy: i128,
}

/// The energy of the jobs below a node that were let in, and their envelope.
#[derive(Clone, Copy)]
struct Node {
    energy: i128,
    envelope: i128,
}

/// A node below which no job was let in.
const EMPTY: Node = Node {
    energy: 0,
    envelope: -(1 << 125),
};

/// More levels than a tree has.
const LEVELS: usize = 64;

/// Room for the jobs in the order of their least starts, the places of these in the order of their greatest ends, and
/// the tree. The root stands at 1, and below the node at i stand those at 2 i and 2 i + 1.
#[derive(Drop)]
pub(crate) struct Energies {
    jobs: Vec<Job>,
    order: Vec<(i64, usize)>,
    nodes: Vec<Node>,
    leaves: usize,
}

/// The node above two.
fn joined(left: Node, right: Node) -> Node {
    Node {
        energy: left.energy.wrapping_add(right.energy),
        envelope: left.envelope.wrapping_add(right.energy).max(right.envelope),
    }
}

/// How long a span surely lasts.
fn least_length(past: &Before, span: &Span) -> i128
    requires { IsSpanOf past.now.first span.now }
{
    match span.length {
        Some(length) => i128::from(length),
        None => least_end(past, span).wrapping_sub(i128::from(past.ends(span.start).1)),
    }
}

/// The greatest end of a span.
fn greatest_end(past: &Before, span: &Span) -> i64
    requires { IsSpanOf past.now.first span.now }
{
    match span.length {
        Some(length) => time_of(i128::from(past.ends(span.start).1) + i128::from(length)),
        None => past.ends(span.end).1,
    }
}

impl Energies {
    /// No job.
    pub(crate) fn new(alloc: Global) -> Self {
        Energies {
            jobs: Vec::new(alloc),
            order: Vec::new(alloc),
            nodes: Vec::new(alloc),
            leaves: 0,
        }
    }

    /// Takes down a span that is surely there and uses something.
    fn take(&mut self, past: &Before, span: &Span, demand: u32) -> Result<(), AllocError>
        requires span { IsSpanOf past.now.first span.now }
        requires demand { demand < length past.now.first }
    {
        let least = i128::from(past.ends(demand).0);
        let energy = least.wrapping_mul(least_length(past, span));
        if least <= 0 || energy <= 0 || !are_true(past, span.presence.as_slice()) {
            return Ok(());
        }
        self.jobs.push(Job {
            from: past.ends(span.start).0,
            to: greatest_end(past, span),
            energy,
        })?;
        Ok(())
    }

    /// Brings the jobs into both orders.
    fn sort(&mut self) -> Result<(), AllocError> {
        self.jobs.sort_unstable_by_key(|job| job.from);
        self.order.clear();
        for (place, job) in self.jobs.as_slice().iter().enumerate() {
            self.order.push((job.to, place))?;
        }
        self.order.sort_unstable_by_key(|due| due.0);
        Ok(())
    }

    /// Takes down the spans of a resource, in both orders, and makes a tree without jobs.
    fn fill(&mut self, past: &Before, resource: &Resource) -> Result<(), AllocError>
        requires { IsResourceOf past.now.first resource.now }
    {
        self.jobs.clear();
        let spans = resource.spans.as_slice();
        let demands = resource.demands.as_slice();
        let count = spans.len().min(demands.len());
        for k in 0..count {
            self.take(past, &spans[k], demands[k])?;
        }
        self.sort()?;
        self.clear_tree()
    }

    /// Makes a tree with a leaf for each job.
    fn clear_tree(&mut self) -> Result<(), AllocError> {
        self.leaves = 1;
        for _ in 0..LEVELS {
            if self.leaves < self.jobs.len() {
                self.leaves = self.leaves.wrapping_mul(2);
            }
        }
        self.nodes.clear();
        for _ in 0..self.leaves.wrapping_mul(2) {
            self.nodes.push(EMPTY)?;
        }
        Ok(())
    }

    /// The node at a place; an empty one where there is none.
    fn node(&self, place: usize) -> Node {
        match self.nodes.as_slice().get(place) {
            Some(node) => *node,
            None => EMPTY,
        }
    }

    /// Puts a node at a place, if there is one.
    fn set_node(&mut self, place: usize, node: Node) {
        if place < self.nodes.len() {
            self.nodes[place] = node;
        }
    }

    /// Lets the job at a place in, where it is counted from its least start on.
    fn let_in(&mut self, place: usize, most: i128) {
        let job = match self.jobs.as_slice().get(place) {
            Some(job) => *job,
            None => return,
        };
        let mut at = self.leaves.wrapping_add(place);
        let leaf = Node {
            energy: job.energy,
            envelope: most
                .wrapping_mul(i128::from(job.from))
                .wrapping_add(job.energy),
        };
        self.set_node(at, leaf);
        for _ in 0..LEVELS {
            at /= 2;
            if at == 0 {
                return;
            }
            let left = self.node(at.wrapping_mul(2));
            let right = self.node(at.wrapping_mul(2).wrapping_add(1));
            self.set_node(at, joined(left, right));
        }
    }

    /// The last least start from which on the jobs that were let in pass a limit.
    fn first_of(&self, limit: i128) -> Option<i64> {
        let mut at: usize = 1;
        let mut later: i128 = 0;
        for _ in 0..LEVELS {
            if self.leaves <= at {
                break;
            }
            let right = self.node(at.wrapping_mul(2).wrapping_add(1));
            if limit < right.envelope.wrapping_add(later) {
                at = at.wrapping_mul(2).wrapping_add(1);
            } else {
                later = later.wrapping_add(right.energy);
                at = at.wrapping_mul(2);
            }
        }
        match self.jobs.as_slice().get(at.wrapping_sub(self.leaves)) {
            Some(job) => Some(job.from),
            None => None,
        }
    }

    /// A window where the spans of a resource seem to use more than there is: its first time, and its width.
    pub(crate) fn used_up(
        &mut self,
        past: &Before,
        resource: &Resource,
        most: i64,
    ) -> Result<Option<Hint>, AllocError>
        requires { IsResourceOf past.now.first resource.now }
    {
        self.fill(past, resource)?;
        let most = i128::from(most);
        for k in 0..self.order.len() {
            let (to, place) = match self.order.as_slice().get(k) {
                Some(due) => *due,
                None => return Ok(None),
            };
            self.let_in(place, most);
            let limit = most.wrapping_mul(i128::from(to));
            if limit < self.node(1).envelope {
                return match self.first_of(limit) {
                    Some(from) => Ok(Some(Hint {
                        a: from,
                        b: to.wrapping_sub(from),
                    })),
                    None => Ok(None),
                };
            }
        }
        Ok(None)
    }
}
