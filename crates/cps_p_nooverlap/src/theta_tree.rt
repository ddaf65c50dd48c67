//! Theta trees and theta-lambda trees: when a set of jobs can be done at the earliest, one job after the other.
//!
//! A theta tree is a balanced tree whose leaves are jobs in the order of their earliest starts; it answers what the
//! jobs of a set come to. In a theta-lambda tree a job may be gray: it is not of the set, and the tree answers what the
//! set would come to with that one of the gray jobs which makes it end last.
//!
//! Nothing is proved but that each call is safe and ends. Where a sum does not fit, what comes out is of no use, and
//! does no harm.
//!
//! Source: Vilím, "Filtering Algorithms for the Unary Resource Constraint" (2008).

use crate::timeline::Timeline;
use std::alloc::{AllocError, Global};

/// When nothing ends.
const NEVER: i64 = i64::MIN;

/// More leaves than any list of jobs has.
const MOST_LEAVES: usize = 1 << 40;

/// What jobs come to.
#[derive(Clone, Copy)]
struct Node {
    /// How long they are in all.
    sum: i64,
    /// When they end at the earliest, one after the other.
    end: i64,
}

/// No jobs.
const EMPTY: Node = Node { sum: 0, end: NEVER };

/// When work that begins at `time` and takes `length`, which is not negative, ends; the greatest number where that does
/// not fit.
fn after(time: i64, length: i64) -> i64 {
    let end = time.wrapping_add(length);
    if end < time { i64::MAX } else { end }
}

impl Node {
    /// A job of the set.
    fn of(start: i64, length: i64) -> Node {
        Node {
            sum: length,
            end: after(start, length),
        }
    }

    /// These jobs and then others.
    fn then(self, later: Node) -> Node {
        Node {
            sum: after(self.sum, later.sum),
            end: later.end.max(after(self.end, later.sum)),
        }
    }
}

/// The number of leaves of a tree for `jobs` jobs.
fn leaves_for(jobs: usize) -> usize {
    jobs.min(MOST_LEAVES).next_power_of_two()
}

/// The node of `nodes` at an index, if there is one.
fn node_at(nodes: &[Node], index: usize) -> Node {
    match nodes.get(index) {
        Some(node) => *node,
        None => EMPTY,
    }
}

/// A node whose child at an index is `child`, and whose other child is beside it.
fn join(nodes: &[Node], index: usize, child: Node) -> Node {
    let sibling = node_at(nodes, index ^ 1);
    if index % 2 == 0 {
        child.then(sibling)
    } else {
        sibling.then(child)
    }
}

/// The set of a theta tree. Its memory is kept for the next set.
#[derive(Drop)]
pub(crate) struct ThetaTree {
    /// The root at 1, and below each node its two halves at twice its index.
    nodes: Vec<Node>,
    /// The index of the first leaf.
    base: usize,
    /// How many levels there are above the leaves.
    levels: u32,
}

impl ThetaTree {
    pub(crate) fn new(alloc: Global) -> Self {
        ThetaTree {
            nodes: Vec::new(alloc),
            base: 1,
            levels: 0,
        }
    }

    /// Makes room for `jobs` jobs, none of them in the set.
    pub(crate) fn clear(&mut self, jobs: usize) -> Result<(), AllocError> {
        self.base = leaves_for(jobs);
        self.levels = self.base.trailing_zeros();
        self.nodes.resize(self.base.wrapping_mul(2), EMPTY)?;
        for node in self.nodes.iter_mut() {
            *node = EMPTY;
        }
        Ok(())
    }

    fn set_node(&mut self, index: usize, node: Node) {
        if index < self.nodes.len() {
            self.nodes[index] = node;
        }
    }

    /// Adds a job.
    pub(crate) fn add(&mut self, leaf: usize, start: i64, length: i64) {
        let mut index = self.base.wrapping_add(leaf);
        let mut node = Node::of(start, length);
        self.set_node(index, node);
        for _ in 0..self.levels {
            node = join(self.nodes.as_slice(), index, node);
            index /= 2;
            self.set_node(index, node);
        }
    }

    /// Adds the jobs of a timeline that push others and start before `time` at the latest, in the order of their latest
    /// starts and from a turn on. Answers the first turn that is left.
    pub(crate) fn admit(&mut self, timeline: &Timeline, turn: usize, time: i64) -> usize {
        let order = timeline.by_latest_start.as_slice();
        for next in turn..order.len() {
            if time <= order[next].key {
                return next;
            }
            if let Some(job) = timeline.jobs.get(order[next].index) {
                if job.is_sure() {
                    self.add(job.leaf, job.earliest_start, job.length);
                }
            }
        }
        order.len()
    }

    /// When the jobs end at the earliest, one after the other.
    pub(crate) fn end(&self) -> i64 {
        node_at(self.nodes.as_slice(), 1).end
    }

    /// When they end without the one at a leaf.
    pub(crate) fn end_without(&self, leaf: usize) -> i64 {
        let nodes = self.nodes.as_slice();
        let mut index = self.base.wrapping_add(leaf);
        if node_at(nodes, index).sum == 0 {
            return self.end();
        }
        let mut node = EMPTY;
        for _ in 0..self.levels {
            node = join(nodes, index, node);
            index /= 2;
        }
        node.end
    }
}

/// What jobs come to, and gray ones beside them.
#[derive(Clone, Copy)]
struct GrayNode {
    set: Node,
    /// How long they are with that gray one which makes it most.
    gray_sum: i64,
    /// When they end with that gray one which makes it latest.
    gray_end: i64,
}

/// No jobs.
const BLANK: GrayNode = GrayNode {
    set: EMPTY,
    gray_sum: NEVER,
    gray_end: NEVER,
};

impl GrayNode {
    /// A job of the set.
    fn white(start: i64, length: i64) -> GrayNode {
        GrayNode {
            set: Node::of(start, length),
            gray_sum: NEVER,
            gray_end: NEVER,
        }
    }

    /// A gray job.
    fn gray(start: i64, length: i64) -> GrayNode {
        GrayNode {
            set: EMPTY,
            gray_sum: length,
            gray_end: after(start, length),
        }
    }

    /// These jobs and then others.
    fn then(self, later: GrayNode) -> GrayNode {
        let sum = after(self.gray_sum, later.set.sum);
        let end = after(self.gray_end, later.set.sum);
        GrayNode {
            set: self.set.then(later.set),
            gray_sum: sum.max(after(later.gray_sum, self.set.sum)),
            // Where there is no gray job and no set this is the sum of two NEVER, which does not fit.
            gray_end: later
                .gray_end
                .max(end)
                .max(later.gray_sum.saturating_add(self.set.end)),
        }
    }
}

/// The set of a theta-lambda tree, and its gray jobs. Its memory is kept for the next set.
#[derive(Drop)]
pub(crate) struct ThetaLambdaTree {
    /// As in a theta tree.
    nodes: Vec<GrayNode>,
    base: usize,
    levels: u32,
}

impl ThetaLambdaTree {
    pub(crate) fn new(alloc: Global) -> Self {
        ThetaLambdaTree {
            nodes: Vec::new(alloc),
            base: 1,
            levels: 0,
        }
    }

    fn node(&self, index: usize) -> GrayNode {
        match self.nodes.get(index) {
            Some(node) => *node,
            None => BLANK,
        }
    }

    fn set_node(&mut self, index: usize, node: GrayNode) {
        if index < self.nodes.len() {
            self.nodes[index] = node;
        }
    }

    /// Sums up the two halves of a node.
    fn sum_up(&mut self, index: usize) {
        let first = index.wrapping_mul(2);
        let node = self.node(first).then(self.node(first.wrapping_add(1)));
        self.set_node(index, node);
    }

    /// Puts a node at a leaf, and sums up again above it.
    fn set_leaf(&mut self, leaf: usize, node: GrayNode) {
        let mut index = self.base.wrapping_add(leaf);
        let mut node = node;
        self.set_node(index, node);
        for _ in 0..self.levels {
            let sibling = self.node(index ^ 1);
            node = if index % 2 == 0 {
                node.then(sibling)
            } else {
                sibling.then(node)
            };
            index /= 2;
            self.set_node(index, node);
        }
    }

    /// Fills the tree with the jobs of a timeline: those that push others make up the set, and the others that take
    /// time are gray. Answers how many jobs there are in the set.
    pub(crate) fn fill(&mut self, timeline: &Timeline) -> Result<usize, AllocError> {
        let jobs = timeline.jobs.as_slice();
        self.base = leaves_for(jobs.len());
        self.levels = self.base.trailing_zeros();
        self.nodes.resize(self.base.wrapping_mul(2), BLANK)?;
        for node in self.nodes.iter_mut() {
            *node = BLANK;
        }
        let mut count: usize = 0;
        for job in jobs {
            let index = self.base.wrapping_add(job.leaf);
            if job.is_sure() {
                count = count.wrapping_add(1);
                self.set_node(index, GrayNode::white(job.earliest_start, job.length));
            } else if job.length > 0 {
                self.set_node(index, GrayNode::gray(job.earliest_start, job.length));
            }
        }
        for index in (1..self.base).rev() {
            self.sum_up(index);
        }
        Ok(count)
    }

    /// Makes a job gray.
    pub(crate) fn make_gray(&mut self, leaf: usize, start: i64, length: i64) {
        self.set_leaf(leaf, GrayNode::gray(start, length));
    }

    /// Takes a job out.
    pub(crate) fn remove(&mut self, leaf: usize) {
        self.set_leaf(leaf, BLANK);
    }

    /// When the jobs of the set end at the earliest, one after the other.
    pub(crate) fn end(&self) -> i64 {
        self.node(1).set.end
    }

    /// The leaf of a gray job with which they end after a time, if there is one.
    pub(crate) fn gray_after(&self, time: i64) -> Option<usize> {
        if time < self.node(1).gray_end {
            Some(self.latest_gray())
        } else {
            None
        }
    }

    /// The leaf of the gray job that makes the set end last.
    fn latest_gray(&self) -> usize {
        let mut index: usize = 1;
        // Whether the gray job below the node is the one that makes it end last, or that which makes it longest.
        let mut is_last = true;
        for _ in 0..self.levels {
            let whole = self.node(index);
            let first = self.node(index.wrapping_mul(2));
            let second = self.node(index.wrapping_mul(2).wrapping_add(1));
            let sum = second.set.sum;
            index = index.wrapping_mul(2);
            if is_last {
                if whole.gray_end == second.gray_end {
                    index = index.wrapping_add(1);
                } else if whole.gray_end != after(first.gray_end, sum) {
                    index = index.wrapping_add(1);
                    is_last = false;
                }
            } else if whole.gray_sum != after(first.gray_sum, sum) {
                index = index.wrapping_add(1);
            }
        }
        index.wrapping_sub(self.base)
    }
}
