//! Clashes: signs of some arcs (each is taken, or is not) with which no circuit exists.
//!
//! Every claim of the finder comes here and is tested before it is used. There are three forms: two taken arcs at one
//! end of a node, no taken arc there, and a set of nodes that no taken arc leaves although a node inside and one
//! outside are on the circuit (`cut`). The last serves subtours and reachability alike. What is proved is only that
//! signs that pass a test leave no circuit, so the finder may be changed without a proof.

ghost use Rattle.std.specs.Prelude.{◌≡◌, ◌≤◌, ◌<◌, min, length, Ok, IfOk, OnOk, true};
ghost use Rattle.cps_p_circuit.specs.Clashes.{IsClashOf, IsClashingPair, IsDeserted, IsOnTour, AreChosen, NoneLeadsOut, GrowsSigns};

use crate::graph::Graph;
use std::alloc::AllocError;

/// Whether an arc is taken.
#[derive(Clone, Copy)]
pub struct Sign {
    pub arc: usize,
    pub holds: bool,
}

/// What shows that an arc's tail is on the circuit: that the arc is taken and no loop, or that no loop there is taken.
#[derive(Clone, Copy)]
pub struct Witness {
    pub arc: usize,
    pub moves: bool,
}

/// Two arcs that have one end and are both taken.
fn push_two(
    ends: &[usize],
    arcs: usize,
    pair: (usize, usize),
    used: &mut Vec<Sign>,
) -> Result<bool, AllocError>
    requires { arcs ≤ length ends.now }
    ensures { result ≡ Ok true → IsClashingPair ends.now arcs pair.0 pair.1 used.new.items }
{
    let (i, j) = pair;
    if i >= arcs || j >= arcs || i == j || ends[i] != ends[j] {
        return Ok(false);
    }
    used.clear();
    used.push(Sign {
        arc: i,
        holds: true,
    })?;
    used.push(Sign {
        arc: j,
        holds: true,
    })?;
    Ok(true)
}

/// No arc that has a node for its end is taken.
fn push_none(
    ends: &[usize],
    arcs: usize,
    node: usize,
    used: &mut Vec<Sign>,
) -> Result<(), AllocError>
    requires { arcs ≤ length ends.now }
    ensures { OnOk result (IsDeserted ends.now arcs node used.new.items) }
{
    used.clear();
    for j in 0..arcs {
        if ends[j] != node {
            continue;
        }
        used.push(Sign {
            arc: j,
            holds: false,
        })?;
    }
    Ok(())
}

impl Graph {
    ghost use Rattle.std.specs.Prelude.{◌≡◌, ◌≤◌, ◌<◌, min, length, Ok, IfOk, true};
    ghost use Rattle.cps_p_circuit.specs.Clashes.{IsClashOf, IsOnTour, AreChosen, NoneLeadsOut, GrowsSigns};

    /// Two arcs are taken that leave one node.
    pub fn two_out(&self, pair: (usize, usize), used: &mut Vec<Sign>) -> Result<bool, AllocError>
        ensures { result ≡ Ok true → IsClashOf self.now used.new.items }
    {
        push_two(self.from.as_slice(), self.arcs(), pair, used)
    }

    /// Two arcs are taken that enter one node.
    pub fn two_in(&self, pair: (usize, usize), used: &mut Vec<Sign>) -> Result<bool, AllocError>
        ensures { result ≡ Ok true → IsClashOf self.now used.new.items }
    {
        push_two(self.to.as_slice(), self.arcs(), pair, used)
    }

    /// No arc is taken that leaves a node.
    pub fn none_out(&self, node: usize, used: &mut Vec<Sign>) -> Result<bool, AllocError>
        ensures { result ≡ Ok true → IsClashOf self.now used.new.items }
    {
        if node >= self.nodes.len() {
            return Ok(false);
        }
        push_none(self.from.as_slice(), self.arcs(), node, used)?;
        Ok(true)
    }

    /// No arc is taken that enters a node.
    pub fn none_in(&self, node: usize, used: &mut Vec<Sign>) -> Result<bool, AllocError>
        ensures { result ≡ Ok true → IsClashOf self.now used.new.items }
    {
        if node >= self.nodes.len() {
            return Ok(false);
        }
        push_none(self.to.as_slice(), self.arcs(), node, used)?;
        Ok(true)
    }

    /// Adds what no loop at an arc's tail being taken says.
    fn push_stay(&self, k: usize, used: &mut Vec<Sign>) -> Result<(), AllocError>
        requires { k < min (length self.now.from.items) (length self.now.to.items) }
        ensures grows { IfOk result (λ u. GrowsSigns used.old.items used.new.items) }
        ensures sure { IfOk result (λ u. IsOnTour self.now.from.items self.now.to.items
            (min (length self.now.from.items) (length self.now.to.items)) k used.new.items) }
    {
        let node = self.tail(k);
        for j in 0..self.arcs() {
            if self.tail(j) != node || self.head(j) != node {
                continue;
            }
            used.push(Sign {
                arc: j,
                holds: false,
            })?;
        }
        Ok(())
    }

    /// Adds what shows that a node is on the circuit.
    fn push_witness(&self, witness: Witness, used: &mut Vec<Sign>) -> Result<bool, AllocError>
        ensures grows { IfOk result (λ u. GrowsSigns used.old.items used.new.items) }
        ensures sure { result ≡ Ok true → IsOnTour self.now.from.items self.now.to.items
            (min (length self.now.from.items) (length self.now.to.items)) witness.arc used.new.items }
    {
        let k = witness.arc;
        if k >= self.arcs() {
            return Ok(false);
        }
        if !witness.moves {
            self.push_stay(k, used)?;
            return Ok(true);
        }
        if self.tail(k) == self.head(k) {
            return Ok(false);
        }
        used.push(Sign {
            arc: k,
            holds: true,
        })?;
        Ok(true)
    }

    /// Adds that the arcs that marked nodes are taken.
    fn push_chosen(&self, via: &[usize], used: &mut Vec<Sign>) -> Result<bool, AllocError>
        requires { length via.now ≡ length self.now.nodes.items }
        ensures grows { IfOk result (λ u. GrowsSigns used.old.items used.new.items) }
        ensures chosen { result ≡ Ok true → AreChosen self.now.from.items self.now.to.items
            (min (length self.now.from.items) (length self.now.to.items)) via.now used.new.items (length via.now) }
    {
        for v in 0..via.len() {
            if via[v] < 2 {
                continue;
            }
            let k = via[v] - 2;
            if k >= self.arcs() || self.tail(k) != v {
                return Ok(false);
            }
            let target = self.head(k);
            if via[target] == 0 {
                return Ok(false);
            }
            used.push(Sign {
                arc: k,
                holds: true,
            })?;
        }
        Ok(true)
    }

    /// Adds that no arc is taken out of the nodes that are marked by 1.
    fn push_left(&self, via: &[usize], used: &mut Vec<Sign>) -> Result<(), AllocError>
        requires { length via.now ≡ length self.now.nodes.items }
        ensures grows { IfOk result (λ u. GrowsSigns used.old.items used.new.items) }
        ensures left { IfOk result (λ u. NoneLeadsOut self.now.from.items self.now.to.items via.now used.new.items
            (min (length self.now.from.items) (length self.now.to.items))) }
    {
        for k in 0..self.arcs() {
            if via[self.tail(k)] != 1 || via[self.head(k)] != 0 {
                continue;
            }
            used.push(Sign {
                arc: k,
                holds: false,
            })?;
        }
        Ok(())
    }

    /// Nodes are marked, and no arc that may be taken leads out of them, but of two nodes that are on the circuit one
    /// is marked.
    pub fn cut(
        &self,
        via: &[usize],
        inner: Witness,
        outer: Witness,
        used: &mut Vec<Sign>,
    ) -> Result<bool, AllocError>
        ensures { result ≡ Ok true → IsClashOf self.now used.new.items }
    {
        used.clear();
        if via.len() != self.nodes.len() {
            return Ok(false);
        }
        if !self.push_witness(inner, used)? {
            return Ok(false);
        }
        if !self.push_witness(outer, used)? {
            return Ok(false);
        }
        let inside = self.tail(inner.arc);
        let outside = self.tail(outer.arc);
        if via[inside] == 0 || via[outside] != 0 {
            return Ok(false);
        }
        if !self.push_chosen(via, used)? {
            return Ok(false);
        }
        self.push_left(via, used)?;
        Ok(true)
    }
}
