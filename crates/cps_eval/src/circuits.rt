//! Circuits. Each node is left once exactly where no two selected arcs leave one node and each node is among those
//! that are left, which a sort of the arcs' tails shows; and so for the heads. Then a walk from one arc that is no
//! loop, to the arc that leaves where it enters and so on, comes back to its start, and the arcs are a single circuit
//! exactly where it has come by all of them.
ghost use Rattle.std.specs.Prelude.{◌≡◌, ◌↔◌, ◌++◌, ◌<◌, ◌≢◌, ℤ, pos, IfOk, OnOk, IfSome, IsTrue, IsPermutation, IsSorted, MatchOption, All, Contains, length, map, count_by, int_le};
ghost use Rattle.std.specs.List.{list_all};
ghost use Rattle.std.specs.Ordering.{int_cmp, int_eq};
ghost use Rattle.cps_model.specs.Circuits.{selected, is_loop, moves, leaves, enters, IsCircuit};
ghost use Rattle.cps_model.specs.Ready.{are_named};
ghost use Rattle.cps_eval.specs.Walks.{LeaveApart, AreRising, EnterEach, AreSingle, LeavesAt, NoneLeaves, SeenFrom, IsNext};

use crate::numbers::is_listed;
use crate::values::literal_holds;
use cps_model::{Arc, is_rising};
use std::alloc::{AllocError, Global};

/// The arcs whose literals are true.
fn selected(
    alloc: Global,
    tails: &[i32],
    heads: &[i32],
    literals: &[i32],
    values: &[i64],
) -> Result<Vec<Arc>, AllocError>
    requires heads { length tails.now ≡ length heads.now }
    requires literals { length tails.now ≡ length literals.now }
    requires named { IsTrue (are_named values.now literals.now) }
    ensures { IfOk result (λ arcs. arcs.items ≡ selected values.now tails.now heads.now literals.now) }
{
    let mut arcs = Vec::new(alloc);
    for (k, tail) in tails.iter().enumerate() {
        if !literal_holds(literals[k], values) {
            continue;
        }
        arcs.push(Arc {
            tail: *tail,
            head: heads[k],
        })?;
    }
    Ok(arcs)
}

/// Adds the nodes at one end of arcs.
fn add_ends(nodes: &mut Vec<i64>, ends: &[i32]) -> Result<(), AllocError>
    ensures { OnOk result (nodes.new.items ≡ nodes.old.items ++ ends.now) }
{
    for end in ends {
        nodes.push(i64::from(*end))?;
    }
    Ok(())
}

/// The nodes: all ends of arcs.
fn nodes(alloc: Global, tails: &[i32], heads: &[i32]) -> Result<Vec<i64>, AllocError>
    ensures { IfOk result (λ nodes. nodes.items ≡ tails.now ++ heads.now) }
{
    let mut nodes = Vec::new(alloc);
    add_ends(&mut nodes, tails)?;
    add_ends(&mut nodes, heads)?;
    Ok(nodes)
}

/// The nodes that arcs leave.
fn tails_of(alloc: Global, arcs: &[Arc]) -> Result<Vec<i64>, AllocError>
    ensures { IfOk result (λ tails. tails.items ≡ map (λ arc. arc.tail) arcs.now) }
{
    let mut tails = Vec::new(alloc);
    for arc in arcs {
        tails.push(i64::from(arc.tail))?;
    }
    Ok(tails)
}

/// The nodes that arcs enter.
fn heads_of(alloc: Global, arcs: &[Arc]) -> Result<Vec<i64>, AllocError>
    ensures { IfOk result (λ heads. heads.items ≡ map (λ arc. arc.head) arcs.now) }
{
    let mut heads = Vec::new(alloc);
    for arc in arcs {
        heads.push(i64::from(arc.head))?;
    }
    Ok(heads)
}

/// Whether each number is in a sorted list.
fn are_listed(sorted: &[i64], numbers: &[i64]) -> bool
    requires { IsSorted int_cmp sorted.now }
    ensures { IsTrue result ↔ All (Contains sorted.now) numbers.now }
{
    for number in numbers {
        if !is_listed(sorted, *number) {
            return false;
        }
    }
    true
}

/// Whether each node stands once among the ends, which are nodes.
fn is_each_once(nodes: &[i64], mut ends: Vec<i64>) -> bool
    requires { All (Contains nodes.now) ends.items }
    ensures { IsTrue result ↔ All (λ node. count_by (λ end. int_eq end node) ends.items ≡ 1) nodes.now }
{
    ends.sort_unstable();
    if !is_rising(ends.as_slice()) {
        return false;
    }
    are_listed(ends.as_slice(), nodes)
}

/// Whether an arc is a loop.
fn is_loop(arc: &Arc) -> bool
    ensures { result ≡ is_loop arc.now }
{
    arc.tail == arc.head
}

/// The arcs that are no loops.
fn moves(alloc: Global, arcs: &[Arc]) -> Result<Vec<Arc>, AllocError>
    ensures { IfOk result (λ found. found.items ≡ moves arcs.now) }
{
    let mut found = Vec::new(alloc);
    for arc in arcs {
        if is_loop(arc) {
            continue;
        }
        found.push(*arc)?;
    }
    Ok(found)
}

/// Sorts arcs by the nodes that they leave.
fn sort_by_tail(arcs: &mut Vec<Arc>)
    requires { LeaveApart arcs.old.items }
    ensures rising { AreRising arcs.new.items }
    ensures moved { IsPermutation arcs.old.items arcs.new.items }
{
    arcs.sort_unstable_by_key(|arc| arc.tail);
}

/// The place of the arc that leaves a node.
fn place_of(arcs: &[Arc], node: i32) -> Option<usize>
    requires { AreRising arcs.now }
    ensures { MatchOption result (NoneLeaves arcs.now node) (λ k. LeavesAt arcs.now node k) }
{
    arcs.binary_search_by_key(&node, |arc| arc.tail).ok()
}

/// The place of the arc that leaves a node, where a walk has not come by it yet.
fn next_place(arcs: &[Arc], seen: &[bool], node: i32) -> Option<usize>
    requires rising { AreRising arcs.now }
    requires long { length seen.now ≡ length arcs.now }
    ensures { MatchOption result (SeenFrom arcs.now seen.now node) (λ k. IsNext arcs.now seen.now node k) }
{
    let k = place_of(arcs, node)?;
    if seen[k] {
        return None;
    }
    Some(k)
}

/// Whether all are true.
fn are_all_seen(seen: &[bool]) -> bool
    ensures { result ≡ list_all (λ b. b) seen.now }
{
    for one in seen {
        if !*one {
            return false;
        }
    }
    true
}

/// Whether a walk from the first arc, of arcs in order of the nodes that they leave, comes by all and back.
fn walk_closes(alloc: Global, arcs: &[Arc]) -> Result<bool, AllocError>
    requires some { 0 < length arcs.now }
    requires rising { AreRising arcs.now }
    requires entered { EnterEach arcs.now }
    ensures { IfOk result (λ answer. IsTrue answer ↔ AreSingle arcs.now) }
{
    let start = arcs[0].tail;
    let mut node = start;
    let mut seen = vec![in alloc; false; arcs.len()]?;
    while let Some(k) = next_place(arcs, seen.as_slice(), node) {
        seen[k] = true;
        node = arcs[k].head;
    }
    if node != start {
        return Ok(false);
    }
    Ok(are_all_seen(seen.as_slice()))
}

/// Whether arcs, of which no two leave one node and some enters each that another leaves, are none or a single circuit.
fn are_single(alloc: Global, mut arcs: Vec<Arc>) -> Result<bool, AllocError>
    requires apart { LeaveApart arcs.items }
    requires entered { EnterEach arcs.items }
    ensures { IfOk result (λ answer. IsTrue answer ↔ AreSingle arcs.items) }
{
    if arcs.is_empty() {
        return Ok(true);
    }
    sort_by_tail(&mut arcs);
    let answer = walk_closes(alloc, arcs.as_slice())?;
    Ok(answer)
}

/// Whether selected arcs, whose ends are nodes, leave and enter each node once, and are a single circuit but for loops.
pub fn is_circuit(alloc: Global, nodes: &[i64], arcs: &[Arc]) -> Result<bool, AllocError>
    requires tails { All (λ arc. Contains nodes.now arc.tail) arcs.now }
    requires heads { All (λ arc. Contains nodes.now arc.head) arcs.now }
    ensures { IfOk result (λ answer. IsTrue answer ↔ IsCircuit nodes.now arcs.now) }
{
    let tails = tails_of(alloc, arcs)?;
    if !is_each_once(nodes, tails) {
        return Ok(false);
    }
    let heads = heads_of(alloc, arcs)?;
    if !is_each_once(nodes, heads) {
        return Ok(false);
    }
    let moves = moves(alloc, arcs)?;
    let answer = are_single(alloc, moves)?;
    Ok(answer)
}

/// Whether the arcs whose literals are true leave and enter each node once, and are a single circuit but for loops.
pub fn have_circuit(
    alloc: Global,
    tails: &[i32],
    heads: &[i32],
    literals: &[i32],
    values: &[i64],
) -> Result<bool, AllocError>
    requires heads { length tails.now ≡ length heads.now }
    requires literals { length tails.now ≡ length literals.now }
    requires named { IsTrue (are_named values.now literals.now) }
    ensures { IfOk result (λ answer. IsTrue answer
        ↔ IsCircuit (tails.now ++ heads.now) (selected values.now tails.now heads.now literals.now)) }
{
    let nodes = nodes(alloc, tails, heads)?;
    let arcs = selected(alloc, tails, heads, literals, values)?;
    let answer = is_circuit(alloc, nodes.as_slice(), arcs.as_slice())?;
    Ok(answer)
}
