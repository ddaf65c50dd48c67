//! Numbers of nodes in order, and the places of arcs' ends among them.

ghost use Rattle.std.specs.Prelude.{◌≡◌, ◌<◌, IfOk, All, Contains, map, length};
ghost use Rattle.cps_p_circuit.specs.Graphs.{number};

use crate::graph::Graph;
use crate::numbers::{make_distinct, place_in};
use std::alloc::{AllocError, Global};

/// The places of numbers in a list that has them.
fn places_of(alloc: Global, nodes: &[i32], ends: &[i32]) -> Result<Vec<usize>, AllocError>
    requires { All (Contains nodes.now) ends.now }
    ensures within { IfOk result (λ places. All (λ v. v < length nodes.now) places.items) }
    ensures are { IfOk result (λ places. map (number nodes.now) places.items ≡ ends.now) }
{
    let mut places = Vec::new(alloc);
    for end in ends {
        places.push(place_in(nodes, *end))?;
    }
    Ok(places)
}

/// The arcs between numbered nodes.
pub fn graph_of(alloc: Global, tails: &[i32], heads: &[i32]) -> Result<Graph, AllocError>
    ensures tails { IfOk result (λ g. map (number g.nodes.items) g.from.items ≡ tails.now) }
    ensures heads { IfOk result (λ g. map (number g.nodes.items) g.to.items ≡ heads.now) }
{
    let mut nodes = Vec::from_slice(alloc, tails)?;
    nodes.extend_from_slice(heads)?;
    make_distinct(&mut nodes);
    let from = places_of(alloc, nodes.as_slice(), tails)?;
    let to = places_of(alloc, nodes.as_slice(), heads)?;
    Ok(Graph { nodes, from, to })
}
