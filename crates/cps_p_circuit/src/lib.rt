//! The rule of circuits: each node has one taken arc in and one out, and the taken arcs that are no loops are one
//! circuit.
//!
//! What degrees give is proved whole (`degrees`): beside a taken arc the others at its ends are not taken, and the last
//! open arc of a node is. Beyond them a search of which nothing is proved but that it is safe and ends proposes
//! literals, each with a claim why arcs that differ from it are no circuit. The claim is tested: it becomes signs of arcs that leave no circuit (`clash`),
//! and these become facts that were true (`shown`). A look, an explanation and a refutation go by the same test.
//! Proposed are
//!
//! - that no chain of taken arcs closes while a node elsewhere is surely on the circuit;
//! - what reachability gives: from a node that is surely on the circuit, arcs that may be taken lead to each other node
//!   of the circuit, and back. A node that they do not lead to, or from, takes its loop, and where it cannot, that is a
//!   conflict. The explanation is the cut: the arcs that leave the nodes on one side, none of which is taken.
//!
//! `Graph::cut` tests the claim of a set of nodes that no taken arc leaves, for subtours and for reachability. Where
//! each literal is known, the circuit itself is evaluated by a walk.
//!
//! Caseau and Laburthe, "Solving small TSPs with constraints" (1997), have the rule that no chain closes early.
//! Francis and Stuckey, "Explaining circuit propagation" (2014), have the checks of reachability and how both are
//! explained.
#![tactic(auto)]

mod build;
mod clash;
mod decided;
mod degrees;
mod find;
mod graph;
mod hints;
mod numbers;
mod reach;
mod rule;
mod shown;
mod tour;

pub use rule::Circuit;
