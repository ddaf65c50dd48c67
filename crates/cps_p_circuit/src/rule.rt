//! The rule of circuits: degrees, chains and reachability, and the body itself once every literal is known.
//!
//! A look counts degrees, and then runs the finder and keeps those candidates whose claims are confirmed. Only where
//! both give nothing does it ask what reachability gives: a look that narrows something is followed by another. An explanation finds the same claim by
//! the hint and confirms it on the earlier domains. Both go through `show`: a claim becomes signs that clash (`clash`),
//! and these become facts that were true. A candidate that is not confirmed is dropped, which costs strength and not
//! truth. If all literals are known, a walk over the taken arcs decides.

ghost use Rattle.std.specs.Prelude.{◌≡◌, ◌<◌, Ok, OnOk, IfOk, All, true, length, Option};
ghost use Rattle.cps_instance.specs.declared.task.Body.TheVariants.{Circuit as CircuitOf};
ghost use Rattle.cps_instance.specs.Tasks.{atom_subjects};

use crate::build::graph_of;
use crate::clash::{Sign, Witness};
use crate::decided::{is_round, read_taken};
use crate::degrees::Degrees;
use crate::find::{Candidate, Finder, Seen};
use crate::graph::Graph;
use crate::hints::{Claim, Parting, Subtour, Way, claim_of, hint_of};
use crate::reach::{Links, Outset, closed_nodes};
use crate::shown::{FARTHEST, atom_of, keep};
use crate::tour::{Arcs, marks_from, tail_of};
use cps_enforce::Enforced;
use cps_instance::{Body, Task};
use cps_literal::{Atom, Truth};
use cps_propagate::push_atom_subjects;
use cps_rule::{Hint, Look, Narrowing, Rule};
use cps_trail::{Before, Store};
use std::alloc::{AllocError, Global};

/// The rule of a circuit.
pub struct Circuit {
    alloc: Global,
    graph: Graph,
    links: Links,
    literals: Vec<Atom>,
    taken: Vec<bool>,
    degrees: Degrees,
    finder: Finder,
}

// Written out, so that crates above do not prove it anew.
impl Drop for Circuit {
    fn drop(self) {
        let Circuit {
            alloc: _alloc,
            graph: _graph,
            links: _links,
            literals: _literals,
            taken: _taken,
            degrees: _degrees,
            finder: _finder,
        } = self;
    }
}

impl Circuit {
    ghost use Rattle.std.specs.Prelude.{◌≡◌, ◌<◌, Ok, OnOk, IfOk, IsTrue, All, true, None, length};
    ghost use Rattle.cps_instance.specs.Tasks.{atom_subjects};
    ghost use Rattle.cps_instance.specs.declared.task.Body.TheVariants.{Circuit as CircuitOf};
    ghost use Rattle.cps_rule.specs.Rules.{IsExplained, IsGiven, IsImpossible};
    ghost use Rattle.cps_p_circuit.specs.Clashes.{IsClashOf};
    ghost use Rattle.cps_p_circuit.specs.Counts.{AreTrue};
    ghost use Rattle.cps_p_circuit.specs.Showing.{IsShown, body_of, is_circuit_body};

    /// The rule of arcs between numbered nodes.
    pub fn new(
        alloc: Global,
        tails: &[i32],
        heads: &[i32],
        literals: &[Atom],
    ) -> Result<Self, AllocError>
        ensures { IfOk result (λ r. body_of r.graph r.literals.items ≡ CircuitOf tails.now heads.now literals.now) }
    {
        let graph = graph_of(alloc, tails, heads)?;
        let links = Links::of(alloc, &graph)?;
        Ok(Circuit {
            alloc,
            graph,
            links,
            literals: Vec::from_slice(alloc, literals)?,
            taken: Vec::new(alloc),
            degrees: Degrees::new(alloc),
            finder: Finder::new(alloc),
        })
    }

    /// The rule of a body that is `Circuit`.
    pub fn of_body(alloc: Global, body: &Body) -> Result<Self, AllocError>
        requires { IsTrue (is_circuit_body body.now) }
        ensures { IfOk result (λ r. body_of r.graph r.literals.items ≡ body.now) }
    {
        match body {
            Body::Circuit {
                tails,
                heads,
                literals,
            } => Circuit::new(
                alloc,
                tails.as_slice(),
                heads.as_slice(),
                literals.as_slice(),
            ),
            _ => unreachable!(),
        }
    }

    /// The propagator of a task whose body is `Circuit`.
    pub fn of(alloc: Global, task: &Task) -> Result<Enforced<Circuit>, AllocError>
        requires { IsTrue (is_circuit_body task.now.body) }
        ensures { IfOk result (λ propagator. propagator ≡ task.now) }
    {
        let rule = Circuit::of_body(alloc, &task.body)?;
        let propagator = Enforced::new(alloc, task.enforcement.as_slice(), rule)?;
        Ok(propagator)
    }

    /// Taken arcs that come back to where they began, while another node is on the circuit too.
    fn tour(
        &self,
        past: &Before,
        denied: Option<Atom>,
        subtour: Subtour,
        used: &mut Vec<Sign>,
    ) -> Result<bool, AllocError>
        requires { All (λ i. i < length past.now.first) (atom_subjects self.now.literals.items) }
        ensures { result ≡ Ok true → IsClashOf self.now.graph used.new.items }
    {
        let arcs = Arcs {
            graph: &self.graph,
            links: &self.links,
            literals: self.literals.as_slice(),
        };
        let marks = marks_from(self.alloc, &arcs, past, denied, subtour.arc)?;
        let inner = Witness {
            arc: subtour.arc,
            moves: true,
        };
        self.graph.cut(marks.as_slice(), inner, subtour.outer, used)
    }

    /// Nodes that no arc leaves which may be taken, between two nodes that are on the circuit.
    fn parted(
        &self,
        past: &Before,
        parting: &Parting,
        used: &mut Vec<Sign>,
    ) -> Result<bool, AllocError>
        requires { All (λ i. i < length past.now.first) (atom_subjects self.now.literals.items) }
        ensures { result ≡ Ok true → IsClashOf self.now.graph used.new.items }
    {
        let from = Outset {
            start: tail_of(&self.graph, parting.root.arc),
            way: parting.way,
        };
        let literals = self.literals.as_slice();
        let reach = closed_nodes(self.alloc, &self.links, literals, past, from)?;
        let (inner, outer) = match parting.way {
            Way::Forward => (parting.root, parting.other),
            Way::Back => (parting.other, parting.root),
        };
        self.graph.cut(reach.marks(), inner, outer, used)
    }

    /// Signs that leave no circuit, as a hint says.
    fn clash(
        &self,
        past: &Before,
        denied: Option<Atom>,
        hint: Hint,
        used: &mut Vec<Sign>,
    ) -> Result<bool, AllocError>
        requires { All (λ i. i < length past.now.first) (atom_subjects self.now.literals.items) }
        ensures { result ≡ Ok true → IsClashOf self.now.graph used.new.items }
    {
        match claim_of(hint) {
            Claim::TwoOut(i, j) => self.graph.two_out((i, j), used),
            Claim::TwoIn(i, j) => self.graph.two_in((i, j), used),
            Claim::NoneOut(node) => self.graph.none_out(node, used),
            Claim::NoneIn(node) => self.graph.none_in(node, used),
            Claim::Tour(subtour) => self.tour(past, denied, subtour, used),
            Claim::Parted(parting) => self.parted(past, &parting, used),
            Claim::Other => Ok(false),
        }
    }

    /// Replaces `facts` by those that make the body impossible, together with the atom `denied`, and `used` by the
    /// signs that clash.
    fn show(
        &self,
        past: &Before,
        denied: Option<Atom>,
        hint: Hint,
        used: &mut Vec<Sign>,
        facts: &mut Vec<Atom>,
    ) -> Result<bool, AllocError>
        requires { All (λ i. i < length past.now.first) (atom_subjects self.now.literals.items) }
        ensures { result ≡ Ok true
            → IsShown (body_of self.now.graph self.now.literals.items) past.now denied facts.new.items }
    {
        if !self.clash(past, denied, hint, used)? {
            return Ok(false);
        }
        keep(
            self.literals.as_slice(),
            past,
            denied,
            used.as_slice(),
            facts,
        )
    }

    /// Facts that give an atom.
    fn reason(
        &self,
        past: &Before,
        target: Atom,
        hint: Hint,
        used: &mut Vec<Sign>,
        facts: &mut Vec<Atom>,
    ) -> Result<bool, AllocError>
        requires { All (λ i. i < length past.now.first) (atom_subjects self.now.literals.items) }
        ensures { result ≡ Ok true
            → IsExplained (body_of self.now.graph self.now.literals.items) past.now target facts.new.items }
    {
        if target.value < -FARTHEST || target.value > FARTHEST {
            return Ok(false);
        }
        let denied = target.negate();
        self.show(past, Some(denied), hint, used, facts)
    }

    /// Adds a candidate that the body implies and that is not true yet.
    fn accept(
        &self,
        store: &Store,
        candidate: Candidate,
        used: &mut Vec<Sign>,
        facts: &mut Vec<Atom>,
        found: &mut Vec<Narrowing>,
    ) -> Result<(), AllocError>
        requires { All (λ i. i < length store.now.first) (atom_subjects self.now.literals.items) }
        ensures given { OnOk result (
            All (λ n. IsGiven (body_of self.now.graph self.now.literals.items) store.now n.target) found.old.items
            → All (λ n. IsGiven (body_of self.now.graph self.now.literals.items) store.now n.target) found.new.items) }
        ensures before { OnOk result (AreTrue store.now found.new.items → AreTrue store.now found.old.items) }
    {
        let Some(target) = atom_of(self.literals.as_slice(), candidate.sign) else {
            return Ok(());
        };
        match store.truth(target) {
            Truth::Yes => return Ok(()),
            _ => {}
        }
        let past = store.present();
        if !self.reason(&past, target, candidate.hint, used, facts)? {
            return Ok(());
        }
        found.push(Narrowing {
            target,
            hint: candidate.hint,
        })?;
        Ok(())
    }

    /// Adds what the candidates imply.
    fn gather(&self, store: &Store, found: &mut Vec<Narrowing>) -> Result<(), AllocError>
        requires { All (λ i. i < length store.now.first) (atom_subjects self.now.literals.items) }
        ensures given { OnOk result (
            All (λ n. IsGiven (body_of self.now.graph self.now.literals.items) store.now n.target) found.old.items
            → All (λ n. IsGiven (body_of self.now.graph self.now.literals.items) store.now n.target) found.new.items) }
        ensures before { OnOk result (AreTrue store.now found.new.items → AreTrue store.now found.old.items) }
    {
        let mut used = Vec::new(self.alloc);
        let mut facts = Vec::new(self.alloc);
        for k in 0..self.finder.candidates.len() {
            let candidate = self.finder.candidates[k];
            self.accept(store, candidate, &mut used, &mut facts, found)?;
        }
        Ok(())
    }

    /// Whether a hint shows that the body cannot hold.
    fn fails(&self, store: &Store, hint: Hint) -> Result<bool, AllocError>
        requires { All (λ i. i < length store.now.first) (atom_subjects self.now.literals.items) }
        ensures { result ≡ Ok true → IsImpossible (body_of self.now.graph self.now.literals.items) store.now }
    {
        let mut used = Vec::new(self.alloc);
        let mut facts = Vec::new(self.alloc);
        let past = store.present();
        self.show(&past, None, hint, &mut used, &mut facts)
    }
}

impl Rule for Circuit {
    ghost use Rattle.cps_instance.specs.declared.task.Body.{Body};
    ghost use Rattle.cps_p_circuit.specs.Showing.{body_of};

    ghost body = { λ r. body_of r.graph r.literals.items };

    fn look(&mut self, store: &Store, found: &mut Vec<Narrowing>) -> Result<Look, AllocError> {
        found.clear();
        let literals = self.literals.as_slice();
        self.degrees.count(&self.graph, literals, store)?;
        match self.degrees.lost() {
            Some(claim) => return Ok(Look::Impossible(hint_of(claim))),
            None => {}
        }
        self.degrees.exclude(&self.graph, literals, found)?;
        self.degrees.require(&self.graph, literals, found)?;
        let seen = Seen {
            graph: &self.graph,
            links: &self.links,
            degrees: &self.degrees,
        };
        self.finder.find(&seen)?;
        if let Some(hint) = self.finder.conflict {
            if self.fails(store, hint)? {
                return Ok(Look::Impossible(hint));
            }
        }
        let open = self.finder.open_one();
        if read_taken(self.literals.as_slice(), store, open, &mut self.taken)? {
            if is_round(self.alloc, &self.graph, self.taken.as_slice())? {
                return Ok(Look::Possible);
            }
            return Ok(Look::Impossible(hint_of(Claim::Other)));
        }
        self.gather(store, found)?;
        if !found.is_empty() {
            return Ok(Look::Possible);
        }
        let seen = Seen {
            graph: &self.graph,
            links: &self.links,
            degrees: &self.degrees,
        };
        self.finder.part(&seen)?;
        if let Some(hint) = self.finder.conflict {
            if self.fails(store, hint)? {
                return Ok(Look::Impossible(hint));
            }
        }
        self.gather(store, found)?;
        Ok(Look::Possible)
    }

    fn explain(
        &self,
        past: &Before,
        target: Atom,
        hint: Hint,
        facts: &mut Vec<Atom>,
    ) -> Result<bool, AllocError> {
        let mut used = Vec::new(self.alloc);
        self.reason(past, target, hint, &mut used, facts)
    }

    fn refute(&self, past: &Before, hint: Hint, facts: &mut Vec<Atom>) -> Result<bool, AllocError> {
        let mut used = Vec::new(self.alloc);
        self.show(past, None, hint, &mut used, facts)
    }

    fn push_subjects(&self, subjects: &mut Vec<u32>) -> Result<(), AllocError> {
        push_atom_subjects(self.literals.as_slice(), subjects)
    }
}
