//! Which atoms of a clause its others imply through reasons.
//!
//! An atom goes where the reason of the entry that refutes it has, beside the entry's atom, only atoms that are false
//! at level 0, that imply another atom of the clause, or that go so in their turn. That is the recursive minimisation
//! of Sörensson and Biere, "Minimizing Learned Clauses" (2009), section 2, over an explicit stack, with marks that are
//! kept over the atoms of one clause, after Van Gelder, "Improved Conflict-Clause Minimization Leads to Improved
//! Propositional Proof Traces" (2009): each reason is asked for once, and what failed is not looked at again. As in
//! MiniSat, an entry of a level at which no atom of the clause fell is taken to lead elsewhere. The search may give up
//! where it likes: it only proposes, and what is proved is what each mark says.
//!
//! An atom may imply one of the clause that fell later than it. So a mark says after how many entries all those were
//! false that its entry leads to, and an atom goes only for ones that fell before it: no two go for each other. An
//! atom that falls with an entry whose atom alone does not refute it stays.

ghost use Rattle.std.specs.Prelude.{ℕ, ℤ, List, ◌≡◌, ◌≢◌, ◌≤◌, ◌<◌, ◌++◌, ◌∷◌, [], length};
ghost use Rattle.std.specs.Prelude.{OnOk, IfOk, IfSome, IsTrue, Ok, true};
ghost use Rattle.std.specs.List.{All, Contains};
ghost use Rattle.cps_trail.specs.Notes.{AllFit};
ghost use Rattle.cps_trail.specs.Trail.{IsFalseNow};

use crate::levels::later;
use crate::reason::fetch;
use crate::resolvent::{Fallen, Resolvent};
use cps_literal::Atom;
use cps_trail::{Explain, ReasonView, Store};
use std::alloc::{AllocError, Global};

/// The most steps that are taken for one atom. (CaDiCaL limits the depth instead, to 1,000.)
const STEPS: usize = 1 << 16;

/// Levels are told apart by their remainder by this many.
const BITS: usize = 64;

/// The mark of an entry of an earlier level whose reason was asked for. It says: where the entry's atom is not true,
/// one of the atoms that are still to be looked at is true, or one of the clause.
#[derive(Clone, Copy)]
pub(crate) struct Node {
    /// The number of the entry.
    place: usize,
    /// The negation of its atom.
    denied: Atom,
    /// The first atom that is still to be looked at.
    next: usize,
    /// Where those of its reason end.
    end: usize,
    /// After how many entries all atoms of the clause were false that it was found to lead to.
    latest: usize,
    /// Whether it leads elsewhere.
    failed: bool,
}

/// What an atom of a reason leads to.
#[derive(Clone, Copy)]
pub(crate) enum Look {
    /// To the clause: to atoms of it that were all false after this number of entries.
    Back(usize),
    /// To the last entry among this number of first ones, whose reason is to be looked at.
    On(usize),
    /// Elsewhere.
    Away,
}

/// The search, in room that is kept.
#[derive(Drop)]
pub(crate) struct Minimiser {
    /// The clause's atom of the present level.
    assert: Atom,
    nodes: Vec<Node>,
    /// The atoms of their reasons that are still to be looked at, one node's after another's.
    pending: Vec<Fallen>,
    /// For each entry the number of its node, if it has one. The list is not cleared for a new clause: a number that an
    /// earlier clause left names a node of another entry, or none.
    node_of: Vec<usize>,
    /// The nodes from the atom that is asked for to the one that is looked at.
    path: Vec<usize>,
    /// The reason that was asked for last.
    reason: Vec<Atom>,
    /// The levels at which atoms of the clause fell, each as a bit.
    levels: u64,
}

/// A level as a bit.
fn bit_of(level: usize) -> u64 {
    1 << (level % BITS)
}

/// The level of the entry that ends the first `count` as a bit, or none.
fn level_before(store: &Store, count: usize) -> u64 {
    if count == 0 {
        return 0;
    }
    match store.entries().get(count - 1) {
        Some(entry) => bit_of(entry.level),
        None => 0,
    }
}

impl Minimiser {
    ghost use Rattle.cps_literal.specs.Truth.{atom_holds};
    ghost use Rattle.cps_conflict.specs.Conflicts.{AreTrueReasons};
    ghost use Rattle.cps_conflict.specs.Drafts.{IsDraft, IsRedundant, Collects};
    ghost use Rattle.cps_conflict.specs.Nodes.{AreNodes, AreNodesAt, Carries, PassesAtoms, Traces, ExtendsPending, IsBack, IsLook};
    ghost use Rattle.cps_conflict.specs.declared.resolvent.Fallen.{Fallen as FallenOf};

    /// A search with no room yet.
    pub(crate) fn new(alloc: Global) -> Self {
        Minimiser {
            assert: Atom::default(),
            nodes: Vec::new(alloc),
            pending: Vec::new(alloc),
            node_of: Vec::new(alloc),
            path: Vec::new(alloc),
            reason: Vec::new(alloc),
            levels: 0,
        }
    }

    /// Begins anew, for a clause whose atom of the present level is given.
    pub(crate) fn reset(
        &mut self,
        resolvent: &Resolvent,
        store: &Store,
        assert: Atom,
    ) -> Result<(), AllocError>
        ensures nodes { OnOk result (self.new.nodes.items ≡ []) }
        ensures assert { OnOk result (self.new.assert ≡ assert) }
    {
        self.assert = assert;
        self.nodes.clear();
        self.pending.clear();
        self.levels = 0;
        for fallen in resolvent.earlier() {
            self.levels |= level_before(store, fallen.from);
        }
        let count = store.entries().len();
        if self.node_of.len() < count {
            self.node_of.resize(count, 0)?;
        }
        Ok(())
    }

    /// The node of an entry.
    fn node(&self, place: usize) -> Option<Node>
        ensures { IfSome result (Contains self.now.nodes.items) }
    {
        let index = self.node_of.get(place)?;
        let node = self.nodes.get(*index)?;
        if node.place == place {
            Some(*node)
        } else {
            None
        }
    }

    /// If an atom was found to lead back to the clause: after how many entries all its atoms were false to which it
    /// leads.
    fn led_to(&self, fallen: Fallen) -> Option<usize>
        ensures { IfSome result (λ latest. (earlier : List FallenOf) (a : List ℤ) → AreNodesAt earlier a self.now
            → atom_holds a fallen.atom ≡ true → IsBack a earlier self.now.assert latest) }
    {
        if fallen.from == 0 {
            return None;
        }
        let node = self.node(fallen.from - 1)?;
        if node.failed || node.next < node.end || !fallen.atom.implies(node.denied) {
            return None;
        }
        Some(node.latest)
    }

    /// How far a node's atoms are known to lead back, and after how many entries all were false to which they lead.
    fn passed(&self, node: Node) -> (usize, usize)
        requires { node.next ≤ node.end }
        ensures { PassesAtoms self.now node result }
    {
        let pending = self.pending.as_slice();
        let mut latest = node.latest;
        for index in node.next..node.end {
            if index >= pending.len() {
                return (index, latest);
            }
            let Some(other) = self.led_to(pending[index]) else {
                return (index, latest);
            };
            latest = later(latest, other);
        }
        (node.end, latest)
    }

    /// Passes over the atoms of a node that are known to lead back, and answers the next.
    fn pass(&mut self, top: usize) -> Option<Fallen>
        ensures { Carries self.old self.new }
    {
        let nodes = self.nodes.as_slice();
        if top >= nodes.len() {
            return None;
        }
        let node = nodes[top];
        if node.next >= node.end {
            return None;
        }
        let (next, latest) = self.passed(node);
        self.nodes[top] = Node {
            next,
            latest,
            ..node
        };
        if next < node.end {
            return self.pending.get(next).copied();
        }
        None
    }

    /// Marks the nodes of the path as leading elsewhere.
    fn fail(&mut self)
        ensures { Carries self.old self.new }
    {
        while let Some(index) = self.path.pop() {
            if index < self.nodes.len() {
                self.nodes[index].failed = true;
            }
        }
    }

    /// Whether an atom may lead back, as far as can be told without its reason.
    fn may_lead(&self, store: &Store, fallen: Fallen) -> bool
        ensures { IsTrue result → (0 < fallen.from) × (fallen.from ≤ length store.now.entries) }
    {
        if fallen.from == 0 {
            return false;
        }
        let Some(entry) = store.entries().get(fallen.from - 1) else {
            return false;
        };
        if entry.reason == ReasonView::Decision || self.levels & bit_of(entry.level) == 0 {
            return false;
        }
        match self.node(fallen.from - 1) {
            Some(node) => !node.failed,
            None => true,
        }
    }

    /// What an atom of a reason leads to.
    fn look(&self, resolvent: &Resolvent, store: &Store, atom: Atom) -> Look
        requires draft { IsDraft store.now resolvent.now }
        requires subject { atom.subject < length store.now.first }
        requires false_now { IsFalseNow store.now atom }
        ensures { IsLook store.now resolvent.now.earlier self.now.assert atom result }
    {
        if atom.implies(self.assert) {
            return Look::Back(0);
        }
        if let Some(from) = resolvent.first_implied(atom) {
            return Look::Back(from);
        }
        let from = store.falsified(atom);
        if resolvent.is_bottom(from) {
            return Look::Back(0);
        }
        if !self.may_lead(store, Fallen { atom, from }) {
            return Look::Away;
        }
        Look::On(from)
    }

    /// Adds the atoms of the reason that are still to be looked at, and answers after how many entries all those atoms
    /// of the clause were false to which the others lead; `None` if one leads elsewhere.
    fn trace(
        &mut self,
        resolvent: &Resolvent,
        store: &Store,
        entry: Atom,
    ) -> Result<Option<usize>, AllocError>
        requires draft { IsDraft store.now resolvent.now }
        requires subjects { All (λ t. t.subject < length store.now.first) self.old.reason.items }
        requires false_now { All (λ t. t ≢ entry → IsFalseNow store.now t) self.old.reason.items }
        ensures assert { OnOk result (self.new.assert ≡ self.old.assert) }
        ensures nodes { OnOk result (self.new.nodes ≡ self.old.nodes) }
        ensures grows { OnOk result (ExtendsPending self.old.pending.items self.new.pending.items) }
        ensures traces { IfOk result (λ traced. IfSome traced (λ latest. Traces store.now resolvent.now.earlier
            self.old entry self.new.pending.items latest self.old.reason.items)) }
    {
        let mut latest = 0;
        for index in 0..self.reason.len() {
            let atom = self.reason[index];
            if atom == entry {
                continue;
            }
            match self.look(resolvent, store, atom) {
                Look::Back(from) => {
                    latest = later(latest, from);
                }
                Look::On(from) => {
                    self.pending.push(Fallen { atom, from })?;
                }
                Look::Away => {
                    return Ok(None);
                }
            }
        }
        Ok(Some(latest))
    }

    /// Adds a node at the end of the path.
    fn add(&mut self, node: Node) -> Result<(), AllocError>
        ensures nodes { OnOk result (self.new.nodes.items ≡ self.old.nodes.items ++ node ∷ []) }
        ensures pending { self.new.pending ≡ self.old.pending }
        ensures assert { self.new.assert ≡ self.old.assert }
    {
        let index = self.nodes.len();
        self.nodes.push(node)?;
        self.path.push(index)?;
        if let Some(slot) = self.node_of.get_mut(node.place) {
            *slot = index;
        }
        Ok(())
    }

    /// Asks for the reason of the entry with which an atom fell, and takes it to the end of the path. Answers false
    /// where that does not lead back, or was asked for already.
    fn enter<E: Explain>(
        &mut self,
        resolvent: &Resolvent,
        store: &Store,
        explain: &E,
        fallen: Fallen,
    ) -> Result<bool, AllocError>
        requires draft { IsDraft store.now resolvent.now }
        requires fits { AllFit (E.fits explain.now) store.now }
        requires nodes { AreNodes (AreTrueReasons
            (E.makes explain.now store.now) store.now) store.now resolvent.now.earlier self.old }
        ensures nodes { OnOk result (AreNodes
            (AreTrueReasons (E.makes explain.now store.now) store.now) store.now resolvent.now.earlier self.new) }
        ensures assert { OnOk result (self.new.assert ≡ self.old.assert) }
    {
        if !self.may_lead(store, fallen) {
            return Ok(false);
        }
        let place = fallen.from - 1;
        if self.node(place).is_some() {
            return Ok(false);
        }
        let entry = store.entries()[place].atom;
        let denied = entry.negate();
        if !fallen.atom.implies(denied) {
            return Ok(false);
        }
        if !fetch(explain, store, place, &mut self.reason)? {
            return Ok(false);
        }
        let next = self.pending.len();
        let traced = self.trace(resolvent, store, entry)?;
        let node = Node {
            place,
            denied,
            next,
            end: self.pending.len(),
            latest: 0,
            failed: true,
        };
        let Some(latest) = traced else {
            self.add(node)?;
            return Ok(false);
        };
        self.add(Node {
            latest,
            failed: false,
            ..node
        })?;
        Ok(true)
    }

    /// One step from the end of the path: on to an atom's entry, or back from one whose atoms were all passed. Answers
    /// false where there is none.
    fn step<E: Explain>(
        &mut self,
        resolvent: &Resolvent,
        store: &Store,
        explain: &E,
    ) -> Result<bool, AllocError>
        requires draft { IsDraft store.now resolvent.now }
        requires fits { AllFit (E.fits explain.now) store.now }
        requires nodes { AreNodes (AreTrueReasons
            (E.makes explain.now store.now) store.now) store.now resolvent.now.earlier self.old }
        ensures nodes { OnOk result (AreNodes
            (AreTrueReasons (E.makes explain.now store.now) store.now) store.now resolvent.now.earlier self.new) }
        ensures assert { OnOk result (self.new.assert ≡ self.old.assert) }
    {
        let Some(top) = self.path.last().copied() else {
            return Ok(false);
        };
        let Some(other) = self.pass(top) else {
            self.path.pop();
            return Ok(true);
        };
        let goes_on = self.enter(resolvent, store, explain, other)?;
        Ok(goes_on)
    }

    /// Looks where an atom leads, from reason to reason. If that ends early, the path has failed.
    fn walk<E: Explain>(
        &mut self,
        resolvent: &Resolvent,
        store: &Store,
        explain: &E,
        fallen: Fallen,
    ) -> Result<(), AllocError>
        requires draft { IsDraft store.now resolvent.now }
        requires fits { AllFit (E.fits explain.now) store.now }
        requires nodes { AreNodes (AreTrueReasons
            (E.makes explain.now store.now) store.now) store.now resolvent.now.earlier self.old }
        ensures nodes { OnOk result (AreNodes
            (AreTrueReasons (E.makes explain.now store.now) store.now) store.now resolvent.now.earlier self.new) }
        ensures assert { OnOk result (self.new.assert ≡ self.old.assert) }
    {
        self.path.clear();
        let mut goes_on = self.enter(resolvent, store, explain, fallen)?;
        for _ in 0..STEPS {
            if !goes_on {
                break;
            }
            goes_on = self.step(resolvent, store, explain)?;
        }
        self.fail();
        Ok(())
    }

    /// Whether an atom that fell at an earlier level is true only where another one is that fell before it, or that of
    /// the present level.
    fn is_redundant<E: Explain>(
        &mut self,
        resolvent: &Resolvent,
        store: &Store,
        explain: &E,
        fallen: Fallen,
    ) -> Result<bool, AllocError>
        requires draft { IsDraft store.now resolvent.now }
        requires fits { AllFit (E.fits explain.now) store.now }
        requires nodes { AreNodes (AreTrueReasons
            (E.makes explain.now store.now) store.now) store.now resolvent.now.earlier self.old }
        ensures nodes { OnOk result (AreNodes
            (AreTrueReasons (E.makes explain.now store.now) store.now) store.now resolvent.now.earlier self.new) }
        ensures assert { OnOk result (self.new.assert ≡ self.old.assert) }
        ensures redundant { result ≡ Ok true
            → IsRedundant (AreTrueReasons
            (E.makes explain.now store.now) store.now) store.now resolvent.now.earlier self.old.assert fallen }
    {
        self.walk(resolvent, store, explain, fallen)?;
        match self.led_to(fallen) {
            Some(latest) if latest < fallen.from => Ok(true),
            _ => Ok(false),
        }
    }

    /// Writes down the atoms that fell at earlier levels, but those that imply that of the present level and those that
    /// are redundant, and after how many entries they all were false.
    pub(crate) fn collect<E: Explain>(
        &mut self,
        resolvent: &Resolvent,
        store: &Store,
        explain: &E,
        atoms: &mut Vec<Atom>,
    ) -> Result<usize, AllocError>
        requires draft { IsDraft store.now resolvent.now }
        requires fits { AllFit (E.fits explain.now) store.now }
        requires nodes { self.old.nodes.items ≡ [] }
        ensures { IfOk result (Collects
            (AreTrueReasons (E.makes explain.now store.now) store.now) store.now
            resolvent.now.start resolvent.now.earlier self.old.assert resolvent.now.earlier atoms.new.items) }
    {
        atoms.clear();
        let mut latest = 0;
        for fallen in resolvent.earlier() {
            if fallen.atom.implies(self.assert) {
                continue;
            }
            if self.is_redundant(resolvent, store, explain, *fallen)? {
                continue;
            }
            atoms.push(fallen.atom)?;
            latest = later(latest, fallen.from);
        }
        Ok(latest)
    }
}
