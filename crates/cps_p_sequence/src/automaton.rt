//! The rule of an automaton.
//!
//! States and labels are numbered once, so that a set of states is a row of marks and the transitions of one label
//! stand side by side. A look goes back over the positions with the states from which a run can end, and then forward
//! with those that one can have reached; a label that no transition between both uses leaves its position. The layers
//! are made anew at each look and not kept between looks.
ghost use Rattle.std.specs.Prelude.{◌≡◌, IfOk, IsTrue};
ghost use Rattle.cps_model.specs.Sequences.{transitions};
ghost use Rattle.cps_p_sequence.specs.Networks.{IsNetwork};
ghost use Rattle.cps_p_sequence.specs.Runs.{HasLabelsOf};

use crate::cuts::cut;
use crate::layers::{Network, Room, look_at};
use crate::states::{
    Step, make_distinct, mark_finals, number_of, sort_by_label, states_of, steps_of, transitions,
};
use cps_enforce::Enforced;
use cps_instance::{Body, Task};
use cps_literal::Atom;
use cps_rule::{Hint, Look, Narrowing, Rule};
use cps_trail::{Before, Store};
use std::alloc::{AllocError, Global};
use std::marker::Model;

/// The rule of a body `Automaton`. Contracts see the body. A hint says nothing.
pub struct Automaton {
    alloc: Global,
    start: i64,
    finals: Vec<i64>,
    tails: Vec<i64>,
    heads: Vec<i64>,
    labels: Vec<i64>,
    exprs: Vec<u32>,
    /// The states, rising. The number of one is its place here.
    states: Vec<i64>,
    /// The number of the start.
    first: usize,
    /// Which states are final.
    last: Vec<bool>,
    /// The transitions by numbers of states, those with one label side by side.
    steps: Vec<Step>,
    /// The labels of the transitions, rising.
    alphabet: Vec<i64>,
    room: Room,
}

// Written out, so that crates above do not prove it anew.
impl Drop for Automaton {
    fn drop(self) {
        let Automaton {
            alloc: _alloc,
            start: _start,
            finals: _finals,
            tails: _tails,
            heads: _heads,
            labels: _labels,
            exprs: _exprs,
            states: _states,
            first: _first,
            last: _last,
            steps: _steps,
            alphabet: _alphabet,
            room: _room,
        } = self;
    }
}

impl Model for Automaton {
    ghost use Rattle.cps_model.specs.Sequences.{transitions};
    ghost use Rattle.cps_instance.specs.declared.task.Body.{Body};
    ghost use Rattle.cps_instance.specs.declared.task.Body.TheVariants.{Automaton as AutomatonOf};
    ghost use Rattle.cps_p_sequence.specs.Networks.{IsNetwork};
    ghost use Rattle.cps_p_sequence.specs.Runs.{HasLabelsOf};

    ghost Value = { Body };

    ghost view = { λ r. AutomatonOf r.start r.finals.items r.tails.items r.heads.items r.labels.items r.exprs.items };

    ghost invariant = { λ r. IsNetwork
        (transitions r.tails.items r.heads.items r.labels.items) r.finals.items r.start r.states.items
        r.first r.last.items r.steps.items × HasLabelsOf r.steps.items r.alphabet.items };
}

/// What an automaton's rule keeps by numbers of states; the fields are those of `Automaton`.
struct Numbered {
    states: Vec<i64>,
    first: usize,
    last: Vec<bool>,
    steps: Vec<Step>,
    alphabet: Vec<i64>,
}

/// Numbers the states of an automaton, and lists its final states, steps and labels by the numbers.
fn number_states(
    alloc: Global,
    start: i64,
    finals: &[i64],
    steps: (&[i64], &[i64], &[i64]),
) -> Result<Numbered, AllocError>
    ensures network { IfOk result (λ made. IsNetwork
        (transitions steps.entry.0.now steps.entry.1.now steps.entry.2.now) finals.now start made.states.items
        made.first made.last.items made.steps.items) }
    ensures alphabet { IfOk result (λ made. HasLabelsOf made.steps.items made.alphabet.items) }
{
    let raw = transitions(alloc, steps.0, steps.1, steps.2)?;
    let listed = raw.as_slice();
    let states = states_of(alloc, start, listed)?;
    let named = states.as_slice();
    let first = number_of(named, start);
    let last = mark_finals(alloc, named, finals)?;
    let mut numbered = steps_of(alloc, named, listed)?;
    sort_by_label(&mut numbered);
    let mut alphabet = Vec::from_slice(alloc, steps.2)?;
    make_distinct(&mut alphabet);
    Ok(Numbered {
        states,
        first,
        last,
        steps: numbered,
        alphabet,
    })
}

impl Automaton {
    ghost use Rattle.cps_instance.specs.declared.task.Body.TheVariants.{Automaton as AutomatonOf};
    ghost use Rattle.cps_p_sequence.specs.Networks.{is_automaton};

    /// The rule of an automaton's lists.
    fn over(
        alloc: Global,
        start: i64,
        finals: &[i64],
        steps: (&[i64], &[i64], &[i64]),
        exprs: &[u32],
    ) -> Result<Self, AllocError>
        ensures { IfOk result
            (λ rule. rule ≡ AutomatonOf start finals.now steps.entry.0.now steps.entry.1.now
            steps.entry.2.now exprs.now) }
    {
        let own_finals = Vec::from_slice(alloc, finals)?;
        let tails = Vec::from_slice(alloc, steps.0)?;
        let heads = Vec::from_slice(alloc, steps.1)?;
        let labels = Vec::from_slice(alloc, steps.2)?;
        let own_exprs = Vec::from_slice(alloc, exprs)?;
        let Numbered {
            states,
            first,
            last,
            steps: numbered,
            alphabet,
        } = number_states(alloc, start, finals, steps)?;
        Ok(Automaton {
            alloc,
            start,
            finals: own_finals,
            tails,
            heads,
            labels,
            exprs: own_exprs,
            states,
            first,
            last,
            steps: numbered,
            alphabet,
            room: Room::new(alloc),
        })
    }

    /// The rule of a body that is `Automaton`.
    pub fn new(alloc: Global, body: &Body) -> Result<Self, AllocError>
        requires { IsTrue (is_automaton body.now) }
        ensures { IfOk result (λ rule. rule ≡ body.now) }
    {
        match body {
            Body::Automaton {
                start,
                finals,
                tails,
                heads,
                labels,
                exprs,
            } => {
                let steps = (tails.as_slice(), heads.as_slice(), labels.as_slice());
                Automaton::over(alloc, *start, finals.as_slice(), steps, exprs.as_slice())
            }
            _ => unreachable!(),
        }
    }

    /// The propagator of a task whose body is `Automaton`.
    pub fn of(alloc: Global, task: &Task) -> Result<Enforced<Automaton>, AllocError>
        requires { IsTrue (is_automaton task.now.body) }
        ensures { IfOk result (λ propagator. propagator ≡ task.now) }
    {
        let rule = Automaton::new(alloc, &task.body)?;
        let propagator = Enforced::new(alloc, task.enforcement.as_slice(), rule)?;
        Ok(propagator)
    }
}

impl Rule for Automaton {
    ghost body = { λ r. r };

    fn look(&mut self, store: &Store, found: &mut Vec<Narrowing>) -> Result<Look, AllocError> {
        let last = self.last.as_slice();
        let steps = self.steps.as_slice();
        let alphabet = self.alphabet.as_slice();
        let subjects = self.exprs.as_slice();
        let net = Network {
            first: self.first,
            last,
            steps,
            alphabet,
            subjects,
        };
        let possible = look_at(store, &net, &mut self.room, found)?;
        if possible {
            return Ok(Look::Possible);
        }
        Ok(Look::Impossible(Hint { a: 0, b: 0 }))
    }

    fn explain(
        &self,
        past: &Before,
        target: Atom,
        _hint: Hint,
        facts: &mut Vec<Atom>,
    ) -> Result<bool, AllocError> {
        let last = self.last.as_slice();
        let steps = self.steps.as_slice();
        let alphabet = self.alphabet.as_slice();
        let subjects = self.exprs.as_slice();
        let net = Network {
            first: self.first,
            last,
            steps,
            alphabet,
            subjects,
        };
        let is_cut = cut(self.alloc, past, &net, Some(target), facts)?;
        Ok(is_cut)
    }

    fn refute(
        &self,
        past: &Before,
        _hint: Hint,
        facts: &mut Vec<Atom>,
    ) -> Result<bool, AllocError> {
        let last = self.last.as_slice();
        let steps = self.steps.as_slice();
        let alphabet = self.alphabet.as_slice();
        let subjects = self.exprs.as_slice();
        let net = Network {
            first: self.first,
            last,
            steps,
            alphabet,
            subjects,
        };
        let is_cut = cut(self.alloc, past, &net, None, facts)?;
        Ok(is_cut)
    }

    fn push_subjects(&self, subjects: &mut Vec<u32>) -> Result<(), AllocError> {
        subjects.extend_from_slice(self.exprs.as_slice())?;
        Ok(())
    }
}
