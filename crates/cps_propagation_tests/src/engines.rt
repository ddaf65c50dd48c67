//! Engines: one of propagators that have nothing to narrow, one of a defined sum after a decision, some of literals.
//!
//! The first shows that an engine is generic over propagators, by an idle one that is made here; the second that a run
//! goes on from the entry at which the last one came to rest; the others that one comes to rest where a subject is
//! narrowed on the side on which nothing follows, and narrows on where it is on the other.

ghost use Rattle.std.specs.Prelude.{◌≡◌, [], ◌∷◌, true, Ok, All, IfOk};
ghost use Rattle.cps_instance.specs.Problem.{sum_task};
ghost use Rattle.cps_instance.specs.Fitting.{IsFitting};
ghost use Rattle.cps_trail.specs.Notes.{AllFit, IsGivenAt};
ghost use Rattle.cps_propagate.specs.Notes.{ByTasks};
ghost use Rattle.cps_propagation_tests.specs.Bits.{four_bits};
ghost use Rattle.cps_propagation_tests.specs.Sums.{idle_task, sum_domains, tripled_sum};

use crate::booleans::{Kind, boolean, store_of_bits};
use crate::stores::{are_bits, at_least, at_most, decide, has_note};
use cps_domain::Domain;
use cps_instance::Term;
use cps_literal::{Atom, Op};
use cps_p_bool::Boolean;
use cps_p_linear::Linear;
use cps_propagate::{
    Answer, Engine, Propagator, Wake, conclude, push_atom_subjects, push_term_subjects,
};
use cps_trail::{Explain, Step, Store};
use std::alloc::{AllocError, Global};
use std::process::Abort;
use std::test::Fail;

/// A task that demands nothing.
#[derive(Drop)]
struct Idle;

impl Propagator for Idle {
    ghost use Rattle.std.specs.Prelude.{[]};
    ghost use Rattle.cps_instance.specs.declared.task.Body.TheVariants.{Empty};
    ghost use Rattle.cps_propagate.specs.Recalling.{no_memory};

    ghost task = { λ _. record { enforcement = []; body = Empty } };

    ghost memory = { λ _. no_memory };

    fn propagate(
        &mut self,
        _number: u32,
        _store: &mut Store,
        _standing: Option<usize>,
        _conflict: &mut Vec<Atom>,
    ) -> Result<Answer, AllocError> {
        Ok(Answer::NoConflict)
    }

    fn explain_into(
        &self,
        store: &Store,
        entry: usize,
        reason: &mut Vec<Atom>,
    ) -> Result<(), AllocError> {
        reason.clear();
        conclude(store, entry, reason)
    }

    fn lower(&mut self, _upper: i64) {}

    fn push_subjects(&self, _subjects: &mut Vec<u32>) -> Result<(), AllocError> {
        Ok(())
    }

    fn wakes_on(&self, _subject: u32, _place: usize) -> Wake {
        Wake::Any
    }

    fn is_cut(&self) -> bool {
        false
    }

    fn remembers(&self) -> bool {
        false
    }

    fn is_cheap(&self) -> bool {
        true
    }
}

/// An engine of two idle propagators, whose cuts' end fell.
fn idle_engine(alloc: Global) -> Result<Engine<Idle>, AllocError>
    ensures { IfOk result (λ engine. engine.tasks ≡ idle_task ∷ idle_task ∷ []) }
{
    let mut list = Vec::new(alloc);
    list.push(Idle)?;
    let mut engine = Engine::new(alloc, list)?;
    engine.add(Idle)?;
    engine.lower(3);
    Ok(engine)
}

/// Whether a run on a store without subjects settles.
fn settles(alloc: Global, engine: &mut Engine<Idle>) -> Result<bool, AllocError>
    requires { engine.old.tasks ≡ idle_task ∷ idle_task ∷ [] }
{
    let mut store = Store::new(alloc, &[])?;
    match engine.run(&mut store)? {
        Step::Settled => Ok(true),
        Step::Conflict(_) => Ok(false),
    }
}

/// Whether a run of that engine settles.
fn idle_settles(alloc: Global) -> Result<bool, AllocError> {
    let mut engine = idle_engine(alloc)?;
    settles(alloc, &mut engine)
}

#[test]
fn idle_propagators_settle(rt: HostRuntime) -> Result<(), Fail> {
    assert!(rt; idle_settles(rt.alloc())?);
    Ok(())
}

static TERMS: [Term; 2] = [
    Term {
        coeff: 2,
        subject: 5,
    },
    Term {
        coeff: -1,
        subject: 7,
    },
];

/// Adds the subjects of an atom and of terms to a list.
fn push_subjects(subjects: &mut Vec<u32>, terms: &[Term]) -> Result<(), AllocError> {
    push_atom_subjects(&[at_least(7, 1)], subjects)?;
    push_term_subjects(terms, subjects)
}

#[test]
fn subjects_in_order(rt: HostRuntime) -> Result<(), Fail> {
    let mut subjects = Vec::new(rt.alloc());
    push_subjects(&mut subjects, &TERMS)?;
    assert_eq!(rt; subjects.as_slice(), [7u32, 5, 7].as_slice());
    Ok(())
}

/// A subject of the values 0 to 2, and one for three times it and 5 more.
fn tripled(alloc: Global) -> Result<Store, AllocError>
    ensures first { IfOk result (λ store. store.first ≡ sum_domains) }
    ensures none { IfOk result (λ store. store.entries ≡ []) }
    ensures level { IfOk result (λ store. store.level ≡ 0) }
{
    let first = Domain::of_bounds(alloc, &[0, 2])?;
    let second = Domain::of_bounds(alloc, &[5, 11])?;
    Store::new(alloc, &[first, second])
}

/// Runs an engine, decides an atom, and runs the engine on from there. Whether all settled.
fn run_on<P: Propagator>(
    engine: &mut Engine<P>,
    store: &mut Store,
    atom: Atom,
) -> Result<bool, AllocError>
    requires fits { All (IsFitting store.old.first) engine.old.tasks }
    requires none { store.old.entries ≡ [] }
    requires level { store.old.level ≡ 0 }
    ensures { result ≡ Ok true → AllFit (IsGivenAt (ByTasks engine.new.tasks)) store.new }
{
    match engine.run(store)? {
        Step::Settled => {}
        Step::Conflict(_) => return Ok(false),
    }
    let from = store.entries().len();
    let was_open = decide(store, atom)?;
    if was_open {
        match engine.run_from(store, Some(from))? {
            Step::Settled => Ok(true),
            Step::Conflict(_) => Ok(false),
        }
    } else {
        Ok(false)
    }
}

/// The engine of three times the first and 5.
fn tripling_engine(alloc: Global) -> Result<Engine<Linear>, AllocError>
    ensures { IfOk result (λ engine. engine.tasks ≡ sum_task 1 tripled_sum ∷ []) }
{
    let triple = Term {
        coeff: 3,
        subject: 0,
    };
    let mut engine: Engine<Linear> = Engine::new(alloc, Vec::new(alloc))?;
    engine.add_sum(alloc, 1, &[triple], 5)?;
    Ok(engine)
}

/// Puts the reason of the last entry into a list, if the entry has a note.
fn explain_last(
    engine: &Engine<Linear>,
    store: &Store,
    reason: &mut Vec<Atom>,
) -> Result<(), AllocError>
    requires { AllFit (IsGivenAt (ByTasks engine.now.tasks)) store.now }
{
    let count = store.entries().len();
    if count > 0 && has_note(store, count - 1) {
        engine.explain_into(store, count - 1, reason)?;
    }
    Ok(())
}

/// Where the first is at least 1, three times it and 5 is at least 8: puts the reason of that into a list. Whether that
/// came out.
fn explain_sum(
    alloc: Global,
    engine: &mut Engine<Linear>,
    reason: &mut Vec<Atom>,
) -> Result<bool, AllocError>
    requires { engine.old.tasks ≡ sum_task 1 tripled_sum ∷ [] }
{
    let mut store = tripled(alloc)?;
    let is_settled = run_on(engine, &mut store, at_least(0, 1))?;
    if is_settled {
        explain_last(engine, &store, reason)?;
    }
    Ok(is_settled)
}

/// The same of a new engine.
fn explain_tripled(alloc: Global, reason: &mut Vec<Atom>) -> Result<bool, AllocError> {
    let mut engine = tripling_engine(alloc)?;
    explain_sum(alloc, &mut engine, reason)
}

#[test]
fn an_engine_runs_on_after_a_decision(rt: HostRuntime) -> Result<(), Fail> {
    let mut reason = Vec::new(rt.alloc());
    let is_settled = explain_tripled(rt.alloc(), &mut reason)?;
    assert!(rt; is_settled);
    assert_eq!(rt;
        reason.as_slice(),
        [at_most(0, 0), at_least(1, 8)].as_slice()
    );
    Ok(())
}

/// An engine of one propagator of literals.
fn engine_of(alloc: Global, propagator: Boolean) -> Result<Engine<Boolean>, AllocError>
    requires { IsFitting four_bits propagator }
    ensures { IfOk result (λ engine. All (IsFitting four_bits) engine.tasks) }
{
    let mut engine: Engine<Boolean> = Engine::new(alloc, Vec::new(alloc))?;
    engine.add(propagator)?;
    Ok(engine)
}

/// How many entries there are where an engine ran, an atom was decided, and the engine ran on; none where a run met a
/// conflict.
fn entries_at_rest(
    alloc: Global,
    engine: &mut Engine<Boolean>,
    decision: Atom,
) -> Result<usize, AllocError>
    requires { All (IsFitting four_bits) engine.old.tasks }
{
    let mut store = store_of_bits(alloc)?;
    if run_on(engine, &mut store, decision)? {
        return Ok(store.entries().len());
    }
    Ok(0)
}

/// The same of an engine of one propagator.
fn entries_with(alloc: Global, propagator: Boolean, decision: Atom) -> Result<usize, AllocError>
    requires { IsFitting four_bits propagator }
{
    let mut engine = engine_of(alloc, propagator)?;
    entries_at_rest(alloc, &mut engine, decision)
}

/// The same of a kind over literals of the four subjects.
fn entries_of(alloc: Global, kind: Kind, atoms: &[Atom], decision: Atom) -> Option<usize> {
    if !are_bits(0, 4, atoms) {
        return None;
    }
    let propagator = boolean(alloc, kind, &[], atoms).ok()?;
    entries_with(alloc, propagator, decision).ok()
}

/// A kind over two literals, what is decided, and how many entries there are at rest: one more than the decision where
/// something follows.
struct Decided {
    kind: Kind,
    atoms: &'static [Atom],
    decision: Atom,
    entries: usize,
}

static SIDES: [Decided; 4] = [
    Decided {
        kind: Kind::Or,
        atoms: &[yes!(0), no!(1)],
        decision: yes!(0),
        entries: 1,
    },
    Decided {
        kind: Kind::Or,
        atoms: &[yes!(0), no!(1)],
        decision: yes!(1),
        entries: 2,
    },
    Decided {
        kind: Kind::AtMostOne,
        atoms: &[yes!(0), no!(1)],
        decision: yes!(1),
        entries: 1,
    },
    Decided {
        kind: Kind::AtMostOne,
        atoms: &[yes!(0), no!(1)],
        decision: yes!(0),
        entries: 2,
    },
];

fn assert_at_rest(rt: &impl Abort, alloc: Global, rows: &[Decided]) {
    for (place, row) in rows.iter().enumerate() {
        let found = entries_of(alloc, row.kind, row.atoms, row.decision);
        assert!(rt; found == Some(row.entries), "row {place}");
    }
}

#[test]
fn a_narrowing_on_the_other_side_leaves_all_at_rest(rt: HostRuntime) {
    assert_at_rest(&rt, rt.alloc(), &SIDES);
}
