//! The rule of a tank: that the level stays between two limits.
//!
//! Levels are looked at only at the greatest time of each event, since the least level rises only there, where an event
//! becomes sure; proposals look just before its least time too. A proposal is an atom whose denial is seen to make the
//! level pass a limit, as those of a resource are. The two limits are one rule with a side.
ghost use Rattle.std.specs.Prelude.{◌≡◌, ◌<◌, All, IfOk, IfSome, OnOk, Ok, length};
ghost use Rattle.cps_rule.specs.Rules.{IsGiven, IsImpossible, IsAtRest};
ghost use Rattle.cps_p_cumulative.specs.Levels.{IsTankOf, AllowsZero, moves_of, tank_body};

use crate::charge::{Case, at_most, is_inside};
use crate::level::{hint_at, least_level, passing};
use crate::passing::{charge_level, point_of};
use crate::pushes::{Slack, pushes_of};
use crate::tank::{Side, Tank};
use cps_enforce::Enforced;
use cps_instance::{Body, Task};
use cps_literal::Atom;
use cps_propagate::push_atom_subjects;
use cps_rule::{Hint, Look, Narrowing, Rule};
use cps_trail::{Before, Store};
use std::alloc::{AllocError, Global};

/// That after each event that takes place the level lies between the least and the greatest.
pub struct Reservoir {
    tank: Tank,
    facts: Vec<Atom>,
}

// Written out, so that crates above do not prove it anew.
impl Drop for Reservoir {
    fn drop(self) {
        let Reservoir {
            tank: _tank,
            facts: _facts,
        } = self;
    }
}

/// Adds an atom, where its denial makes the level pass a limit.
fn offer(
    past: &Before,
    tank: &Tank,
    narrowing: Narrowing,
    facts: &mut Vec<Atom>,
    found: &mut Vec<Narrowing>,
) -> Result<(), AllocError>
    requires tank { IsTankOf past.now.first tank.now }
    requires subject { narrowing.target.subject < length past.now.first }
    requires found { All (λ n. IsGiven (tank_body tank.now) past.now n.target) found.old.items }
    ensures { OnOk result (All (λ n. IsGiven (tank_body tank.now) past.now n.target) found.new.items) }
{
    facts.clear();
    if !is_inside(narrowing.target.value) {
        return Ok(());
    }
    let case = Case {
        time: narrowing.hint.a,
        width: 1,
        assumed: narrowing.target.negate(),
    };
    if charge_level(past, case, point_of(narrowing.hint), tank, facts)? {
        found.push(narrowing)?;
    }
    Ok(())
}

/// Adds a proposal, if there is one.
fn offer_some(
    past: &Before,
    tank: &Tank,
    proposed: (Option<Atom>, Hint),
    facts: &mut Vec<Atom>,
    found: &mut Vec<Narrowing>,
) -> Result<(), AllocError>
    requires tank { IsTankOf past.now.first tank.now }
    requires subject { IfSome proposed.0 (λ u. u.subject < length past.now.first) }
    requires found { All (λ n. IsGiven (tank_body tank.now) past.now n.target) found.old.items }
    ensures { OnOk result (All (λ n. IsGiven (tank_body tank.now) past.now n.target) found.new.items) }
{
    match proposed.0 {
        Some(target) => {
            let narrowing = Narrowing {
                target,
                hint: proposed.1,
            };
            offer(past, tank, narrowing, facts, found)
        }
        None => Ok(()),
    }
}

/// Adds what the level at a time leaves to each event.
fn propose_at(
    past: &Before,
    tank: &Tank,
    hint: Hint,
    facts: &mut Vec<Atom>,
    found: &mut Vec<Narrowing>,
) -> Result<(), AllocError>
    requires tank { IsTankOf past.now.first tank.now }
    requires found { All (λ n. IsGiven (tank_body tank.now) past.now n.target) found.old.items }
    ensures { OnOk result (All (λ n. IsGiven (tank_body tank.now) past.now n.target) found.new.items) }
{
    let side = point_of(hint).side;
    let level = least_level(past, hint.a, side, tank);
    let slack = Slack {
        side,
        time: hint.a,
        room: tank.limit(side).wrapping_sub(level),
    };
    for j in 0..tank.count() {
        let pushes = pushes_of(past, slack, &tank.move_at(j));
        offer_some(past, tank, (pushes.time, hint), facts, found)?;
        offer_some(past, tank, (pushes.active, hint), facts, found)?;
        offer_some(past, tank, (pushes.change, hint), facts, found)?;
    }
    Ok(())
}

/// Adds what the levels at the greatest time of one event, and just before its least, leave to each event.
fn propose(
    past: &Before,
    tank: &Tank,
    k: usize,
    facts: &mut Vec<Atom>,
    found: &mut Vec<Narrowing>,
) -> Result<(), AllocError>
    requires tank { IsTankOf past.now.first tank.now }
    requires event { k < length (moves_of tank.now) }
    requires found { All (λ n. IsGiven (tank_body tank.now) past.now n.target) found.old.items }
    ensures { OnOk result (All (λ n. IsGiven (tank_body tank.now) past.now n.target) found.new.items) }
{
    let event = tank.move_at(k);
    let (early, late) = past.ends(event.time);
    let before = early.wrapping_sub(1);
    propose_at(past, tank, hint_at(late, Side::Over, k), facts, found)?;
    propose_at(past, tank, hint_at(late, Side::Under, k), facts, found)?;
    propose_at(past, tank, hint_at(before, Side::Over, k), facts, found)?;
    propose_at(past, tank, hint_at(before, Side::Under, k), facts, found)
}

/// Looks at a tank, and says that it cannot hold where the level passes a limit.
fn look_at(
    past: &Before,
    tank: &Tank,
    facts: &mut Vec<Atom>,
    found: &mut Vec<Narrowing>,
) -> Result<Look, AllocError>
    requires tank { IsTankOf past.now.first tank.now }
    requires zero { AllowsZero tank.now }
    ensures given { OnOk result (All (λ n. IsGiven (tank_body tank.now) past.now n.target) found.new.items) }
    ensures impossible { (hint : Hint) → result ≡ Ok (Look.Impossible hint)
        → IsImpossible (tank_body tank.now) past.now }
    ensures possible { result ≡ Ok Look.Possible → IsAtRest (tank_body tank.now) past.now }
{
    found.clear();
    if let Some(hint) = passing(past, tank) {
        return Ok(Look::Impossible(hint));
    }
    for k in 0..tank.count() {
        propose(past, tank, k, facts, found)?;
    }
    Ok(Look::Possible)
}

impl Reservoir {
    ghost use Rattle.cps_p_cumulative.specs.Levels.{IsReservoirBody};

    /// The propagator of a task whose body is `Reservoir`.
    pub fn of(alloc: Global, task: &Task) -> Result<Enforced<Reservoir>, AllocError>
        requires { IsReservoirBody task.now.body }
        ensures { IfOk result (λ propagator. propagator ≡ task.now) }
    {
        let tank = match &task.body {
            Body::Reservoir {
                min,
                max,
                times,
                changes,
                active,
            } => Tank::of(
                alloc,
                (*min, *max),
                times.as_slice(),
                changes.as_slice(),
                active.as_slice(),
            )?,
            _ => unreachable!(),
        };
        let rule = Reservoir {
            tank,
            facts: Vec::new(alloc),
        };
        Enforced::new(alloc, task.enforcement.as_slice(), rule)
    }
}

impl Rule for Reservoir {
    ghost body = { λ r. tank_body r.tank };

    fn look(&mut self, store: &Store, found: &mut Vec<Narrowing>) -> Result<Look, AllocError> {
        look_at(&store.present(), &self.tank, &mut self.facts, found)
    }

    fn explain(
        &self,
        past: &Before,
        target: Atom,
        hint: Hint,
        facts: &mut Vec<Atom>,
    ) -> Result<bool, AllocError> {
        facts.clear();
        if !is_inside(target.value) {
            return Ok(false);
        }
        let case = Case {
            time: hint.a,
            width: 1,
            assumed: target.negate(),
        };
        charge_level(past, case, point_of(hint), &self.tank, facts)
    }

    fn refute(&self, past: &Before, hint: Hint, facts: &mut Vec<Atom>) -> Result<bool, AllocError> {
        facts.clear();
        let point = point_of(hint);
        if self.tank.count() <= point.place {
            return Ok(false);
        }
        let subject = self.tank.move_at(point.place).time;
        let late = past.ends(subject).1;
        if !is_inside(late) {
            return Ok(false);
        }
        let case = Case {
            time: hint.a,
            width: 1,
            assumed: at_most(subject, late),
        };
        facts.push(case.assumed)?;
        charge_level(past, case, point, &self.tank, facts)
    }

    fn push_subjects(&self, subjects: &mut Vec<u32>) -> Result<(), AllocError> {
        subjects.extend_from_slice(self.tank.times.as_slice())?;
        subjects.extend_from_slice(self.tank.changes.as_slice())?;
        push_atom_subjects(self.tank.active.as_slice(), subjects)
    }
}
