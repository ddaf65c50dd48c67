//! The rule of a resource: that spans share a capacity.
//!
//! A look first builds the profile of compulsory parts, and says that the body cannot hold if it passes the capacity at
//! some time; that it does not where nothing is said is proved of the sweep. Then windows are asked for an overload,
//! and then bounds are proposed. A hint names the window of times, from which one search for facts makes every reason
//! again.
ghost use Rattle.std.specs.Prelude.{◌≡◌, true, All, IfOk, IfSome, None, OnOk, Ok};
ghost use Rattle.cps_instance.specs.Fitting.{IsNeverNegative};
ghost use Rattle.cps_propagate.specs.Strength.{HasCapacity};
ghost use Rattle.cps_rule.specs.Rules.{IsGiven, IsImpossible, IsRefuted};
ghost use Rattle.cps_p_cumulative.specs.Running.{IsResourceOf, body_of};

use crate::charge::{Case, at_most, charge, is_inside};
use crate::judge::{Orders, overload};
use crate::measure::measure;
use crate::part::Part;
use crate::propose::{Scratch, propose};
use crate::resource::{Resource, push_spans_subjects, resource_of};
use crate::windows::Energies;
use cps_enforce::Enforced;
use cps_instance::{Body, Task};
use cps_literal::Atom;
use cps_rule::{Hint, Look, Narrowing, Rule};
use cps_trail::{Before, Store};
use std::alloc::{AllocError, Global};

/// Room for a look.
#[derive(Drop)]
struct Room {
    parts: Vec<Part>,
    orders: Orders,
    energies: Energies,
    facts: Vec<Atom>,
    scratch: Scratch,
}

/// That at no time the present spans that run then demand more than the capacity.
pub struct Cumulative {
    resource: Resource,
    room: Room,
}

// Written out, so that crates above do not prove it anew.
impl Drop for Cumulative {
    fn drop(self) {
        let Cumulative {
            resource: _resource,
            room: _room,
        } = self;
    }
}

/// Replaces `facts` by those that show that a window is overloaded, the greatest capacity first. Returns false if it
/// finds none.
fn refute_window(
    past: &Before,
    resource: &Resource,
    hint: Hint,
    facts: &mut Vec<Atom>,
) -> Result<bool, AllocError>
    requires { IsResourceOf past.now.first resource.now }
    ensures { result ≡ Ok true → IsRefuted (body_of resource.now) past.now facts.new.items }
{
    facts.clear();
    let most = past.ends(resource.capacity).1;
    if !is_inside(most) {
        return Ok(false);
    }
    let case = Case {
        time: hint.a,
        width: hint.b,
        assumed: at_most(resource.capacity, most),
    };
    facts.push(case.assumed)?;
    charge(past, case, resource, facts)
}

/// A window that is overloaded although no time in it is.
fn overloaded_window(
    past: &Before,
    resource: &Resource,
    energies: &mut Energies,
    facts: &mut Vec<Atom>,
) -> Result<Option<Hint>, AllocError>
    requires { IsResourceOf past.now.first resource.now }
    ensures { IfOk result (λ found. IfSome found (λ hint. IsImpossible (body_of resource.now) past.now)) }
{
    let most = past.ends(resource.capacity).1;
    let Some(hint) = energies.used_up(past, resource, most)? else {
        return Ok(None);
    };
    if refute_window(past, resource, hint, facts)? {
        return Ok(Some(hint));
    }
    Ok(None)
}

/// What is overloaded: time 0 where the capacity is below 0, another time, or a window of times.
fn first_overload(
    past: &Before,
    resource: &Resource,
    room: &mut Room,
) -> Result<Option<Hint>, AllocError>
    requires inside { IsResourceOf past.now.first resource.now }
    requires demands { All (IsNeverNegative past.now.first) resource.now.demands }
    ensures over { IfOk result (λ found. IfSome found (λ hint. IsImpossible (body_of resource.now) past.now)) }
    ensures rest { result ≡ Ok None
        → HasCapacity past.now resource.now.capacity resource.now.spans resource.now.demands }
{
    let most = past.ends(resource.capacity).1;
    if most < 0 {
        return Ok(Some(Hint { a: 0, b: 1 }));
    }
    measure(
        past,
        resource.spans.as_slice(),
        resource.demands.as_slice(),
        &mut room.parts,
    )?;
    let found_time = overload(room.parts.as_slice(), most as u64, &mut room.orders)?;
    if let Some(time) = found_time {
        return Ok(Some(Hint { a: time, b: 1 }));
    }
    overloaded_window(past, resource, &mut room.energies, &mut room.facts)
}

/// Looks at a resource, and says that it cannot hold where a time is overloaded, or a window of times.
fn look_at(
    past: &Before,
    resource: &Resource,
    room: &mut Room,
    found: &mut Vec<Narrowing>,
) -> Result<Look, AllocError>
    requires inside { IsResourceOf past.now.first resource.now }
    requires demands { All (IsNeverNegative past.now.first) resource.now.demands }
    ensures given { OnOk result (All (λ n. IsGiven (body_of resource.now) past.now n.target) found.new.items) }
    ensures impossible { (hint : Hint) → result ≡ Ok (Look.Impossible hint)
        → IsImpossible (body_of resource.now) past.now }
    ensures possible { result ≡ Ok Look.Possible
        → HasCapacity past.now resource.now.capacity resource.now.spans resource.now.demands }
{
    found.clear();
    if let Some(hint) = first_overload(past, resource, room)? {
        return Ok(Look::Impossible(hint));
    }
    room.scratch.segments.fill(room.parts.as_slice())?;
    propose(past, resource, &mut room.scratch, found)?;
    Ok(Look::Possible)
}

impl Cumulative {
    ghost use Rattle.cps_p_cumulative.specs.Running.{IsCumulativeBody};

    /// The propagator of a task whose body is `Cumulative`.
    pub fn of(alloc: Global, task: &Task) -> Result<Enforced<Cumulative>, AllocError>
        requires { IsCumulativeBody task.now.body }
        ensures { IfOk result (λ propagator. propagator ≡ task.now) }
    {
        let resource = match &task.body {
            Body::Cumulative {
                capacity,
                intervals,
                demands,
            } => resource_of(alloc, *capacity, intervals.as_slice(), demands.as_slice())?,
            _ => unreachable!(),
        };
        let rule = Cumulative {
            resource,
            room: Room {
                parts: Vec::new(alloc),
                orders: Orders::new(alloc),
                energies: Energies::new(alloc),
                facts: Vec::new(alloc),
                scratch: Scratch::new(alloc),
            },
        };
        Enforced::new(alloc, task.enforcement.as_slice(), rule)
    }
}

impl Rule for Cumulative {
    ghost body = { λ c. body_of c.resource };

    fn look(&mut self, store: &Store, found: &mut Vec<Narrowing>) -> Result<Look, AllocError> {
        look_at(&store.present(), &self.resource, &mut self.room, found)
    }

    fn explain(
        &self,
        past: &Before,
        target: Atom,
        hint: Hint,
        facts: &mut Vec<Atom>,
    ) -> Result<bool, AllocError> {
        facts.clear();
        if !is_inside(target.value) {
            return Ok(false);
        }
        let case = Case {
            time: hint.a,
            width: hint.b,
            assumed: target.negate(),
        };
        charge(past, case, &self.resource, facts)
    }

    fn refute(&self, past: &Before, hint: Hint, facts: &mut Vec<Atom>) -> Result<bool, AllocError> {
        refute_window(past, &self.resource, hint, facts)
    }

    fn push_subjects(&self, subjects: &mut Vec<u32>) -> Result<(), AllocError> {
        subjects.push(self.resource.capacity)?;
        push_spans_subjects(self.resource.spans.as_slice(), subjects)?;
        subjects.extend_from_slice(self.resource.demands.as_slice())?;
        Ok(())
    }
}
