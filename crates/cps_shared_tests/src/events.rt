//! One run of two actors, event by event.
use crate::models::minimised;
use cps_model::Bound;
use cps_port::{CoreState, Event, Seen};
use cps_validate::{ValidModel, validate};
use std::alloc::{AllocError, Global};
use std::test::Fail;

/// What two actors see of their first events.
fn first_sights(alloc: Global, model: &ValidModel) -> Result<[Seen; 5], AllocError> {
    let mut core = CoreState::new(alloc, model, 2, 2)?;
    Ok([
        core.step(0, Event::SeeUpper),
        core.step(1, Event::SeeLower),
        core.step(0, Event::Look),
        core.step(0, Event::Draw),
        core.step(1, Event::Draw),
    ])
}

#[test]
fn the_state_begins_with_nothing_seen(rt: HostRuntime) -> Result<(), Fail> {
    let alloc = rt.alloc();
    let model = validate(alloc, minimised(alloc)?)?;
    let seen = first_sights(alloc, &model)?;
    assert!(rt; seen[..2] == [Seen::Word(Bound::Infinite), Seen::Word(Bound::At(0))]);
    assert!(rt; seen[2..] == [Seen::Shut, Seen::Row(0), Seen::Row(1)]);
    Ok(())
}
