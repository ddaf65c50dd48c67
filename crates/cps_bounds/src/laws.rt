//! Laws of the rule of the two words, which holds between any two steps of all threads. Each is the contract of a
//! function that does nothing.
ghost use Rattle.cps_bounds.specs.Events.{StepsAreEvents, ShowsFirst};

/// The steps of seats are lawful events of the bounds that the words show, one after another, whatever threads make
/// them and in whatever order.
pub fn steps_are_events()
    ensures { StepsAreEvents }
{}

/// Before the first step the words show the bounds of the first state.
pub fn shows_first()
    ensures { ShowsFirst }
{}
