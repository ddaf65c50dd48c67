//! Laws of a `PlainPort`, for every state and every list of events. Each is the contract of a function with an empty
//! body.
ghost use Rattle.cps_port.specs.Causes.{LeavesOthers, ClosedWasClosed, SawTheUpper};

/// The events of one actor change nothing that the other actors know.
pub fn leaves_others()
    ensures { LeavesOthers }
{}

/// `take` answers `NotYet` only where the next row was closed.
pub fn closed_was_closed()
    ensures { ClosedWasClosed }
{}

/// `upper` answers the bound that stood at that moment.
pub fn saw_the_upper()
    ensures { SawTheUpper }
{}
