//! Laws of the board's rule, which holds between any two steps of all threads. Each is the contract of a function that
//! does nothing.
ghost use Rattle.cps_board.specs.OneList.{TakesOneList, TakesSoundEntries};
ghost use Rattle.cps_board.specs.Events.{StepsAreEvents, ShowsFirst};

/// Of what two seats took, the shorter list is the beginning of the longer one.
pub fn takes_one_list()
    ensures { TakesOneList }
{}

/// Each entry that a seat took names its row, and is sound.
pub fn takes_sound_entries()
    ensures { TakesSoundEntries }
{}

/// The steps of seats are lawful events of the board that the rows show, one after another, whatever threads make them
/// and in whatever order. Between them come words that are stored in closed rows, and words that are read.
pub fn steps_are_events()
    ensures { StepsAreEvents }
{}

/// Before the first step the rows show the board of the first state.
pub fn shows_first()
    ensures { ShowsFirst }
{}
