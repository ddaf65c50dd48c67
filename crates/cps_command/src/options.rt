//! The options of a command.
ghost use Rattle.std.specs.Prelude.{ℕ, ◌^◌, ◌<◌, ◌↔◌, IsTrue, MatchOption};
ghost use Rattle.clap.specs.Words.{found_of, rows_of};
ghost use Rattle.cps_command.specs.Numbers.{HasNumber, IsOn, AreOptions};
ghost use Rattle.cps_options.specs.declared.options.Options.{Options as OptionsOf};

use clap::ArgMatches;
use cps_options::Options;

/// The number that an option of 32 bits has, or an argument, none where it has none.
pub(crate) fn number_of(matches: &ArgMatches<'_>, option: &str) -> Option<u32>
    ensures { MatchOption result ((n : ℕ) → HasNumber option.now (rows_of (found_of matches.now)) n → n < 2 ^ 32 → ⊥)
        (HasNumber option.now (rows_of (found_of matches.now))) }
{
    matches.get_one::<u32>(option)
}

/// The number that an option of 64 bits has, or an argument, none where it has none.
pub(crate) fn long_number_of(matches: &ArgMatches<'_>, option: &str) -> Option<u64>
    ensures { MatchOption result ((n : ℕ) → HasNumber option.now (rows_of (found_of matches.now)) n → n < 2 ^ 64 → ⊥)
        (HasNumber option.now (rows_of (found_of matches.now))) }
{
    matches.get_one::<u64>(option)
}

/// Whether an option without a value was given.
fn is_on(matches: &ArgMatches<'_>, option: &str) -> bool
    ensures { IsTrue result ↔ IsOn option.now (rows_of (found_of matches.now)) }
{
    match matches.get_str(option) {
        Some(text) => text == "true",
        None => false,
    }
}

/// The options that were given, none where one of them is out of its range.
pub(crate) fn options_of(matches: &ArgMatches<'_>) -> Option<Options>
    ensures { MatchOption result ((o : OptionsOf) → AreOptions (rows_of (found_of matches.now)) o → ⊥)
        (AreOptions (rows_of (found_of matches.now))) }
{
    let Some(workers) = number_of(matches, "workers") else {
        return None;
    };
    let Some(conflicts) = long_number_of(matches, "conflicts") else {
        return None;
    };
    let Some(seed) = long_number_of(matches, "seed") else {
        return None;
    };
    let Some(gap) = long_number_of(matches, "gap") else {
        return None;
    };
    let options = Options {
        workers,
        conflicts,
        seed,
        interleave: is_on(matches, "interleave"),
        gap,
        log: is_on(matches, "log"),
    };
    if options.are_in_range() {
        return Some(options);
    }
    None
}
