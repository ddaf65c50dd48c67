//! The table of commands, read by `clap`.
//!
//! The table says only how each option's text is read; ranges are tested afterwards on the numbers (`command_of`),
//! since the statements about `clap` say of an option only which text gives which value. A function makes each line, so
//! that no function holds more than one builder.
ghost use Rattle.std.specs.Prelude.{◌≡◌, ◌≢◌, [], false, IfOk, MatchOption};
ghost use Rattle.clap.specs.Words.{app_of, rule_of, fault_of, subcommand_of, subcommand_rows_of};
ghost use Rattle.clap.specs.declared.builder.Command.TheViews.{out-Command};
ghost use Rattle.cps_command.specs.Rules.{workers_rule, conflicts_rule, seed_rule, interleave_rule, gap_rule, log_rule, family_rule, size_rule, drawing_rule, solve_line, generating_line, with_reading_lines, with_generating_lines, command_table};
ghost use Rattle.cps_command.specs.Lines.{texts_of, IsPassed};

use clap::error::ErrorKind;
use clap::{Arg, ArgAction, ArgMatches, Command, value_parser};
use std::alloc::{AllocError, Global};

/// `--workers N`
fn workers_option<'a>(alloc: Global) -> Arg<'a>
    ensures rule { rule_of result ≡ workers_rule }
    ensures local { result.global ≡ false }
{
    Arg::new(alloc, "workers")
        .long("workers")
        .value_parser(value_parser!(u32))
        .default_value("4")
}

/// `--conflicts N`
fn conflicts_option<'a>(alloc: Global) -> Arg<'a>
    ensures rule { rule_of result ≡ conflicts_rule }
    ensures local { result.global ≡ false }
{
    Arg::new(alloc, "conflicts")
        .long("conflicts")
        .value_parser(value_parser!(u64))
        .default_value("10000")
}

/// `--seed N`
fn seed_option<'a>(alloc: Global) -> Arg<'a>
    ensures rule { rule_of result ≡ seed_rule }
    ensures local { result.global ≡ false }
{
    Arg::new(alloc, "seed")
        .long("seed")
        .value_parser(value_parser!(u64))
        .default_value("1")
}

/// `--interleave`
fn interleave_option<'a>(alloc: Global) -> Arg<'a>
    ensures rule { rule_of result ≡ interleave_rule }
    ensures local { result.global ≡ false }
{
    Arg::new(alloc, "interleave")
        .long("interleave")
        .action(ArgAction::SetTrue)
}

/// `--gap G`
fn gap_option<'a>(alloc: Global) -> Arg<'a>
    ensures rule { rule_of result ≡ gap_rule }
    ensures local { result.global ≡ false }
{
    Arg::new(alloc, "gap")
        .long("gap")
        .value_parser(value_parser!(u64))
        .default_value("0")
}

/// `--log`
fn log_option<'a>(alloc: Global) -> Arg<'a>
    ensures rule { rule_of result ≡ log_rule }
    ensures local { result.global ≡ false }
{
    Arg::new(alloc, "log")
        .long("log")
        .action(ArgAction::SetTrue)
}

/// `solve [--workers N] [--conflicts N] [--seed N] [--interleave] [--gap G] [--log]`
fn solve_line<'a>(alloc: Global) -> Result<Command<'a>, AllocError>
    ensures app { IfOk result (λ c. app_of c ≡ solve_line) }
    ensures local { IfOk result (λ c. (out-Command c).has_globals ≡ false) }
{
    Command::new(alloc, "solve")
        .arg(workers_option(alloc))?
        .arg(conflicts_option(alloc))?
        .arg(seed_option(alloc))?
        .arg(interleave_option(alloc))?
        .arg(gap_option(alloc))?
        .arg(log_option(alloc))
}

/// `FAMILY`
fn family_argument<'a>(alloc: Global) -> Arg<'a>
    ensures rule { rule_of result ≡ family_rule }
    ensures local { result.global ≡ false }
{
    Arg::new(alloc, "family").required(true)
}

/// `SIZE`
fn size_argument<'a>(alloc: Global) -> Arg<'a>
    ensures rule { rule_of result ≡ size_rule }
    ensures local { result.global ≡ false }
{
    Arg::new(alloc, "size")
        .required(true)
        .value_parser(value_parser!(u32))
}

/// `SEED`
fn drawing_argument<'a>(alloc: Global) -> Arg<'a>
    ensures rule { rule_of result ≡ drawing_rule }
    ensures local { result.global ≡ false }
{
    Arg::new(alloc, "seed")
        .required(true)
        .value_parser(value_parser!(u64))
}

/// A command with `FAMILY SIZE SEED` behind it.
fn generating_line<'a>(alloc: Global, name: &'a str) -> Result<Command<'a>, AllocError>
    ensures app { IfOk result (λ c. app_of c ≡ generating_line name.entry.now) }
    ensures local { IfOk result (λ c. (out-Command c).has_globals ≡ false) }
{
    Command::new(alloc, name)
        .arg(family_argument(alloc))?
        .arg(size_argument(alloc))?
        .arg(drawing_argument(alloc))
}

/// A table with the lines of the commands that read a model: `solve`, `validate`, `print` and `check`.
fn with_reading_lines<'a>(alloc: Global, table: Command<'a>) -> Result<Command<'a>, AllocError>
    ensures { IfOk result (λ c. app_of c ≡ with_reading_lines (app_of table.entry)) }
{
    table
        .subcommand(solve_line(alloc)?)?
        .subcommand(Command::new(alloc, "validate"))?
        .subcommand(Command::new(alloc, "print"))?
        .subcommand(Command::new(alloc, "check"))
}

/// A table with the lines of the commands that generate a model: `gen` and `demo`.
fn with_generating_lines<'a>(alloc: Global, table: Command<'a>) -> Result<Command<'a>, AllocError>
    ensures { IfOk result (λ c. app_of c ≡ with_generating_lines (app_of table.entry)) }
{
    table
        .subcommand(generating_line(alloc, "gen")?)?
        .subcommand(generating_line(alloc, "demo")?)
}

/// All lines.
fn command_table<'a>(alloc: Global) -> Result<Command<'a>, AllocError>
    ensures { IfOk result (λ c. app_of c ≡ command_table) }
{
    let table = Command::new(alloc, "cpsolve").subcommand_required(true);
    let table = with_reading_lines(alloc, table)?;
    with_generating_lines(alloc, table)
}

/// What the words say by the table; `None` if they are no line of it.
pub(crate) fn matches_of<'a>(
    alloc: Global,
    words: &'a [String],
) -> Result<Option<ArgMatches<'a>>, AllocError>
    ensures { IfOk result (λ matches. MatchOption matches (fault_of command_table (texts_of words.entry.now) ≢ [])
        (λ m. IsPassed (texts_of words.entry.now) (subcommand_rows_of m))) }
{
    match command_table(alloc)?.try_get_matches_from(words) {
        Ok(matches) => Ok(Some(matches)),
        Err(error) if error.kind() == ErrorKind::OutOfMemory => Err(AllocError),
        Err(_) => Ok(None),
    }
}
