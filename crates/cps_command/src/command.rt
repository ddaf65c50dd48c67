//! What the program is told to do.
ghost use Rattle.std.specs.Prelude.{◌≡◌, IfOk, MatchOption};
ghost use Rattle.clap.specs.Words.{subcommand_rows_of};
ghost use Rattle.cps_command.specs.Lines.{texts_of, Says, SaysNothing, CommandLine, IsUsageFault, HasOneCommand, reads};

use crate::options::options_of;
use crate::recipe::{Recipe, recipe_of};
use crate::table::matches_of;
use clap::ArgMatches;
use cps_options::Options;
use std::alloc::{AllocError, Global};

/// What the program is told to do.
#[derive(Debug, Clone, Copy, PartialEq, Eq)]
pub enum Command {
    /// Read a model, solve it and write a response.
    Solve(Options),
    /// Read a model and say that it is valid.
    Validate,
    /// Read a model, valid or not, and write its canonical text.
    Print,
    /// Write the canonical text of a generated model.
    Gen(Recipe),
    /// Solve a generated model, and say in four lines what came of it.
    Demo(Recipe),
    /// Read a model and a response to it with the log of its proof, and say whether the log shows the response right.
    Check,
}

impl Command {
    /// Whether the command reads an input.
    pub fn reads(&self) -> bool
        ensures { result ≡ reads self.now }
    {
        match self {
            Command::Solve(_) | Command::Validate | Command::Print | Command::Check => true,
            Command::Gen(_) | Command::Demo(_) => false,
        }
    }
}

/// The command that a line says, none where its options are out of their ranges, or there is no such model to generate.
fn command_in(line: &ArgMatches<'_>) -> Option<Command>
    ensures { MatchOption result (SaysNothing (subcommand_rows_of line.now)) (Says (subcommand_rows_of line.now)) }
{
    if let Some(solve) = line.subcommand_matches("solve") {
        return Some(Command::Solve(options_of(solve)?));
    }
    if line.subcommand_matches("validate").is_some() {
        return Some(Command::Validate);
    }
    if line.subcommand_matches("print").is_some() {
        return Some(Command::Print);
    }
    if let Some(line) = line.subcommand_matches("gen") {
        return Some(Command::Gen(recipe_of(line)?));
    }
    if let Some(line) = line.subcommand_matches("demo") {
        return Some(Command::Demo(recipe_of(line)?));
    }
    if line.subcommand_matches("check").is_some() {
        return Some(Command::Check);
    }
    None
}

/// The command that the words have, none where they are a usage fault. The first word is the program's name.
pub fn command_of(alloc: Global, words: &[String]) -> Result<Option<Command>, AllocError>
    ensures found { IfOk result (λ found. MatchOption found (IsUsageFault (texts_of words.now))
        (CommandLine (texts_of words.now))) }
    ensures one { HasOneCommand (texts_of words.now) }
{
    match matches_of(alloc, words)? {
        Some(line) => Ok(command_in(&line)),
        None => Ok(None),
    }
}
