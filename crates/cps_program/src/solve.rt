//! The whole program: from words and an input to a text and an exit status.
ghost use Rattle.std.specs.Prelude.{◌≡◌, ◌≢◌, ◌≤◌, ◌⊎◌, IfOk, OnOk, IsErrOf, IsSomeAnd, MatchBool, List, ℕ, None, Err, false};
ghost use Rattle.std.specs.Io.KnownBytes.{Appends};
ghost use Rattle.cps_outer.specs.Faults.{Rose};
ghost use Rattle.cps_outer.specs.Transfers.{TakesPrefix};
ghost use Rattle.cps_program.specs.Answers.{IsAnswerTo};
ghost use Rattle.cps_options.specs.declared.options.Options.{Options as OptionsOf};
ghost use Rattle.cps_command.specs.Lines.{texts_of, IsReadingLine, ReadsNothing};
ghost use Rattle.cps_program.specs.Checks.{IsCheckLine, HasValidModel};
ghost use Rattle.cps_program.specs.Runs.{is_silent, IsAnswerExit, AreBytesLeft, IsReadThrough, GivesOut, IsLogLine, GivesLog, LeavesVerified, GivesRefusal};
ghost use Rattle.cps_program.specs.declared.solve.Unanswered.TheVariants.{OutOfMemory};

use crate::answer::{Answer, command_answer, fault_answer, usage_answer};
use crate::exits::{OUT_OF_MEMORY, READ_FAILED, WRITE_FAILED};
use crate::ran::Ran;
use cps_command::command_of;
use cps_outer::{Gate, Host, ReadError, Sink, Source, WriteFault, read_all, write_all};
use cps_print::Fault;
use std::alloc::{AllocError, Global};
use std::sync::Wait;
use std::thread::Threads;

/// The most bytes that an input may have.
const MOST_BYTES: usize = 67_108_864;

/// Why a run has no answer.
#[derive(Drop)]
enum Unanswered {
    ReadFault,
    OutOfMemory,
}

impl From<AllocError> for Unanswered {
    ghost from_gives = { λ _ e. e ≡ OutOfMemory };

    fn from(_: AllocError) -> Self {
        Unanswered::OutOfMemory
    }
}

/// The answer of the words to the bytes of a source.
fn answer_of<R: Threads + Wait + Sync, S: Source, G: Gate + Sync>(
    host: &Host<'_, R, G>,
    words: &[String],
    source: &mut S,
) -> Result<Answer, Unanswered>
    ensures right { IfOk result (λ answer. (bytes : List ℕ) × AreBytesLeft (S.left source.old) bytes
        × IsAnswerTo (texts_of words.now) bytes answer) }
    ensures read { OnOk result (IsReadingLine (texts_of words.now)
        → IsReadThrough (S.left source.old) (S.left source.new)) }
    ensures nothing { ReadsNothing (texts_of words.now)
        → (source.new ≡ source.old) × (result ≢ Err Unanswered.ReadFault) }
    ensures fault { IsErrOf result Unanswered.ReadFault → Rose (S.faults source.old) (S.faults source.new) }
    ensures kept { result ≢ Err Unanswered.ReadFault → S.faults source.new ≡ S.faults source.old }
{
    let Some(command) = command_of(host.alloc, words)? else {
        return Ok(usage_answer(host.alloc)?);
    };
    if !command.reads() {
        return Ok(command_answer(host, command, &[])?);
    }
    match read_all(host.alloc, source, MOST_BYTES) {
        Ok(bytes) => Ok(command_answer(host, command, &bytes)?),
        Err(ReadError::TooLong) => Ok(fault_answer(host.alloc, &Fault::TooLong)?),
        Err(ReadError::ReadFault) => Err(Unanswered::ReadFault),
        Err(ReadError::OutOfMemory) => Err(Unanswered::OutOfMemory),
    }
}

/// Writes the text of an answer.
fn write_answer<K: Sink>(sink: &mut K, answer: Answer) -> Ran
    requires { IsAnswerExit answer.exit }
    ensures text { is_silent result.exit ≡ false }
    ensures outcome { result.outcome ≡ answer.outcome }
    ensures whole { result.exit ≢ 4
        → (result.exit ≡ answer.exit) × Appends (K.held sink.old) (K.held sink.new) answer.text }
    ensures part { result.exit ≡ 4 → TakesPrefix (K.held sink.old) (K.held sink.new) answer.text }
    ensures fault { result.exit ≡ 4 → Rose (K.faults sink.old) (K.faults sink.new) }
    ensures kept { result.exit ≢ 4 → K.faults sink.new ≡ K.faults sink.old }
{
    match write_all(sink, answer.text.as_str().as_bytes()) {
        Ok(()) => Ran {
            exit: answer.exit,
            outcome: answer.outcome,
        },
        Err(WriteFault) => Ran {
            exit: WRITE_FAILED,
            outcome: answer.outcome,
        },
    }
}

/// Runs the program on its words, the program's name first: reads the source to its end where the command reads, does
/// the work, and writes the whole text after it. A run with threads holds its workers at the gate before they begin.
///
/// The exit status is 0 if the command did its work, 1 if the input is no valid model, 2 if the words are a usage
/// fault, 3 if a read failed, 4 if a write failed, 5 if memory ran out, and 6 if a response is not verified.
pub fn solve_main<R: Threads + Wait + Sync, S: Source, K: Sink, G: Gate + Sync>(
    rt: &R,
    alloc: Global,
    words: &[String],
    source: &mut S,
    sink: &mut K,
    gate: &G,
) -> Ran
    // 0, 1, 2, 4 and 6: there is an answer of the words to the bytes that were left, and the sink took its text; with 4 a
    // first part of it. 3 and 5: nothing is written.
    ensures answer { MatchBool (is_silent result.exit)
        ((result.outcome ≡ None) × (sink.new ≡ sink.old))
        (GivesOut (texts_of words.now) (S.left source.old) (K.held sink.old) (K.held sink.new) result) }
    ensures exits { result.exit ≤ 6 }

    // `solve --log` with 0: the sink took a response with the log of its proof. What its items say is so, and the log is
    // closed where the response is optimal or infeasible. So `check` can refuse it at a line of a constraint, the
    // objective or a sum alone.
    ensures logged { (options : OptionsOf) → IsLogLine (texts_of words.now) options → result.exit ≡ 0
        → GivesLog options (S.left source.old) (K.held sink.old) (K.held sink.new) }

    // `check` with 0: the response that was left is accepted with its log, and so it is true of the model.
    ensures verified { IsCheckLine (texts_of words.now) → result.exit ≡ 0 → LeavesVerified (S.left source.old) }

    // 6 comes of `check` alone, and names the first line of the input that is refused, or that is missing.
    ensures refused { result.exit ≡ 6 → IsCheckLine (texts_of words.now)
        × GivesRefusal (S.left source.old) (K.held sink.old) (K.held sink.new) }

    // If no read or write failed and memory did not run out, `check` of a valid model's text has one of these two.
    ensures decided { IsCheckLine (texts_of words.now) → IsSomeAnd (S.left source.old) HasValidModel
        → is_silent result.exit ≡ false → result.exit ≢ 4 → (result.exit ≡ 0) ⊎ (result.exit ≡ 6) }

    // If there is a text, a command that reads has read everything, or one byte more than an input may have.
    ensures read { is_silent result.exit ≡ false → IsReadingLine (texts_of words.now)
        → IsReadThrough (S.left source.old) (S.left source.new) }

    // Words that have no command, or one that generates a model, leave the source as it was.
    ensures nothing { ReadsNothing (texts_of words.now) → (source.new ≡ source.old) × (result.exit ≢ 3) }

    // 3 and 4 come only where a fault was counted, and a counted fault is always answered.
    ensures read_fault { result.exit ≡ 3 → Rose (S.faults source.old) (S.faults source.new) }
    ensures no_read_fault { result.exit ≢ 3 → S.faults source.new ≡ S.faults source.old }
    ensures write_fault { result.exit ≡ 4 → Rose (K.faults sink.old) (K.faults sink.new) }
    ensures no_write_fault { result.exit ≢ 4 → K.faults sink.new ≡ K.faults sink.old }
{
    let host = Host { rt, alloc, gate };
    match answer_of(&host, words, source) {
        Ok(answer) => write_answer(sink, answer),
        Err(Unanswered::ReadFault) => Ran {
            exit: READ_FAILED,
            outcome: None,
        },
        Err(Unanswered::OutOfMemory) => Ran {
            exit: OUT_OF_MEMORY,
            outcome: None,
        },
    }
}
