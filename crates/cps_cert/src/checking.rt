//! The check of a response with its log: the lines of the response, the items of the log, and the end.
//!
//! Lines are taken from the bytes one after another, each read once.
ghost use Rattle.std.specs.Prelude.{◌≡◌, ◌↔◌, ◌<◌, ◌^◌, ◌+◌, ℕ, [], IfOk, MatchResult};
ghost use Rattle.cps_cert.specs.declared.verdict.Verdict.TheVariants.{Verified, Refused};
ghost use Rattle.cps_model.specs.declared.model.CpModel.{CpModel as CpModelOf};
ghost use Rattle.cps_log.specs.Deriving.{empty_derivation};
ghost use Rattle.cps_cert.specs.Domains.{IsNearClaim};
ghost use Rattle.cps_cert.specs.Lines.{at_status, in_log, at_end, finished};
ghost use Rattle.cps_cert.specs.Parts.{feed_count};
ghost use Rattle.cps_cert.specs.Progress.{Passes, StopsAt, IsStop};
ghost use Rattle.cps_cert.specs.Verdicts.{Accepts, RefusesAfter};

use crate::claim::Claim;
use crate::cursor::{Cursor, next_line};
use crate::fields::is_text;
use crate::ledger::{Ledger, Taken};
use crate::response::{NextPhase, ResponsePhase, take_line};
use crate::verdict::Verdict;
use cps_validate::ValidModel;
use std::alloc::{AllocError, Global};

/// Why a check ends before the end of the log.
pub(crate) enum Stop {
    /// The line with this number is refused, or is missing.
    Refused(u64),
    OutOfMemory,
}

impl From<AllocError> for Stop {
    ghost use Rattle.std.specs.Prelude.{◌≡◌};
    ghost use Rattle.cps_cert.specs.declared.checking.Stop.TheVariants.{OutOfMemory};

    ghost from_gives = { λ _ e. e ≡ OutOfMemory };

    fn from(_: AllocError) -> Self {
        Stop::OutOfMemory
    }
}

/// Takes the lines of a response up to `%log`: what it claims, and where the log begins.
fn take_response<'a>(
    alloc: Global,
    model: &ValidModel,
    start: Cursor<'a>,
) -> Result<(Claim, Cursor<'a>), Stop>
    requires { start.number + feed_count start.rest.now < 2 ^ 64 }
    ensures { MatchResult result (λ p. IsNearClaim p.0 × Passes model.now at_status start.entry.rest.now
        start.entry.number (in_log p.0 empty_derivation) p.1.rest.now p.1.number)
        (IsStop model.now at_status start.entry.rest.now start.entry.number) }
{
    let mut phase = ResponsePhase::AtStatus;
    let mut cursor = start;
    while let Some((line, behind)) = next_line(cursor) {
        match take_line(alloc, model, phase, line)? {
            None => return Err(Stop::Refused(cursor.number)),
            Some(NextPhase::Log(claim)) => return Ok((claim, behind)),
            Some(NextPhase::Response(next)) => phase = next,
        }
        cursor = behind;
    }
    Err(Stop::Refused(cursor.number))
}

/// Takes the items of a log up to the empty clause: where the line behind it begins.
fn take_log<'a>(
    alloc: Global,
    model: &ValidModel,
    claim: &Claim,
    start: Cursor<'a>,
) -> Result<Cursor<'a>, Stop>
    requires fits { start.number + feed_count start.rest.now < 2 ^ 64 }
    requires near { IsNearClaim claim.now }
    ensures { MatchResult result (λ behind. Passes model.now (in_log claim.now empty_derivation) start.entry.rest.now
        start.entry.number at_end behind.rest.now behind.number)
        (IsStop model.now (in_log claim.now empty_derivation) start.entry.rest.now start.entry.number) }
{
    let mut ledger = Ledger::new(alloc, model)?;
    let mut cursor = start;
    while let Some((line, behind)) = next_line(cursor) {
        match ledger.take_item(alloc, model, claim, line)? {
            Taken::Refused => return Err(Stop::Refused(cursor.number)),
            Taken::Closing => return Ok(behind),
            Taken::Added => cursor = behind,
        }
    }
    Err(Stop::Refused(cursor.number))
}

/// Takes the line `%end`, behind which nothing stands.
fn take_end(start: Cursor<'_>) -> Result<(), Stop>
    requires { start.number + feed_count start.rest.now < 2 ^ 64 }
    ensures { (m : CpModelOf) → MatchResult result (λ _. (number : ℕ) × Passes m at_end start.entry.rest.now
        start.entry.number finished [] number) (IsStop m at_end start.entry.rest.now start.entry.number) }
{
    let Some((line, behind)) = next_line(start) else {
        return Err(Stop::Refused(start.number));
    };
    if !is_text(line, "%end") {
        return Err(Stop::Refused(start.number));
    }
    if !behind.rest.is_empty() {
        return Err(Stop::Refused(behind.number));
    }
    Ok(())
}

/// Takes the log of a claim: its items, and the end.
fn take_proof(
    alloc: Global,
    model: &ValidModel,
    claim: &Claim,
    start: Cursor<'_>,
) -> Result<(), Stop>
    requires fits { start.number + feed_count start.rest.now < 2 ^ 64 }
    requires near { IsNearClaim claim.now }
    ensures { MatchResult result (λ _. (number : ℕ) × Passes model.now (in_log claim.now empty_derivation)
        start.entry.rest.now start.entry.number finished [] number)
        (IsStop model.now (in_log claim.now empty_derivation) start.entry.rest.now start.entry.number) }
{
    let end = take_log(alloc, model, claim, start)?;
    take_end(end)
}

/// Takes all lines: a response, and the log of what it claims.
fn take_all(alloc: Global, model: &ValidModel, start: Cursor<'_>) -> Result<(), Stop>
    requires { start.number + feed_count start.rest.now < 2 ^ 64 }
    ensures { MatchResult result (λ _. Accepts model.now start.entry.rest.now)
        (IsStop model.now at_status start.entry.rest.now start.entry.number) }
{
    match take_response(alloc, model, start) {
        Ok((claim, items)) => take_proof(alloc, model, &claim, items),
        Err(stop) => Err(stop),
    }
}

/// Checks a response with its log against a model: all bytes behind the line `%response`, the first of which stands in
/// the line with the number `first_line`. Fails only where memory is wanting.
pub fn check(
    alloc: Global,
    model: &ValidModel,
    bytes: &[u8],
    first_line: u64,
) -> Result<Verdict, AllocError>
    requires { first_line + feed_count bytes.now < 2 ^ 64 }
    ensures verified { IfOk result (λ verdict. (verdict ≡ Verified) ↔ Accepts model.now bytes.now) }
    ensures refused { IfOk result (λ verdict. (line : ℕ) → verdict ≡ Refused line
        → (count : ℕ) × (line ≡ first_line + count) × RefusesAfter model.now bytes.now count) }
{
    let start = Cursor {
        rest: bytes,
        number: first_line,
    };
    match take_all(alloc, model, start) {
        Ok(()) => Ok(Verdict::Verified),
        Err(Stop::Refused(line)) => Ok(Verdict::Refused { line }),
        Err(Stop::OutOfMemory) => Err(AllocError),
    }
}
