//! The text for a response that was checked by the log of its proof.
ghost use Rattle.std.specs.Prelude.{◌≡◌, IfOk, string_bytes};
ghost use Rattle.cps_print.specs.Verdicts.{verified_text, refused_text};

use std::alloc::{AllocError, Global};

/// The line for a response whose log is accepted to its end.
pub fn verified_text(alloc: Global) -> Result<String, AllocError>
    ensures { IfOk result (λ text. string_bytes text ≡ verified_text) }
{
    String::from_str(alloc, "verified\n")
}

/// The line for a response that is refused at a line, lines being counted from 1 over the whole input.
pub fn refused_text(alloc: Global, line: u64) -> Result<String, AllocError>
    ensures { IfOk result (λ text. string_bytes text ≡ refused_text line) }
{
    format!(in alloc; "not verified at line {line}\n")
}
