//! The text for an input that is no valid model.
ghost use Rattle.std.specs.Prelude.{◌≡◌, IfOk, string_bytes};
ghost use Rattle.cps_print.specs.Faults.{fault_name, place_text, cause_text, fault_text};

use cps_model::{FaultName, Place};
use std::alloc::{AllocError, Global};

/// Why an input is no valid model. Bytes are counted from 0.
#[derive(Clone, Copy)]
pub enum Fault {
    /// The bytes are no document.
    Text { byte: usize },
    /// A field is refused.
    Field { name: FaultName, byte: usize },
    /// A rule of validity is broken.
    Rule { rule: u8, place: Place },
    /// The input has more bytes than may be read.
    TooLong,
}

fn name_of(name: FaultName) -> &'static str
    ensures { result.now ≡ fault_name name }
{
    match name {
        FaultName::UnknownField => "UnknownField",
        FaultName::Unsupported => "Unsupported",
        FaultName::Repeated => "Repeated",
        FaultName::TwoKinds => "TwoKinds",
        FaultName::MixedForms => "MixedForms",
        FaultName::WrongKind => "WrongKind",
        FaultName::OutOfRange => "OutOfRange",
        FaultName::NotWhole => "NotWhole",
    }
}

fn place_text(alloc: Global, place: Place) -> Result<String, AllocError>
    ensures { IfOk result (λ text. string_bytes text ≡ place_text place) }
{
    match place {
        Place::Model => String::from_str(alloc, "model"),
        Place::Variable(i) => format!(in alloc; "variable {i}"),
        Place::Constraint(i) => format!(in alloc; "constraint {i}"),
        Place::Objective => String::from_str(alloc, "objective"),
        Place::Strategy(i) => format!(in alloc; "strategy {i}"),
        Place::Hint => String::from_str(alloc, "hint"),
        Place::Assumption(i) => format!(in alloc; "assumption {i}"),
    }
}

fn rule_text(alloc: Global, rule: u8, place: Place) -> Result<String, AllocError>
    ensures { IfOk result (λ text. string_bytes text ≡ cause_text (Fault.Rule rule place)) }
{
    let place = place_text(alloc, place)?;
    format!(in alloc; "invalid V{rule} at {place}")
}

fn cause_text(alloc: Global, fault: Fault) -> Result<String, AllocError>
    ensures { IfOk result (λ text. string_bytes text ≡ cause_text fault) }
{
    match fault {
        Fault::Text { byte } => format!(in alloc; "text fault at byte {byte}"),
        Fault::Field { name, byte } => {
            let name = name_of(name);
            format!(in alloc; "field fault {name} at byte {byte}")
        }
        Fault::Rule { rule, place } => rule_text(alloc, rule, place),
        Fault::TooLong => String::from_str(alloc, "input longer than 67108864 bytes"),
    }
}

/// The two lines for an input that is no valid model.
pub fn fault_text(alloc: Global, fault: &Fault) -> Result<String, AllocError>
    ensures { IfOk result (λ text. string_bytes text ≡ fault_text fault.now) }
{
    let cause = cause_text(alloc, *fault)?;
    format!(in alloc; "status: MODEL_INVALID\n# {cause}\n")
}
