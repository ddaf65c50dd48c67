//! Strategies: expressions in one of two forms, and two enums.
//!
//! The older form gives references, which stand for the expressions that they are; a field of the one form after one
//! of the other is refused. The parts read so far keep both lists and which form came. References are kept as they are
//! and not made into expressions, which would take many times the memory.
ghost use Rattle.std.specs.Prelude.{◌≡◌, ◌++◌, ℕ, List, [], ◌∷◌, true, false, None, Some, map, OnOk, IfOk, IfErr};
ghost use Rattle.cps_textproto.specs.Trees.{Tree, no_fields, tree_of, values_of};
ghost use Rattle.cps_schema.specs.Written.{Written, token_text};
ghost use Rattle.cps_schema.specs.Inputs.{written_of};
ghost use Rattle.cps_schema.specs.Tables.{strategy_message, expression_message, number, message};
ghost use Rattle.cps_schema.specs.Faults.{fields_fault, values_fault};
ghost use Rattle.cps_schema.specs.Readings.{value_numbers, value_messages, read_expression, read_strategy};
ghost use Rattle.cps_schema.specs.Values.{nested_trees, trees_fault};
ghost use Rattle.cps_schema.specs.Answers.{Refuses};
ghost use Rattle.cps_schema.specs.Steps.{field_then, Passes, Stops, FormedPasses, FormedStops};
ghost use Rattle.cps_schema.specs.Parts.{strategy_from, is_other, IsStrategyGiven};

use super::error::SchemaError;
use super::form::{Form, take_form};
use super::input::{Input, same_text, token_text};
use super::lists::add_refs;
use super::member::{set_choose, set_select};
use super::message::{Message, add_messages};
use super::names::refused_field;
use super::number::Number;
use super::single::fields_of;
use cps_model::{Choose, Exprs, LinearExpr, Select, Strategy};
use cps_textproto::{Field, Node};
use std::alloc::Global;

/// The fields of this message that CP-SAT has and that are not served: each is refused as unsupported.
const UNSUPPORTED: [&[u8]; 0] = [];

/// What was read so far of a strategy: its expressions in the newer form, or in the older one as references.
#[derive(Drop)]
pub struct StrategyParts {
    pub exprs: Vec<LinearExpr>,
    pub variables: Vec<i32>,
    /// The form of the fields of expressions so far. `None` before the first of them.
    pub form: Option<Form>,
    pub choose: Option<Choose>,
    pub select: Option<Select>,
}

/// Adds the expressions of a field of the newer form.
fn add_newer(
    alloc: Global,
    input: &Input,
    form: &mut Option<Form>,
    exprs: &mut Vec<LinearExpr>,
    field: &Field,
) -> Result<(), SchemaError>
    ensures passes { OnOk result (FormedPasses (written_of input.now) field.now Form.Newer
        (message expression_message) (is_other form.old Form.Newer)) }
    ensures added { OnOk result (exprs.new.items
        ≡ exprs.old.items ++ map (read_expression (written_of input.now))
        (value_messages (values_of field.now.items))) }
    ensures same { OnOk result (is_other form.old Form.Newer ≡ false) }
    ensures taken { OnOk result (form.new ≡ Some Form.Newer) }
    ensures err { IfErr result (FormedStops (written_of input.now) field.now Form.Newer (message expression_message)
        (is_other form.old Form.Newer)) }
{
    match take_form(form, Form::Newer, field) {
        Ok(()) => add_messages(alloc, input, exprs, field),
        Err(error) => Err(error),
    }
}

/// Adds the references of a field of the older form.
fn add_older(
    input: &Input,
    form: &mut Option<Form>,
    variables: &mut Vec<i32>,
    field: &Field,
) -> Result<(), SchemaError>
    ensures passes { OnOk result (FormedPasses (written_of input.now) field.now Form.Older (number Number.Int32)
        (is_other form.old Form.Older)) }
    ensures added { OnOk result (variables.new.items
        ≡ variables.old.items ++ value_numbers (written_of input.now) (values_of field.now.items)) }
    ensures same { OnOk result (is_other form.old Form.Older ≡ false) }
    ensures taken { OnOk result (form.new ≡ Some Form.Older) }
    ensures err { IfErr result (FormedStops (written_of input.now) field.now Form.Older (number Number.Int32)
        (is_other form.old Form.Older)) }
{
    match take_form(form, Form::Older, field) {
        Ok(()) => add_refs(input, variables, field),
        Err(error) => Err(error),
    }
}

/// Reads a field of a strategy.
fn add_field(
    alloc: Global,
    input: &Input,
    parts: &mut StrategyParts,
    field: &Field,
) -> Result<(), SchemaError>
    ensures passes { OnOk result ((before : List (List ℕ)) → IsStrategyGiven parts.old before →
        Passes (written_of input.now) strategy_message before field.now
        × IsStrategyGiven parts.new (token_text (written_of input.now) field.now.name ∷ before)) }
    ensures read { OnOk result ((rest : Tree) →
        strategy_from (written_of input.now) parts.old (field_then field.now rest)
        ≡ strategy_from (written_of input.now) parts.new rest) }
    ensures err { IfErr result (λ e. (before : List (List ℕ)) → IsStrategyGiven parts.old before →
        Stops (written_of input.now) strategy_message before field.now e) }
{
    let name = token_text(input, field.name as usize);
    if same_text(name, b"exprs") {
        add_newer(alloc, input, &mut parts.form, &mut parts.exprs, field)
    } else if same_text(name, b"variables") {
        add_older(input, &mut parts.form, &mut parts.variables, field)
    } else if same_text(name, b"variable_selection_strategy") {
        set_choose(input, &mut parts.choose, field)
    } else if same_text(name, b"domain_reduction_strategy") {
        set_select(input, &mut parts.select, field)
    } else {
        Err(refused_field(input, &UNSUPPORTED, field.name))
    }
}

/// The strategy of these parts alone.
#[tactic(auto, using(crate::proofs::Slots::first_read, crate::proofs::Slots::no_further))]
fn strategy_of(parts: StrategyParts) -> Strategy
    ensures { (w : Written) → result ≡ strategy_from w parts no_fields }
{
    let StrategyParts {
        exprs,
        variables,
        choose,
        select,
        ..
    } = parts;
    Strategy {
        exprs: Exprs::of(exprs, variables),
        choose: choose.unwrap_or(Choose::First),
        select: select.unwrap_or(Select::MinValue),
    }
}

/// The strategy that a message gives.
fn read_strategy(alloc: Global, input: &Input, node: &Node) -> Result<Strategy, SchemaError>
    ensures accepted { IfOk result
        (λ _. fields_fault (written_of input.now) strategy_message [] (tree_of node.now) ≡ None) }
    ensures reading { IfOk result (λ strategy. strategy ≡ read_strategy (written_of input.now) (tree_of node.now)) }
    ensures err { IfErr result (Refuses (fields_fault (written_of input.now) strategy_message [] (tree_of node.now))) }
{
    let mut parts = StrategyParts {
        exprs: Vec::new(alloc),
        variables: Vec::new(alloc),
        form: None,
        choose: None,
        select: None,
    };
    for field in fields_of(node) {
        add_field(alloc, input, &mut parts, field)?;
    }
    Ok(strategy_of(parts))
}

impl Message for Strategy {
    ghost use Rattle.cps_schema.specs.Tables.{strategy_message};
    ghost use Rattle.cps_schema.specs.Readings.{read_strategy};

    ghost fields = { strategy_message };

    ghost reads = { read_strategy };

    fn read(alloc: Global, input: &Input, node: &Node) -> Result<Self, SchemaError> {
        read_strategy(alloc, input, node)
    }
}
