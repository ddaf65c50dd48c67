//! Messages that are read by a list of their fields: what each field gives is gathered, and the message is made of it.
//!
//! A message of many fields states them as lines: a name, and what it takes. One function walks the fields of the text
//! and fills a slot per line, with every refusal in one place, and it is proved once for every list of lines. The
//! messages of expressions, variables, literals, `linear`, `no_overlap`, hints, objectives, strategies, constraints and of
//! the model are read by hand, field by field, and need no list.
//! A name is looked up by comparing it with each line in turn: there are at most seven, too few for a table to pay.
ghost use Rattle.std.specs.Prelude.{◌≡◌, ◌<◌, ◌++◌, ◌&&◌, ℕ, List, [], ◌∷◌, true, false, None, Some, map, length, OnOk, IfOk, IfErr, IfSome};
ghost use Rattle.cps_textproto.specs.Trees.{Tree, tree_of, values_of};
ghost use Rattle.cps_schema.specs.Written.{token_text};
ghost use Rattle.cps_schema.specs.Inputs.{written_of};
ghost use Rattle.cps_schema.specs.Tables.{Message};
ghost use Rattle.cps_schema.specs.Faults.{refused_at, values_fault, fields_fault};
ghost use Rattle.cps_schema.specs.Answers.{Refuses};
ghost use Rattle.cps_schema.specs.Steps.{field_then, Passes, Stops};
ghost use Rattle.cps_schema.specs.Parts.{is_other};
ghost use Rattle.cps_schema.specs.Gathered.{content_taken, contents_of, takes_one, form_taken, IsTableOf, are_apart, nothing, joined, found_in, found, held, lines_of, all_from, IsGathered, is_mixed, again_fault, many_fault, line_fault, form_behind, line_place, left};

use super::error::SchemaError;
use super::form::{Form, is_other};
use super::input::{Input, same_text, token_text};
use super::lists::{add_ints, add_refs};
use super::message::add_messages;
use super::names::refused_field;
use super::single::{Value, alone, bracket, fields_of, wrong_kind};
use super::truth::add_truths;
use cps_model::{FaultName, LinearExpr};
use cps_textproto::{Field, Node};
use std::alloc::{AllocError, Global};
use std::vec::IntoIter;

/// What the values of a field are.
#[derive(Clone, Copy)]
pub enum Contents {
    References,
    Numbers,
    Truths,
    Expressions,
}

/// What a field takes.
#[derive(Clone, Copy)]
pub enum Takes {
    /// Any number of values.
    Many(Contents),
    /// One value.
    One(Contents),
    /// Any number of values, where the message has two forms and the field is of this one.
    ManyOf(Form, Contents),
    /// One value of such a field.
    OneOf(Form, Contents),
}

/// A field of a message: its name, and what it takes.
#[derive(Clone, Copy)]
pub struct Line(pub &'static [u8], pub Takes);

/// What was read so far of the fields of one name.
#[derive(Drop)]
pub struct Slot {
    pub line: Line,
    /// Whether there was such a field.
    pub given: bool,
    pub references: Vec<i32>,
    pub numbers: Vec<i64>,
    pub truths: Vec<bool>,
    pub expressions: Vec<LinearExpr>,
}

/// What was read so far of a message.
#[derive(Drop)]
pub struct Gathered {
    pub slots: Vec<Slot>,
    /// The form of the fields so far, if the message has two forms. `None` before the first of them.
    pub form: Option<Form>,
}

/// What the values of a field are.
fn contents_of(takes: Takes) -> Contents
    ensures { result ≡ contents_of takes }
{
    match takes {
        Takes::Many(contents) => contents,
        Takes::One(contents) => contents,
        Takes::ManyOf(_, contents) => contents,
        Takes::OneOf(_, contents) => contents,
    }
}

/// Whether a field takes one value only.
fn takes_one(takes: Takes) -> bool
    ensures { result ≡ takes_one takes }
{
    match takes {
        Takes::Many(_) => false,
        Takes::One(_) => true,
        Takes::ManyOf(_, _) => false,
        Takes::OneOf(_, _) => true,
    }
}

/// Whether a field of the other form was read before.
fn is_mixed(given: Option<Form>, takes: Takes) -> bool
    ensures { result ≡ is_mixed given (form_taken takes) }
{
    match takes {
        Takes::Many(_) => false,
        Takes::One(_) => false,
        Takes::ManyOf(form, _) => is_other(given, form),
        Takes::OneOf(form, _) => is_other(given, form),
    }
}

/// The form that is known after a field.
fn form_behind(given: Option<Form>, takes: Takes) -> Option<Form>
    ensures { result ≡ form_behind given takes }
{
    match takes {
        Takes::Many(_) => given,
        Takes::One(_) => given,
        Takes::ManyOf(form, _) => Some(form),
        Takes::OneOf(form, _) => Some(form),
    }
}

/// Refuses a second field if only one value is taken, and a field of the other form.
fn check_again(again: bool, mixed: bool, field: &Field) -> Result<(), SchemaError>
    ensures ok { OnOk result (again_fault again mixed ≡ None) }
    ensures err { IfErr result (Refuses (refused_at field.now.name (again_fault again mixed))) }
{
    let token = field.name as usize;
    if again {
        return Err(SchemaError::Fault {
            name: FaultName::Repeated,
            token,
        });
    }
    if mixed {
        return Err(SchemaError::Fault {
            name: FaultName::MixedForms,
            token,
        });
    }
    Ok(())
}

/// Refuses a list if only one value is taken.
fn check_alone(input: &Input, one: bool, field: &Field) -> Result<(), SchemaError>
    ensures ok { OnOk result (many_fault (written_of input.now) one field.now ≡ None) }
    ensures err { IfErr result (Refuses (many_fault (written_of input.now) one field.now)) }
{
    if !one {
        return Ok(());
    }
    match alone(field) {
        Some(Value::Scalar(_)) => Ok(()),
        Some(Value::Message(_, _)) => Ok(()),
        None => Err(wrong_kind(bracket(input, field.name))),
    }
}

/// Adds the values of a field.
fn add_values(
    alloc: Global,
    input: &Input,
    slot: &mut Slot,
    field: &Field,
) -> Result<(), SchemaError>
    ensures fault { OnOk result (values_fault (written_of input.now)
        (Some (content_taken (contents_of slot.old.line.1))) (values_of field.now.items) ≡ None) }
    ensures added { OnOk result (held slot.new
        ≡ joined (held slot.old) (found_in (written_of input.now) (contents_of slot.old.line.1)
        (values_of field.now.items))) }
    ensures line { slot.new.line ≡ slot.old.line }
    ensures err { IfErr result (Refuses
        (values_fault (written_of input.now) (Some (content_taken (contents_of slot.old.line.1)))
        (values_of field.now.items))) }
{
    slot.given = true;
    match contents_of(slot.line.1) {
        Contents::References => add_refs(input, &mut slot.references, field),
        Contents::Numbers => add_ints(input, &mut slot.numbers, field),
        Contents::Truths => add_truths(input, &mut slot.truths, field),
        Contents::Expressions => add_messages(alloc, input, &mut slot.expressions, field),
    }
}

/// Reads a further field of a line.
fn add_to(
    alloc: Global,
    input: &Input,
    slot: &mut Slot,
    form: &mut Option<Form>,
    field: &Field,
) -> Result<(), SchemaError>
    ensures fault { OnOk result (line_fault (written_of input.now) slot.old.line.1 slot.old.given form.old field.now
        ≡ None) }
    ensures added { OnOk result (held slot.new
        ≡ joined (held slot.old) (found_in (written_of input.now) (contents_of slot.old.line.1)
        (values_of field.now.items))) }
    ensures line { OnOk result (slot.new.line ≡ slot.old.line) }
    ensures same { OnOk result (is_mixed form.old (form_taken slot.old.line.1) ≡ false) }
    ensures form { OnOk result (form.new ≡ form_behind form.old slot.old.line.1) }
    ensures err { IfErr result (Refuses
        (line_fault (written_of input.now) slot.old.line.1 slot.old.given form.old field.now)) }
{
    let takes = slot.line.1;
    let one = takes_one(takes);
    check_again(one && slot.given, is_mixed(*form, takes), field)?;
    check_alone(input, one, field)?;
    *form = form_behind(*form, takes);
    add_values(alloc, input, slot, field)
}

/// The place of the line with this name. `None` if there is no such line.
fn place_of(slots: &[Slot], name: &[u8]) -> Option<usize>
    ensures { result ≡ line_place 0 slots.now name.now }
{
    for (i, slot) in slots.iter().enumerate() {
        if same_text(name, slot.line.0) {
            return Some(i);
        }
    }
    None
}

/// Reads a field of a message.
fn add_field(
    alloc: Global,
    input: &Input,
    parts: &mut Gathered,
    field: &Field,
) -> Result<(), SchemaError>
    requires { are_apart (lines_of parts.old.slots.items) ≡ true }
    ensures passes { OnOk result ((m : Message) (before : List (List ℕ)) →
        IsTableOf m (lines_of parts.old.slots.items) → IsGathered m parts.old before →
        Passes (written_of input.now) m before field.now
        × IsGathered m parts.new (token_text (written_of input.now) field.now.name ∷ before)) }
    ensures read { OnOk result ((rest : Tree) →
        all_from (written_of input.now) parts.old.slots.items (field_then field.now rest)
        ≡ all_from (written_of input.now) parts.new.slots.items rest) }
    ensures lines { OnOk result (lines_of parts.new.slots.items ≡ lines_of parts.old.slots.items) }
    ensures err { IfErr result (λ e. (m : Message) (before : List (List ℕ)) →
        IsTableOf m (lines_of parts.old.slots.items) → IsGathered m parts.old before →
        Stops (written_of input.now) m before field.now e) }
{
    let Some(place) = place_of(&parts.slots, token_text(input, field.name as usize)) else {
        return Err(refused_field(input, &[], field.name));
    };
    let slot = &mut parts.slots[place];
    add_to(alloc, input, slot, &mut parts.form, field)
}

/// The slots of lines, before any field was read.
fn empty_slots(alloc: Global, lines: &[Line]) -> Result<Vec<Slot>, AllocError>
    ensures lines { IfOk result (λ slots. lines_of slots.items ≡ lines.now) }
    ensures empty { IfOk result (λ slots. map held slots.items ≡ map (λ _. nothing) lines.now) }
{
    let mut slots = Vec::with_capacity(alloc, lines.len())?;
    for line in lines {
        slots.push(Slot {
            line: *line,
            given: false,
            references: Vec::new(alloc),
            numbers: Vec::new(alloc),
            truths: Vec::new(alloc),
            expressions: Vec::new(alloc),
        })?;
    }
    Ok(slots)
}

/// Reads a message whose fields are those of these lines: a slot for each line, with what its fields give, in order.
pub(crate) fn gather(
    alloc: Global,
    input: &Input,
    lines: &[Line],
    node: &Node,
) -> Result<IntoIter<Slot>, SchemaError>
    requires { are_apart lines.now ≡ true }
    ensures accepted { IfOk result
        (λ _. (m : Message) → IsTableOf m lines.now
        → fields_fault (written_of input.now) m [] (tree_of node.now) ≡ None) }
    ensures reading { IfOk result
        (λ slots. left slots ≡ map (found (written_of input.now) (tree_of node.now)) lines.now) }
    ensures err { IfErr result (λ e. (m : Message) → IsTableOf m lines.now
        → Refuses (fields_fault (written_of input.now) m [] (tree_of node.now)) e) }
{
    let mut parts = Gathered {
        slots: empty_slots(alloc, lines)?,
        form: None,
    };
    for field in fields_of(node) {
        match add_field(alloc, input, &mut parts, field) {
            Ok(()) => {}
            Err(error) => return Err(error),
        }
    }
    let Gathered { slots, .. } = parts;
    Ok(slots.into_iter())
}
