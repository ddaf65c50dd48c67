//! The tree under construction: what each token adds to it.
//!
//! The machine has already said that the token can stand there, so only running out of memory can fail here. What a
//! token does is told from the mode alone (`Action`), apart from doing it. Open messages stand on a list, so nesting
//! takes no recursion. Finished lists are moved into the tree in exactly the memory that they take, since trees of long
//! texts fill most of the memory that a run has. A scalar is kept as its tokens and not as its value: what a value is
//! depends on its field, which is not known here.
ghost use Rattle.std.specs.Prelude.{◌≡◌, ◌+◌, ◌<◌, ◌^◌, false, true, OnOk, IfOk, [], ◌∷◌};
ghost use Rattle.cps_textproto.specs.declared.tree.Field.{Field};
ghost use Rattle.cps_textproto.specs.Trees.{tree_of, field_list, values_of, range_values, nested_value, nested_values, then_fields, then_values, without_last, field, scalar_value, message_value, no_fields, no_values};
ghost use Rattle.cps_textproto.specs.Machine.{open_message_of, top_of};
ghost use Rattle.cps_textproto.specs.Building.{action_of, list_action, act, build_of, stack_of, with_field};

use super::machine::{Mode, OpenMessage};
use super::symbol::{Bracket, Symbol};
use super::tree::{Field, Item, Items, Nested, Node, TokenRange};
use std::alloc::{AllocError, Global};
use std::mem;

/// What a token adds to the tree.
#[derive(Clone, Copy)]
pub enum Action {
    Nothing,
    /// It names a field.
    Name,
    /// It begins a signed scalar, or a scalar of a list.
    First,
    /// It is the field's value, or the first string of it.
    Scalar,
    /// It ends the field's signed value.
    SignedScalar,
    /// It is a further string of the field's value.
    MoreText,
    /// It begins a list.
    Begin,
    /// It stands behind a scalar of the list.
    Item,
    /// It stands behind the last scalar of the list, and ends that.
    LastItem,
    /// It ends a list of messages, perhaps of none.
    End,
    /// It opens a message.
    Open(OpenMessage),
    /// It closes one.
    Close,
}

/// An open message: the fields before it and the messages of its list before it, its field's name, the token
/// that opened it, and what the machine sees of it.
#[derive(Drop)]
pub struct Opened {
    pub fields: Vec<Field>,
    pub messages: Vec<Nested>,
    pub name: u32,
    pub first: u32,
    pub form: OpenMessage,
}

/// The fields so far of the innermost message, the messages round it, and the parts of a field that
/// is not finished: its name, the token that its scalar begins with, and the scalars and the messages of
/// its list.
#[derive(Drop)]
pub struct Builder {
    pub fields: Vec<Field>,
    pub opened: Vec<Opened>,
    pub name: u32,
    pub first: u32,
    pub scalars: Vec<TokenRange>,
    pub messages: Vec<Nested>,
}

/// What a token adds to the tree, by what could come before it.
pub(crate) fn action_of(mode: Mode, symbol: Symbol) -> Action
    ensures { result ≡ action_of mode symbol }
{
    match mode {
        Mode::Between | Mode::After => match symbol {
            Symbol::Name => Action::Name,
            Symbol::Close(_) => Action::Close,
            _ => Action::Nothing,
        },
        Mode::Texted => match symbol {
            Symbol::Text => Action::MoreText,
            Symbol::Name => Action::Name,
            Symbol::Close(_) => Action::Close,
            _ => Action::Nothing,
        },
        Mode::Named => match symbol {
            Symbol::Open(bracket) => opens(bracket, false),
            Symbol::OpenList => Action::Begin,
            _ => Action::Nothing,
        },
        Mode::Valued => match symbol {
            Symbol::Name | Symbol::Number | Symbol::Text => Action::Scalar,
            Symbol::Minus => Action::First,
            Symbol::Open(bracket) => opens(bracket, false),
            Symbol::OpenList => Action::Begin,
            _ => Action::Nothing,
        },
        Mode::Signed => match symbol {
            Symbol::Name | Symbol::Number => Action::SignedScalar,
            _ => Action::Nothing,
        },
        _ => list_action(mode, symbol),
    }
}

/// What a token of a list adds to the tree.
fn list_action(mode: Mode, symbol: Symbol) -> Action
    ensures { result ≡ list_action mode symbol }
{
    match mode {
        Mode::ListFirst => match symbol {
            Symbol::Name | Symbol::Number | Symbol::Text | Symbol::Minus => Action::First,
            Symbol::Open(bracket) => opens(bracket, true),
            Symbol::CloseList => Action::End,
            _ => Action::Nothing,
        },
        Mode::ListNext => match symbol {
            Symbol::Name | Symbol::Number | Symbol::Text | Symbol::Minus => Action::First,
            _ => Action::Nothing,
        },
        Mode::ListItem | Mode::ListTexted => match symbol {
            Symbol::Comma => Action::Item,
            Symbol::CloseList => Action::LastItem,
            _ => Action::Nothing,
        },
        Mode::MessagesFirst => match symbol {
            Symbol::Open(bracket) => opens(bracket, true),
            Symbol::CloseList => Action::End,
            _ => Action::Nothing,
        },
        Mode::MessagesNext => match symbol {
            Symbol::Open(bracket) => opens(bracket, true),
            _ => Action::Nothing,
        },
        Mode::MessagesItem => match symbol {
            Symbol::CloseList => Action::End,
            _ => Action::Nothing,
        },
        _ => Action::Nothing,
    }
}

fn opens(bracket: Bracket, listed: bool) -> Action
    ensures { result ≡ Action.Open (open_message_of bracket listed) }
{
    Action::Open(OpenMessage { bracket, listed })
}

/// The innermost open message, as the machine sees it.
#[tactic(auto, using(crate::proofs::Tops::last_is_top, crate::proofs::Tops::no_last_no_top))]
pub(crate) fn innermost(builder: &Builder) -> Option<OpenMessage>
    ensures { result ≡ top_of (stack_of (build_of builder.now)) }
{
    match builder.opened.last() {
        Some(opened) => Some(opened.form),
        None => None,
    }
}

#[tactic(auto, using(crate::proofs::Pushes::field_list_more))]
fn push_field(
    fields: &mut Vec<Field>,
    name: u32,
    list: bool,
    items: Items,
) -> Result<(), AllocError>
    ensures { OnOk result (field_list fields.new.items
        ≡ then_fields (field_list fields.old.items) (field name list (values_of items) no_fields)) }
{
    fields.push(Field { name, list, items })?;
    Ok(())
}

#[tactic(auto, using(crate::proofs::Pushes::field_list_less))]
fn pop_field(fields: &mut Vec<Field>)
    ensures { field_list fields.new.items ≡ without_last (field_list fields.old.items) }
{
    fields.pop();
}

#[tactic(auto, using(crate::proofs::Pushes::range_values_more))]
fn push_scalar(scalars: &mut Vec<TokenRange>, first: u32, end: u32) -> Result<(), AllocError>
    ensures { OnOk result (range_values scalars.new.items
        ≡ then_values (range_values scalars.old.items) (scalar_value first end no_values)) }
{
    scalars.push(TokenRange { first, end })?;
    Ok(())
}

/// Adds a message, in no more memory than its fields take.
#[tactic(auto, using(crate::proofs::Pushes::nested_values_more))]
fn push_message(
    messages: &mut Vec<Nested>,
    first: u32,
    fields: Vec<Field>,
) -> Result<(), AllocError>
    ensures { OnOk result (nested_values messages.new.items
        ≡ then_values (nested_values messages.old.items) (message_value first (field_list fields.items) no_values)) }
{
    messages.push(nested(first, exact_node(fields)))?;
    Ok(())
}

fn nested(first: u32, node: Node) -> Nested
    ensures { nested_value result no_values ≡ message_value first (tree_of node) no_values }
{
    Nested { first, node }
}

#[tactic(auto, using(crate::proofs::Views::tree_of_node))]
pub(crate) fn node_of(fields: Vec<Field>) -> Node
    ensures { tree_of result ≡ field_list fields.items }
{
    Node { fields }
}

/// A message's fields, in no more memory than they take.
fn exact_node(fields: Vec<Field>) -> Node
    ensures { tree_of result ≡ field_list fields.items }
{
    let mut exact = fields;
    exact.shrink_to_fit();
    node_of(exact)
}

fn one_scalar(first: u32, end: u32) -> Items
    ensures { values_of result ≡ scalar_value first end no_values }
{
    Items::One(Item::Scalar { first, end })
}

fn one_nested(nested: Nested) -> Items
    ensures { values_of result ≡ nested_value nested no_values }
{
    let Nested { first, node } = nested;
    one_message(first, node)
}

fn one_message(first: u32, node: Node) -> Items
    ensures { values_of result ≡ message_value first (tree_of node) no_values }
{
    Items::One(Item::Message { first, node })
}

/// The scalars of a list, in no more memory than they take.
fn scalars_of(alloc: Global, scalars: &[TokenRange]) -> Result<Items, AllocError>
    ensures { IfOk result (λ items. values_of items ≡ range_values scalars.now) }
{
    if let [TokenRange { first, end }] = scalars {
        return Ok(one_scalar(*first, *end));
    }
    Ok(Items::Scalars(Vec::from_slice(alloc, scalars)?))
}

/// The messages of a list, in no more memory than they take.
#[tactic(auto, using(crate::proofs::Pushes::only_nested))]
fn messages_of(messages: Vec<Nested>) -> Items
    ensures { values_of result ≡ nested_values messages.items }
{
    let mut exact = messages;
    if exact.len() != 1 {
        exact.shrink_to_fit();
        return many_messages(exact);
    }
    match exact.pop() {
        Some(only) => one_nested(only),
        None => many_messages(exact),
    }
}

fn many_messages(messages: Vec<Nested>) -> Items
    ensures { values_of result ≡ nested_values messages.items }
{
    Items::Messages(messages)
}

/// Adds the field with the one scalar `first..end`.
fn end_scalar(builder: &mut Builder, first: u32, end: u32) -> Result<(), AllocError>
    ensures { OnOk result (build_of builder.new
        ≡ with_field (build_of builder.old) false (scalar_value first end no_values)) }
{
    push_field(
        &mut builder.fields,
        builder.name,
        false,
        one_scalar(first, end),
    )
}

/// Adds a further string to the last field.
fn more_text(builder: &mut Builder, token: u32) -> Result<(), AllocError>
    requires { token + 1 < 2 ^ 32 }
    ensures { OnOk result (build_of builder.new ≡ act Action.MoreText token (build_of builder.old)) }
{
    pop_field(&mut builder.fields);
    let first = builder.first;
    end_scalar(builder, first, token + 1)
}

/// Adds the field with the list of scalars, the last of which ends before this token.
fn end_scalars(builder: &mut Builder, alloc: Global, end: u32) -> Result<(), AllocError>
    ensures { OnOk result (build_of builder.new ≡ act Action.LastItem end (build_of builder.old)) }
{
    push_scalar(&mut builder.scalars, builder.first, end)?;
    let items = scalars_of(alloc, &builder.scalars)?;
    builder.scalars.clear();
    push_field(&mut builder.fields, builder.name, true, items)
}

/// Adds the field with the list of messages.
fn end_messages(builder: &mut Builder, alloc: Global) -> Result<(), AllocError>
    ensures { OnOk result (build_of builder.new ≡ act Action.End 0 (build_of builder.old)) }
{
    let messages = mem::replace(&mut builder.messages, Vec::new(alloc));
    push_field(
        &mut builder.fields,
        builder.name,
        true,
        messages_of(messages),
    )
}

/// Sets the fields and the messages so far aside, and begins those of a new message.
#[tactic(auto, using(crate::proofs::Pushes::outer_onto_more))]
fn open_message(
    builder: &mut Builder,
    alloc: Global,
    first: u32,
    form: OpenMessage,
) -> Result<(), AllocError>
    ensures { OnOk result (build_of builder.new ≡ act (Action.Open form) first (build_of builder.old)) }
{
    let fields = mem::replace(&mut builder.fields, Vec::new(alloc));
    let messages = mem::replace(&mut builder.messages, Vec::new(alloc));
    let name = builder.name;
    builder.opened.push(Opened {
        fields,
        messages,
        name,
        first,
        form,
    })?;
    Ok(())
}

/// Adds the message to the messages of its list, or as a field to the fields that were put aside.
#[tactic(auto, using(crate::proofs::Pushes::outer_onto_more))]
fn close_message(builder: &mut Builder) -> Result<(), AllocError>
    ensures { OnOk result (build_of builder.new ≡ act Action.Close 0 (build_of builder.old)) }
{
    let Some(opened) = builder.opened.pop() else {
        return Ok(());
    };
    let Opened {
        fields,
        messages,
        name,
        first,
        form,
    } = opened;
    let inner = mem::replace(&mut builder.fields, fields);
    builder.messages = messages;
    builder.name = name;
    if form.listed {
        push_message(&mut builder.messages, first, inner)
    } else {
        let items = one_message(first, exact_node(inner));
        push_field(&mut builder.fields, name, false, items)
    }
}

/// Carries out what a token adds.
pub(crate) fn act(
    builder: &mut Builder,
    alloc: Global,
    action: Action,
    token: u32,
) -> Result<(), AllocError>
    requires { token + 1 < 2 ^ 32 }
    ensures { OnOk result (build_of builder.new ≡ act action token (build_of builder.old)) }
{
    match action {
        Action::Nothing => Ok(()),
        Action::Name => {
            builder.name = token;
            Ok(())
        }
        Action::First => {
            builder.first = token;
            Ok(())
        }
        Action::Scalar => {
            builder.first = token;
            end_scalar(builder, token, token + 1)
        }
        Action::SignedScalar => {
            let first = builder.first;
            end_scalar(builder, first, token + 1)
        }
        Action::MoreText => more_text(builder, token),
        Action::Begin => {
            builder.scalars.clear();
            builder.messages.clear();
            Ok(())
        }
        Action::Item => push_scalar(&mut builder.scalars, builder.first, token),
        Action::LastItem => end_scalars(builder, alloc, token),
        Action::End => end_messages(builder, alloc),
        Action::Open(form) => open_message(builder, alloc, token, form),
        Action::Close => close_message(builder),
    }
}
