//! The tree of a document, by token numbers.

/// The fields of a message, or of the whole document, in order.
#[cycle(tree)]
#[derive(Debug, Drop)]
pub struct Node {
    pub fields: Vec<Field>,
}

/// A field: the token of its name, whether its values stand in a list, and the values.
#[cycle(tree)]
#[derive(Debug, Drop)]
pub struct Field {
    pub name: u32,
    pub list: bool,
    pub items: Items,
}

/// The values of a field. One value or none takes no memory of its own.
#[cycle(tree)]
#[derive(Debug, Drop)]
pub enum Items {
    One(Item),
    Scalars(Vec<TokenRange>),
    Messages(Vec<Nested>),
}

/// A value: the scalar on the tokens `first..end`, or a message with the token that opens it.
#[cycle(tree)]
#[derive(Debug, Drop)]
pub enum Item {
    Scalar { first: u32, end: u32 },
    Message { first: u32, node: Node },
}

/// The scalar on the tokens `first..end`.
#[derive(Clone, Copy, Debug)]
pub struct TokenRange {
    pub first: u32,
    pub end: u32,
}

/// A message of a list, with the token that opens it.
#[cycle(tree)]
#[derive(Debug, Drop)]
pub struct Nested {
    pub first: u32,
    pub node: Node,
}
