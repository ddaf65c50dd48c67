//! The structure of a model's text: tokens to a tree of fields.
//!
//! `document` reads the tokens in one pass, by the grammar of the Protocol Buffers text format
//! without extensions, and with at most 32 messages in each other. The contract is exact both ways:
//! tokens that are a document are read as its tree, and else the answer is the first token behind
//! which no document can go on.
//!
//! `specs/Grammar` has the grammar, one case for each rule, and `specs/Reading` the tree that a
//! document is read as. The code is a machine that looks at each token once: `machine` says which
//! tokens can go on a document, and `builder` what each adds to the tree.
#![tactic(auto)]

mod builder;
mod machine;
mod reading;
mod symbol;
mod tree;

pub use reading::{TextError, document};
pub use tree::{Field, Item, Items, Nested, Node, TokenRange};
