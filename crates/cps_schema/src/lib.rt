//! The meaning of a document: a tree of fields to a model.
//!
//! Each message has a table of its fields, which says of each whether it is single or repeated and what
//! its values are (`specs/Tables`). A document is refused at its first field, in document order, that
//! its table does not admit (`specs/Faults`), and else is read as the model that its fields give by
//! name (`specs/Readings`). The contract is exact both ways. The code goes once over the fields of each
//! message, and has a file for each.
//!
//! A whole number is written as a decimal, an octal or a hexadecimal; those that are doubles in the source may be
//! floats, and are read exactly or refused (`specs/Floats`).
//!
//! A text is its strings joined, and is UTF-8 (`specs/Texts`). A member of an enum is given by its name or its number
//! (`specs/Members`). A strategy has fields of an older or of a newer form, and not of both.
//!
//! Field names, types and their meaning are those of the public message definitions of CP-SAT models.
#![tactic(auto)]

mod all_diff;
mod argument;
mod automaton;
mod boxes;
mod circuit;
mod closed;
mod constraint;
mod cumulative;
mod digits;
mod element;
mod error;
mod expression;
mod float;
mod form;
mod gather;
mod hint;
mod input;
mod interval;
mod intervals;
mod inverse;
mod kind;
mod linear;
mod lists;
mod literals;
mod member;
mod message;
mod model;
mod names;
mod number;
mod objective;
mod reservoir;
mod single;
mod strategy;
mod table;
mod taking;
mod text;
mod truth;
mod variable;

pub use closed::CLOSED;
pub use cps_model::FaultName;
pub use error::SchemaError;
pub use model::{model_of, model_with};
