//! The texts that are written: a model in its canonical form, a response to it, the four lines of a demonstration, the
//! two lines that say why an input is no valid model, and the line that says whether a response is verified.
//!
//! The contract of each function says its text exactly. A message is laid out by one definition for all kinds
//! (`text_of` in `specs/Layout.antt`), and each part of a model adds only which fields it has (`specs/Models.antt`, and
//! for what constraints demand `specs/Kinds.antt`). Every function appends to one text, so that a model is printed
//! without a copy of any of its parts.
//!
//! A model that was read is read back from its text, names, strategies and hint included: what is printed is cut into
//! pieces that are the tokens (`proofs/Pieces.antt`, `proofs/Cuts.antt`), and the tree of these tokens shows the fields
//! that were printed (`proofs/Shown.antt`). The message of a kind is a list of parts that may be left out
//! (`proofs/Parts.antt`), and each kind adds only which parts it has (`proofs/KindMessages.antt`).
#![tactic(auto)]

mod demonstration;
mod expression;
mod fault;
mod kind;
mod layout;
mod model;
mod objective;
mod quoting;
mod response;
mod verdict;

pub use demonstration::demo_text;
pub use fault::{Fault, fault_text};
pub use model::model_text;
pub use response::{Response, response_text};
pub use verdict::{refused_text, verified_text};
