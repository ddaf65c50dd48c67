//! What the log of a proof is: its items, and how each is written.
//!
//! A log says step by step why a response is right. Each item but a definition adds a clause over the model's
//! variables and the sums that were defined so far, and the last clause is empty. Whoever writes a log and whoever
//! checks it share what stands here, and no more: what an item says and how its line is written (`specs/Writing`),
//! which subjects a log speaks of (`specs/Subjects`), and the box of a clause over their domains (`specs/Boxes`). Unit
//! propagation from such a box is that of `cps_unit`. The form is that of clausal proofs (Goldberg and Novikov,
//! "Verification of proofs of unsatisfiability for CNF formulas", 2003) over atoms of integer variables. Beside them
//! stand the reasons of lazy clause generation (Ohrimenko, Stuckey and Codish, "Propagation via lazy clause
//! generation", 2009).
#![tactic(auto)]

mod item;
mod text;

pub use item::LogItem;
pub use text::log_text;
