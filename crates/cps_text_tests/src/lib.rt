//! Worked texts for the crates that read, judge and print models, through their public calls: bytes to tokens
//! (`cutting`), tokens to a tree (`documents`), documents that are refused (`refusals`) and that are read (`models`,
//! `kinds`), the rules of a valid model (`rules`), assignments of a model (`values`), the same for every kind of
//! constraint (`kind_rules`, `kind_values` and `kind_times`), and what is written of models (`printing`, and
//! `printed_kinds` for every kind of constraint, open or closed) and of answers to them (`responses`).
//!
//! What a call does is proved. The rows here show that its contract says what was meant: each was worked out by hand
//! from the specification of the text format and from the message definitions of CP-SAT models. `reading` and `rows` are
//! shared: the way from a text to its model, and how what a row comes to is compared.
#![tactic(auto)]

#[cfg(test)]
mod cutting;
#[cfg(test)]
mod documents;
#[cfg(test)]
mod kind_rules;
#[cfg(test)]
mod kind_times;
#[cfg(test)]
mod kind_values;
#[cfg(test)]
mod kinds;
#[cfg(test)]
mod models;
#[cfg(test)]
mod printed_kinds;
#[cfg(test)]
mod printing;
#[cfg(test)]
mod reading;
#[cfg(test)]
mod refusals;
#[cfg(test)]
mod responses;
#[cfg(test)]
mod rows;
#[cfg(test)]
mod rules;
#[cfg(test)]
mod values;
