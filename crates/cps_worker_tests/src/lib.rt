//! Workers over a shared state, turn by turn: their turns and the bounds that they leave, which were worked out by
//! hand.
//! `models` builds the models, `turns` lets workers take their turns over a plain state, `cores` lets one go by cores,
//! `near` lets one do its rounds, `tables` lets two turn about over the tables that threads share, and `crews` lets
//! four hand each other solutions. `samples` has what a neighbourhood worker draws, with numbers that were worked out
//! by a generator written apart from the public description of PCG.
#![tactic(auto)]

#[cfg(test)]
mod cores;
#[cfg(test)]
mod crews;
#[cfg(test)]
mod models;
#[cfg(test)]
mod near;
#[cfg(test)]
mod samples;
#[cfg(test)]
mod tables;
#[cfg(test)]
mod turns;
