//! Worked runs over the public calls at the outer edge: bytes that come in and go out, command lines, and the models that
//! their words generate (`families`, and `numbers` with what was worked out by a generator written apart from the public
//! description of PCG). All code here is tests: they stand apart, so that the crates they call are proved once.
#![tactic(auto)]

#[cfg(test)]
mod command_lines;
#[cfg(test)]
mod families;
#[cfg(test)]
mod numbers;
#[cfg(test)]
mod streams;
#[cfg(test)]
mod transfers;
