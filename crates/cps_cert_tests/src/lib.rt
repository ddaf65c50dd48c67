//! Worked logs for the checker, through its public calls: whole inputs (`inputs`), items that follow from Boolean
//! constraints (`booleans`), from sums and the objective (`sums`), and from constraints whose assignments are tried
//! (`tried`), learnt clauses and assumptions (`learnt`), logs that a tracer writes (`traced`), logs that are right and
//! the same logs made wrong at one line (`wrong`), and lines that are no lines of a log (`malformed`).
//!
//! Each row was worked out by hand from what a log may say (docs/LOGS.md), and its comment says how where that is not
//! plain. A checker that refuses everything meets a law that only says what follows from `verified`, so each table has
//! rows of both verdicts. `reading` and `judging` are shared: the way from a text to its model and to a verdict.
#![tactic(auto)]

#[cfg(test)]
mod booleans;
#[cfg(test)]
mod inputs;
#[cfg(test)]
mod judging;
#[cfg(test)]
mod learnt;
#[cfg(test)]
mod malformed;
#[cfg(test)]
mod reading;
#[cfg(test)]
mod sums;
#[cfg(test)]
mod traced;
#[cfg(test)]
mod tried;
#[cfg(test)]
mod wrong;
