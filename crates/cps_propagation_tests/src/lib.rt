//! Tests of propagation over public calls, from the instance of a model to its engine.
//!
//! Each module has one subject. Expected domains, conflicts and reasons are worked out by hand from the constraints,
//! and a run's reasons are those that are made when they are asked for.
#![tactic(auto)]

/// That a literal is true; a table, which may call no function, is written by it.
macro_rules! yes {
    ($subject:expr) => {
        Atom {
            subject: $subject,
            op: Op::Ge,
            value: 1,
        }
    };
}

/// That a literal is false.
macro_rules! no {
    ($subject:expr) => {
        Atom {
            subject: $subject,
            op: Op::Le,
            value: 0,
        }
    };
}

#[cfg(test)]
mod boolean_reasons;
#[cfg(test)]
mod boolean_runs;
#[cfg(test)]
mod booleans;
#[cfg(test)]
mod engines;
#[cfg(test)]
mod instances;
#[cfg(test)]
mod reading;
#[cfg(test)]
mod runs;
#[cfg(test)]
mod stores;
#[cfg(test)]
mod sums;
#[cfg(test)]
mod tasks;
