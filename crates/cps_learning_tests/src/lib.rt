//! Tests of conflict analysis, of the base of clauses and of branching, over their public calls alone.
//!
//! What these calls promise is proved where they stand. The tests compare them with worked rows, whose answers come
//! from outside, and see that a call with ample memory succeeds. In a crate of their own they do not have those proved
//! twice.
#![tactic(auto)]

/// An atom; a table, which may call no function, is written by it and the next two.
macro_rules! atom {
    ($subject:expr, $op:ident, $value:expr) => {
        Atom {
            subject: $subject,
            op: Op::$op,
            value: $value,
        }
    };
}

/// That a subject is 1 or more.
macro_rules! one {
    ($subject:expr) => {
        atom!($subject, Ge, 1)
    };
}

/// That a subject is 0 or less.
macro_rules! zero {
    ($subject:expr) => {
        atom!($subject, Le, 0)
    };
}

#[cfg(test)]
mod bases;
#[cfg(test)]
mod behind;
#[cfg(test)]
mod branching;
#[cfg(test)]
mod choices;
#[cfg(test)]
mod conflicts;
#[cfg(test)]
mod forgetting;
#[cfg(test)]
mod journals;
#[cfg(test)]
mod minimised;
#[cfg(test)]
mod models;
#[cfg(test)]
mod resting;
#[cfg(test)]
mod small;
