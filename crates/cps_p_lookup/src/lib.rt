//! The rules of `element` and `table`.
//!
//! Both bodies say that one of several cases holds: of an element the index is a place, and the expression there has
//! the target's value; of a table the values are a row. A rule drops the cases that the domains rule out, and narrows
//! to what those that are left admit. A narrowing is explained by one or two facts for each case: they rule it out, or
//! give the narrowing there. `element` compares domains by their ends, and by values where one of two has a single one;
//! where one place is left, the target and the expression there lose what the other has not, and where each place that
//! is left has a single value, the target keeps those alone. `table` keeps each subject to the
//! values of its column in the rows that the domains leave. Values inside a domain's ends are looked at where it has
//! few more of them than there are cases; a large domain is kept between the ends. Where what is kept from the last
//! look finds each value in a row that is left, no more is done; else rows are scanned, the plain form of simple
//! tabular reduction: Lecoutre, "STR2: optimized simple tabular reduction for table constraints" (2011).
#![tactic(auto)]

mod bans;
mod cover;
mod denials;
mod element;
mod facts;
mod gaps;
mod index;
mod justify;
mod numbering;
mod places;
mod rows;
mod supports;
mod table;

pub use element::Element;
pub use table::Table;
