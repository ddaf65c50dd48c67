//! The rules of quotients, remainders, products and greatest values.
//!
//! One test per kind says that no values between given ends meet the demand, and where all are fixed it decides it. All
//! else rests on that test: a bound is given where the part of the subject's range that it cuts off is excluded, and an
//! explanation is right where the facts' bounds and the denied atom are excluded. Which bounds are tried, how far an
//! end may move and how far a fact may be loosened is found by doubling and halving steps, and proved by the test
//! alone. Quotients are rounded towards zero and compared by products with the ends of the divisor's negative and
//! positive part; remainders are compared with what the least quotient leaves, and with what a greater one needs;
//! products are hulls of their corners, cut off past all values, and of two factors also by the signs of both. The
//! hulls are those of Moore, "Interval Analysis" (1966), chapter 3.
#![tactic(auto)]

mod arithmetic;
mod bounds;
mod ends;
mod facts;
mod greatest;
mod narrow;
mod product;
mod quotient;
mod range;
mod relation;
mod relax;
mod remainder;
mod signs;

pub use arithmetic::Arithmetic;
