//! The rule of all-different, by Hall intervals: what is found is certified, and only the certificate is proved.
//!
//! An interval of whole numbers that holds the values of as many positions as it has numbers is full, and no other
//! position has a value in it; one that holds those of more positions is crowded, and the body cannot hold. `Finder`
//! looks for both in one sweep of the positions by their greatest values, each put at the least free number (a
//! union-find over the numbers that can be reached), and in one of the mirrored positions. Of what it finds nothing is
//! believed: a full or crowded interval is counted again before it is used, and where it found none crowded, the
//! numbers at which it put the positions are looked through; that they are different shows that none is. Where that
//! fails, all pairs of ends are tried. A fixed position is full by itself, so its value leaves the others, inside their
//! domains too.
//!
//! What is kept between looks is believed as little. The sweeps are made only where an end moved: else the numbers at
//! which the positions were put are looked through again, and full intervals that gave nothing give nothing. The orders
//! of the positions by their ends are mended and not made anew. A fixed position whose value has left the others is
//! settled (`Settled`): as long as the trail keeps what was seen then it is not looked at, and the sweeps leave it out.
//!
//! The contract: no atom is given that the body does not give, the body is called impossible exactly where an interval
//! is crowded, and fixed positions without one have different values. An explanation counts again, in the store as it
//! was, as many positions as the interval has numbers, and says of each no more than that its value is in the interval.
//!
//! The sweep is that of López-Ortiz, Quimper, Tromp and van Beek, "A fast and simple algorithm for bounds consistency
//! of the alldifferent constraint" (2003), section 4, with the numbers that can be reached laid out before.
#![tactic(auto)]

mod all_different;
mod bars;
mod facts;
mod find;
mod interval;
mod judge;
mod order;
mod placing;
mod settled;

pub use all_different::AllDifferent;
