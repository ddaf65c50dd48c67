//! Crews of workers on one model: in threads over the two shared tables, or in turns over one plain state.
//!
//! What a crew asks of each of its workers is two traits: that it can be made by its number (`Recruit`), and that it
//! takes turns and is seen when it has ended (`Member`). In threads a `Recruiter` makes each where it searches. Of a
//! worker a crew knows the kind that its number has, but not by which propagators it searches, and its proofs rest on
//! these contracts alone. What one worker finds, raises and learns the others see by the pool, the bounds and the
//! board, and the outcome comes from what all of them ended with: `solve_in_threads` and `solve_in_turns` answer a good
//! outcome (`IsGoodOutcome`), under every schedule of the threads.
#![tactic(auto)]

mod conclusion;
mod ended;
mod interleaved;
mod member;
mod numbering;
mod outcome;
mod recruiter;
mod seats;
mod table_port;
mod threads;

pub use cps_options::Options;
pub use ended::AnyEnded;
pub use interleaved::solve_in_turns;
pub use member::{Member, Recruit};
pub use numbering::kind_of;
pub use outcome::Outcome;
pub use recruiter::{Order, Recruiter, search};
pub use seats::Brief;
pub use table_port::TablePort;
pub use threads::solve_in_threads;
