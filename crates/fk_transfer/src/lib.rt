//! Messages: what the stages of a talk come to that move words or hand over the turn.
//!
//! It stands on `fk_plans` and `fk_changes::threads`, and promises of each stage, on either side of a talk,
//! that its verdict stands for the outcome of the stage's row in the abstract machine, and can be
//! carried out without memory.
#![tactic(auto)]

mod lines;
mod passing;
mod receiving;
mod sending;

pub use passing::{Passage, handing, over, over_ref, yielding};
pub use receiving::{awaits, receive, receive_ref};
pub use sending::{Telling, moved, moving, send, speaking};
