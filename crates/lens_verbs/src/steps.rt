//! What each move of a run does, a line a move.
//!
//! `Steps` watches a run and writes its lines: the trace's own line of the move, and behind it, after tabs, the move's number, who
//! moves, what that does, the registers that change, what native servers are told, and at which label and line the mover was. `push_act` says
//! what a mover is about to do.

mod acts;
mod changes;
mod few;
mod kept;
mod lines;
mod servers;
mod sides;
mod stepwise;

pub use acts::push_act;
pub use kept::Kept;
pub use lines::Steps;
pub use sides::{ended_port, other_side, talk_of};
pub use stepwise::{Keeps, Lines, Stepwise};
