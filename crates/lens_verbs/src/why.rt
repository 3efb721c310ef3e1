//! Why threads stay where they are.
//!
//! `Why` watches a run up to where it stops, and then says of each thread that has no ready move what it waits for, and who could end
//! that; of a porter only where it is its job's turn; of a trace's move that isn't ready, why it isn't; and why jobs have
//! failed so far. A mutex doesn't keep who locked it: the run so far tells.

mod barred;
mod blocked;
mod holds;
mod known;
mod lines;
mod moves;
mod places;
mod reasons;
mod talks;

pub use holds::push_hold;
pub use known::{Known, Locking, known_of};
pub use lines::{Why, push_thread};
pub use places::push_place;
