//! Threads in calls: what becomes of a thread whose stage is done, that falls asleep or wakes up, or
//! whose stage has moved words.
//!
//! It stands on `fk_store` and `fk_stages`. The registers of a calling thread stand for the stages
//! that it has before it; here it is proved what a change of these stages makes of the registers.
//! Each call promises that it makes of the store's world one change, that kinds and paths stay, and
//! that it takes no memory.

mod answers;
mod going;
mod receivers;
mod shifts;
mod sleepers;

pub use answers::{Answers, Four, answered, end_well, finish};
pub use receivers::receiving;
pub use shifts::{advance, awaited_by, count_moved, receive_of};
pub use sleepers::{asleep_on, fall_asleep, is_slept_on, wake, wake_all};
