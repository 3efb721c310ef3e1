//! Whose turn it is: who is ready and who is queued at what, and what may free whom.
//!
//! It stands on `fk_waits`. It promises that a thread which is woken stands in the queue no more, that waking of those whom an object may free, of those whom
//! any change may, or of all leaves nobody of these queued, everybody else where he was and marked as he was, and that none of it wants memory.

mod turns;

pub use turns::{Mark, Turns};
