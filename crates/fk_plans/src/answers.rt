//! Carrying out what a porter's stage comes to, its answer laid into the caller's room.
//!
//! It stands on `fk_plans` for verdicts and plans. It promises what `carry_out` does of the world and of what is told; only the room is the caller's
//! (`specs/Answers/Rooms.antt`), so that no answer is copied from call to call.

mod answering;
mod laying;

pub use answering::answer;
pub use laying::lay;
