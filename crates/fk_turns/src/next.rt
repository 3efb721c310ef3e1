//! Whose move comes next, and where who moved stands then.
//!
//! It stands on `moved` for the lists of a store's user threads, and on `picks` and by way of it on `fk_calls` for whether a move
//! is ready. It promises that each user's thread stands once and none that is queued can move, that who moved stands last of the ready where a
//! move of it is ready and else last of the queued, at its cause, and that what comes next is the first of the ready that can move, those before
//! it being queued.

mod going;
mod looking;
mod placing;
mod taking;

pub use going::{next, waiting};
pub use placing::{after, put, ready_move};
pub use taking::first_to_take;
