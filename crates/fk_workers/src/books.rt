//! Books of runs.
//!
//! A book is a core with the moves that were made in it, from what it was begun from on; its type keeps that these are a run.
//!
//! It stands on `fk_core` and `laws_runs` for what a run is, on `fk_rlock` for what is locked, on `fk_history` for the moves, and on
//! `fk_trace_text` for traces. It is generic in the core, of which it asks what `Playable` says.
//! It promises that the moves of a book are one legal history from the first core to the last one, that each call adds those that it says, and that the
//! book of a trace has the moves that it spells (`specs/Books/Shown.antt`, `specs/Books/Told.antt`, `specs/Books/Plays.antt`).

mod book;
mod cores;
mod playable;
mod plays;

pub use book::{Book, Gone};
pub use playable::{Lent, Playable, WORKERS};
pub use plays::{PlayFail, play_all};
