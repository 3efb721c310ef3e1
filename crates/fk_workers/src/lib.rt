//! Workers: up to eight share one book of a run under a lock, and write it turn by turn.
//!
//! It stands on `fk_core` and `laws_runs` for what a run is, on `fk_burst` for what is made outside the lock, on `fk_rlock` for the lock, on
//! `fk_history` for the moves and on `fk_causes` for the gate that workers pass. It promises that whatever turns they take, the book is one
//! legal history from what it was begun from, and has ended where all of them are done.
//!
//! - `books`: a core with the moves that were made in it, and the book of a trace;
//! - `workers`: the workers, and their turns at the lock.
#![tactic(auto)]

pub mod books;
pub mod workers;

pub use books::{Book, PlayFail, Playable, play_all};
pub use workers::{run_all, work};
