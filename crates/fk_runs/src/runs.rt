//! What a run comes to, by a trace or by itself, from the core with which it begins.
//!
//! `whole` has the report made, and what is written of it, from the book of the moves; and `begun` does so from a scenario on, so that no
//! crate above holds a core.
//!
//! It stands on `fk_first` for the core with which a scenario begins, on `fk_workers` for the book of a trace and of a run by workers, on
//! `run_reports` for the report and what is written of it, and on `fk_commands` for what a command prepares. It promises the outcomes
//! and texts of `specs/Runs/Runs.antt`: the moves in a report are a legal history from the first core, those that the trace spells or those that
//! were chosen while one was left, whatever turns the workers took; or the index of the first line that is bad.

mod again;
mod begun;
mod transparency;
mod whole;

pub use again::a_run_plays_again;
pub use begun::{play_first, run_first, soak_first};
pub use fk_first::maker_of;
pub use transparency::reports_are_transparent;
pub use whole::play_core;
