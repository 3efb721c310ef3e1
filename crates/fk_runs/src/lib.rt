//! What a run comes to, by a trace or by itself, from the core with which it begins to its report.
//!
//! It stands on `fk_first` for that core, on `fk_workers` for the book of the run, on `fk_job_ends`, `fk_report` and `fk_soak` for texts, and on
//! `fk_commands` for what a command prepares. It promises that the moves in a report are a legal history from the first core, those that the
//! trace spells or those that were chosen while one was left, whatever turns the workers took, and that what is written is the report's text.
//!
//! - `run_reports`: the report of a run that has come to a core, and what is written of it;
//! - `runs`: runs by a trace or by workers, from a scenario on;
//! - `recordings`: runs that are recorded, and played again from the record.
#![tactic(auto)]

pub mod recordings;
pub mod run_reports;
pub mod runs;

pub use recordings::{a_record_plays_again, record_first, replay_first, replays_play_again};
pub use runs::{
    a_run_plays_again, maker_of, play_first, reports_are_transparent, run_first, soak_first,
};
