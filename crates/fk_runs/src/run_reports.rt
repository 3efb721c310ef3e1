//! The report of a run that has come to a core, and what is written of it.
//!
//! It stands on `fk_first` for the core, on `fk_job_ends` for how its jobs have ended, on `fk_report` and `fk_soak` for the texts, and on
//! `fk_commands` for what a command prepares. It promises that the report tells how the run has ended in that core, with its jobs, and that
//! what is written is the report's text, or the line of `soak` (`specs/RunReports/Made.antt`).

mod made;

pub use made::{prepared, soaked};
