//! The commands `play`, `run` and `soak`: a scenario is run, by the moves of a trace or by itself.
//!
//! It stands on `fk_commands` for scenarios, files and what a command prepares, on `fk_runs` for the run of a scenario from its first core,
//! and on `fk_gen` for the scenario of `soak`. `images` gets the images that its jobs need of the shelf, in the order of the jobs
//! (`specs/Images.antt`). It promises that `play`, `run` and `soak` come to what `specs/Play.antt` has: the report's moves are a legal
//! history from the scenario's first core, those of the trace or those that were chosen while one was left, and what is written is the
//! report of their last core. It answers a fault of the shelf only where a get failed.
#![tactic(auto)]

pub mod images;
pub mod play;
pub mod record_command;
pub mod replay_command;
pub mod run;
pub mod soak;
