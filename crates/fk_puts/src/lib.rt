//! What a command puts on the shelf of its run.
//!
//! It stands on `fk_causes` for the shelf, on `fk_commands` for reports, on `fk_codec::writing` and `fk_trace_text` for the files, and on
//! `fk_words` for commands. It promises that after a run the shelf has each image that a job has made, under its name, and the trace where
//! it has a name (`specs/Puts.antt`); or, where a put failed, those before it; and that all other files are as they were.
#![tactic(auto)]

mod puts;

pub use puts::put_files;
