//! The line that `soak` prints.
//!
//! It stands on `fk_report` for how a run ends and on `fk_natives` for consoles, and promises that `soak_line` writes the line of
//! `specs/Line.antt`.
#![tactic(auto)]

mod line;

pub use line::soak_line;
