//! Traces: the moves of a run as a text, and back.
//!
//! A trace is the line `fluke-trace 1`, and then a line for each move: who moves and, where it picks,
//! a space and the pick. An object is named by the birth number of its space, a dot, and its slot.
//!
//! It stands on `fk_model` for moves and numbers, and knows nothing of what a move does: whether one
//! may follow others is a parameter of its definitions (`specs/Trace.antt`). It promises that
//! `trace_text` writes the trace of some moves, and that `after_first_line` and `first_move` take off
//! one line exactly where there is one. So a text is the trace of one list of legal moves at most.
//! `misspelled` tells the first line that is misspelled, whatever the moves are.
#![tactic(auto)]

mod numbers;
mod reading;
mod writing;

pub use reading::{after_first_line, cut_at, first_move, misspelled};
pub use writing::trace_text;
