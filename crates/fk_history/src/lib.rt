//! Histories of runs: lists of moves, of which those that are the same one after the other are kept as one.
//!
//! It stands on `fk_model` alone. It promises that contracts see the plain list of the moves: adding a move, as often as wanted, adds it so
//! often, and a history that is written out has each move at its place. A history takes its room at once, so that adding takes no memory.
#![tactic(auto)]

mod history;
mod repeats;

pub use history::{History, Moves};
