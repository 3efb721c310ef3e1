//! Moves of a store whose user threads stand where they wait, and whose turn comes next.
//!
//! It stands on `fk_calls` for moves, on `fk_waits` for the lists of threads, and on `laws_waits` and `laws_moves`, which say what frees whom.
//! It promises that after each move every user thread stands once, that none that is queued can move, where who moved stands, and that the
//! first of the ready that can move comes next.
//!
//! - `whys`: why a user thread can't move, and what it waits for;
//! - `moved`: who stands where, from one move to the next;
//! - `picks`: whom a user picks, and whom a native server accepts;
//! - `next`: whose move comes next;
//! - `steps`: the moves themselves, with the lists kept.
#![tactic(auto)]

pub mod moved;
pub mod next;
pub mod picks;
pub mod steps;
pub mod whys;
