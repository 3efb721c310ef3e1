//! The core: a kernel with its native servers and its jobs, move by move.
//!
//! It stands on `fk_kernel` for the machine's steps, on `fk_served` for servers, on `fk_jobs` for jobs, on `laws_runs` for what a run is, and on
//! `laws_subtrees` for what becomes of subtrees. It is generic in its servers and in the code of its jobs. It promises that each turn is the
//! turn of a run, that whoever can move is found, and how a run has ended.
//!
//! - `moment`: which moves are ready at a moment of a run, which job is due, whether the run has ended;
//! - `rounds`: who moves before others;
//! - `cores`: the core, turn by turn.
#![tactic(auto)]

pub mod cores;
pub mod moment;
pub mod rounds;

pub use cores::{Core, Kernel};
