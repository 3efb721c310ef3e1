//! Bursts: a worker takes a copy of a running thread with it, makes instructions there while others use the kernel, and then commits them
//! as so many moves of the thread.
//!
//! It stands on `fk_kernel` for the moves, on `fk_user` for what a word asks for, and on `laws_bursts` for what instructions beside the world
//! have to do with moves in it. It promises that a burst is made of moves that were ready, or changes nothing. It takes no memory.
//!
//! - `copies`: the copy of a thread and of some pages, and instructions in it;
//! - `burst`: lease, run and commit.
#![tactic(auto)]

pub mod burst;
pub mod copies;

pub use burst::{Leased, commit, commit_held, count, lease, run};
