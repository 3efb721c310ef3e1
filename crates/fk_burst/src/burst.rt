//! Bursts: a worker takes a copy of a running thread with it, makes instructions there while others use the kernel, and then commits them
//! as so many moves of the thread.
//!
//! It stands on `fk_kernel`, on `copies` for the copy and its instructions, and on `laws_bursts` for what instructions beside the world
//! have to do with moves in it. None of it takes memory.
//!
//! It promises that `lease` gives a copy exactly of a thread that is ready in running mode, with the pages that `specs/Burst/Leases.antt` names;
//! that `run` makes exactly the instructions that `laws_bursts` defines, at most 64, up to a call, a halt or a word of a page that the lease
//! doesn't have; and that `commit` puts them into the kernel, as as many ready moves of the thread, exactly where `specs/Burst/Commits.antt`
//! allows it, and else leaves all as it is.

mod commits;
mod leases;

pub use commits::{commit, commit_held};
pub use leases::{Leased, count, lease, run};
