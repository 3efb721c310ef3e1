//! The report of a run: how many moves it made, how it ended, how its jobs ended, what its consoles were sent, and where each user
//! thread stands.
//!
//! It stands on `fk_model` for threads, on `fk_natives` for consoles, on `fk_finish` for where a subtree isn't closed, on `fk_image`
//! for what a checkpoint makes, and on `fk_store` for the world that a store is. It promises
//! that `threads_of` gives each user thread of that world once, in the order of paths
//! (`specs/Threads.antt`), that `all_halted` says whether all of them have halted, and that `run_text` writes what `specs/Report.antt` has, its
//! lines of jobs by `specs/Jobs.antt`.
#![tactic(auto)]

mod end;
mod job_end;
mod jobs;
mod paths;
mod report;
mod resting;
mod threads;

pub use end::End;
pub use job_end::JobEnd;
pub use jobs::{end_at, first_refused};
pub use paths::push_down;
pub use report::{end_word, outs_text, run_text};
pub use resting::all_halted;
pub use threads::{ThreadState, threads_of};
