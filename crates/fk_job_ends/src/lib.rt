//! How the jobs of a run have ended, as its report tells it.
//!
//! It stands on `fk_jobs` for jobs that have ended, on `fk_checkpoint` and `fk_restore` for how each of the two ends, and on `fk_report` for what is
//! told of them. It promises that each job is told as it has ended, with the image that it has made, and those that haven't as none
//! (`specs/Ends.antt`).
#![tactic(auto)]

mod ends;

pub use ends::{images_of, told_in};
