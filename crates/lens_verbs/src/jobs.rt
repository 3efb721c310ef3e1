//! Jobs in words: how they have ended, and why; and what the one is at whose turn it is.
//!
//! `JobWatch` watches a run. Why a job has failed is said as it ends: what its hold kept as it was until then stands there still.

mod dead;
mod ends;
mod foreign;
mod names;
mod noport;
mod resting;
mod watch;

pub use names::{Ending, ending_word, fate_of};
pub use watch::JobWatch;
