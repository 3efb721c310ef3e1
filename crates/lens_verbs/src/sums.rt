//! What went wrong in a run, a line each: what its report leaves out.
//!
//! `Sums` watches a run. As it goes it says of each thread that halts by a fault which rule refused what it did (`faults`), and counts the calls
//! that are refused, of which the first of each status is told (`refusals`, `handles`). Where the run stops it says why jobs have failed, and
//! who can't move; threads that wait for each other in a ring are named as one cycle (`cycles`).

mod cycles;
mod faults;
mod handles;
mod lines;
mod refusals;
mod statuses;
mod waits;

pub use lines::Sums;
