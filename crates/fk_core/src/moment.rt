//! A moment of a run: which moves are ready, which job is due, and whether the run has ended.
//!
//! It stands on `fk_served` for servers and by way of it on `fk_kernel` for the machine, on `fk_jobs` for jobs, and on `laws_runs`
//! for what a run is. It is generic in its servers and in the code of its jobs, and changes nothing.
//!
//! It promises that a move is called ready exactly where it is (`specs/Moment/Moments.antt`): a thread's, a server's act, or the due job's call;
//! that a look finds one wherever there is one; that a job ends without a move exactly where it is due and can't begin; and that
//! `ended` tells how a run has ended (`specs/Moment/Ends.antt`).

mod acts;
mod ends;
mod finding;
mod job;
mod moment;
mod readiness;

pub use moment::Moment;
