//! The core: a kernel with its native servers and its jobs, move by move.
//!
//! It stands on `rounds` for who moves next and by way of it on `moment` for what is ready, on `fk_served` for servers and on `fk_kernel` for
//! the machine's steps, on `fk_jobs` for jobs, on `laws_runs` for what a run is, and on `laws_subtrees::further` for what becomes of subtrees. It is
//! generic in its servers and in the code of its jobs.
//!
//! It promises that `turn` is the turn of a run: the machine's step, that each server hears what the move tells
//! at its port, or that its talk has ended, that the job whose move it is hears the answer, and that jobs end that are due and can't begin
//! (`specs/Cores/Cores.antt`); that `burst` is as many turns as moves of a running thread were made at once,
//! and `advance_by` as many as it says, none past the end of a round; that each plain subtree stays so, and its cut
//! does the move as which it sees this one, or nothing (`specs/Cores/Cuts.antt`); that a job's move leaves all but its nester's scratch and, of a checkpoint,
//! who holds the subtree, of a restore the new space (`specs/Cores/Leaves.antt`); that for want of memory all is as
//! before, and that memory lacks only where a ready move may want it (`specs/Cores/Memory.antt`); that `choose` finds a ready move, of a thread, a
//! server or a due job, wherever there is one and the budget isn't used, and at an even number of moves a due job's; and that `ended` tells how a run has ended (`moment`).

mod advancing;
mod bursts;
mod first;
mod given;
mod lacking;
mod looks;
mod room;
mod serving;
mod settling;
mod several;
mod speaking;
mod turns;

pub use fk_served::Kernel;
pub use turns::Core;
