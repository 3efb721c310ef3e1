//! The jobs of a scenario, one after the other, each a machine over answers.
//!
//! It stands on `laws_house` for what jobs are, on `laws_runs` for what a run makes of them, and on `fk_checkpoint` and `fk_restore`, which do
//! them. It knows nothing of worlds: who has it says when an answer comes, and when a job has ended without a move. `Jobs` is generic in the code of
//! a job, of which it wants a machine's contract (`JobMachine`); `Porter` is that code, at a checkpoint or at a restore (`specs/Porters.antt`).
//!
//! It promises that what it asks for is the next call of the job whose turn it is, that an answer brings that job on, or to its end
//! with the places of its first move and its last, and that the next one's turn has come then; that no call picks anybody, and that a
//! checkpoint's is fit wherever it is made (`specs/Fitting.antt`). Taking an answer takes no memory: `reserve` makes room before, and the
//! job's machine, which shares its image with whoever has it. In the core of a run, what it has come to is what `laws_runs` says of a
//! job's move, and of an end without one (`specs/Turns.antt`).
#![tactic(auto)]

mod begins;
mod ended;
mod job_machine;
mod jobs;
mod plan;
mod porter;

pub use ended::{Ended, Finish, Unmoved};
pub use job_machine::{
    JobMachine, checkpoint_calls_fit_anywhere, fit_anywhere_is_fit, jobs_end_so, jobs_move_so,
    jobs_pick_nobody,
};
pub use jobs::Jobs;
pub use plan::{PlannedJob, Source, Task};
pub use porter::Porter;
