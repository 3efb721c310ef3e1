//! The checkpoint: a job that holds a subtree, tells where it isn't closed or gathers its image, and releases it.
//!
//! It stands on `seeking`, `gathering` and `assembly` for its parts, and on
//! `laws_checkpoint`, whose machine says what is asked next after each answer and what it ends with. It sees answers and nothing of
//! the kernel, and promises to be that machine, whatever the answers are. So what `laws_checkpoint` says over every interleaving
//! holds of it.

mod checkpoint;
mod end;
mod ending;
mod left;

pub use checkpoint::Checkpoint;
pub use end::CheckpointEnd;
