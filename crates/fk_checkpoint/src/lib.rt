//! The checkpoint: a job that holds a subtree, tells where it isn't closed or gathers its image, and releases it.
//!
//! It stands on `laws_checkpoint`, whose machine says what is asked next after each answer and what it ends with, and on
//! `fk_image` and `fk_finish` for images. It sees answers and nothing of the kernel, and promises to be that machine, whatever the answers are;
//! so what `laws_checkpoint` says over every interleaving holds of it. Only making room takes memory.
//!
//! - `seeking`: the walk over a subtree, and the search for the first place where it isn't closed;
//! - `gathering`: what stands in each space, and where pointers lead;
//! - `assembly`: the image of what was gathered;
//! - `checkpoint`: the job.
#![tactic(auto)]

pub mod assembly;
pub mod checkpoint;
pub mod gathering;
pub mod seeking;

pub use checkpoint::{Checkpoint, CheckpointEnd};
