//! The restore of an image in a slot of its nester: a job that makes the subtree call by call.
//!
//! It stands on `laws_restore`, which has the script of an image and the machine that gives its orders, and on `fk_image` and
//! `fk_finish` for images. It sees answers and nothing of the kernel, and promises to be that machine, whatever the answers are.
//! What is left of its script is some numbers, so it takes no memory.
//!
//! - `positions`: places in the script, as numbers;
//! - `orders`: the words of the order at a place, how its answer is heard, and where the next one stands;
//! - `restore`: the job.
#![tactic(auto)]

pub mod orders;
pub mod positions;
pub mod restore;

pub use restore::{Restore, RestoreEnd};
