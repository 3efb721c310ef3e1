//! Spaces: what the stages come to that hold and release them, stop threads and let them go, and give,
//! take and read pages.
//!
//! It stands on `fk_plans`, and promises of each stage that its verdict stands for the outcome of
//! the stage's row in the abstract machine, and can be carried out. `page_give` and
//! `space_make_held` alone want memory.
#![tactic(auto)]

mod beneath;
mod finding;
mod holds;
mod pages;
mod stops;

pub use finding::page_next;
pub use holds::{hold_set, space_hold, space_make_held, space_release};
pub use pages::{page_give, page_read, page_take};
pub use stops::{thread_go, thread_stop};
