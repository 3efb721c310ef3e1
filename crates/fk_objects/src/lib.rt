//! Objects: what the stages come to that make, destroy, rename and find them, set references and
//! count what leads to them.
//!
//! It stands on `fk_plans`, and promises of each stage that its verdict stands for the outcome of
//! the stage's row in the abstract machine, and can be carried out. `create` alone wants memory.
#![tactic(auto)]

mod counting;
mod creating;
mod destroying;
mod locating;
mod pointing;
mod renaming;
mod searching;

pub use counting::count_in;
pub use creating::create;
pub use destroying::destroy;
pub use locating::locate;
pub use pointing::{clear, point};
pub use renaming::rename;
pub use searching::search;
