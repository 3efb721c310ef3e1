//! State: what the stages come to that read and set the pointers and the records of objects.
//!
//! It stands on `fk_plans`, and promises of each stage that its verdict stands for the outcome of
//! the stage's row in the abstract machine, and can be carried out without memory.
#![tactic(auto)]

mod fields;
mod pointers;
mod state;

pub use pointers::{get_ptr, set_ptr};
pub use state::{get_state, set_state};
