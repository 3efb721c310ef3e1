//! Faults: what the stages come to that end them, and by which a porter makes them again.
//!
//! It stands on `fk_plans`, and promises of each stage that its verdict stands for the outcome of the
//! stage's row in the abstract machine, and can be carried out without memory.
#![tactic(auto)]

mod freeing;
mod restoring;

pub use freeing::fault_done;
pub use restoring::{fault_park, fault_set};
