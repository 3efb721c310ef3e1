//! Mutexes and conditions: what their stages come to.
//!
//! It stands on `fk_plans` and `fk_changes::threads`, and promises of each stage that its verdict stands for
//! the outcome of the stage's row in the abstract machine, and can be carried out without memory.
#![tactic(auto)]

mod conditions;
mod mutexes;

pub use conditions::{cond_asleep, cond_broadcast, cond_signal, cond_wait};
pub use mutexes::{mutex_lock, mutex_trylock, mutex_unlock};
