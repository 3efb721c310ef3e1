//! A lock round a value whose count never falls, with passes that remember the count that they saw.
//!
//! It stands on `fk_model` for `NoMemory`, and on the kit's `atomic_table`, whose rule about three words
//! and one slot keeps all that is promised here. Whoever takes a turn meets a value that was begun from
//! what the pass knows (`Counted::Boot`), and that counts at least what the pass has seen; so what was done
//! in one turn isn't undone for another, and a closed lock gives back the value that all turns left. Those
//! who wait with a ticket are served in the order in which they drew it. That a turn comes at all isn't promised.
#![tactic(auto)]

mod counted;
mod kinds;
mod ruled;
mod view;

pub use counted::Counted;
pub use fk_model::NoMemory;
pub use ruled::{Pass, Ruled};
