//! What the body of an object says to a store: where it leads, which part it plays, and what becomes of it.
//!
//! It stands on `fk_model`, on `hints` for where the fields of a body lead, and on `fk_store_cells::slots`
//! for the order of names. Everything here is of one body, seen by itself: how many of its pointers
//! lead to an object, whom it serves, whether it is held, and what it is once an object is
//! destroyed or has another name.

mod held;
mod kinds;
mod nudges;
mod parts;
mod pointers;
mod sweeps;
mod targets;

pub use held::{counted, is_held};
pub use kinds::{birth_of, is_of_pages, is_port_in_set, is_reference, may_tell};
pub use nudges::Nudge;
pub use parts::Part;
pub use pointers::hits;
pub use sweeps::Sweep;
pub use targets::{ends, is_same, larger, target_of, target_of_fault};
