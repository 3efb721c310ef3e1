//! What stands beside the objects of a store, kept as their bodies change.
//!
//! It stands on `fk_store_cells::objects`, which has the objects under keys, on `links` for the
//! rings of the pointers that lead to each, on `hints` and `leads` for where a body leads
//! and what becomes of it. It promises, for each change of one body, of what leads to an object that is
//! destroyed, and of what leads to one that gets another name, that rings, hints, marks and the
//! count of held spaces are as the bodies say, and that none of them takes memory.

mod faults;
mod hinting;
mod homes;
mod linking;
mod marks;
mod members;
mod replacing;
mod sweeping;

pub use faults::set_fault;
pub use hinting::{tell, tell_fault, told_of};
pub use homes::{home_of, leave, make_room, settle};
pub use linking::{link_all, unlink_all};
pub use marks::{mark_again, mark_all};
pub use replacing::{aim, replace};
pub use sweeping::{free_all, rename_all};
