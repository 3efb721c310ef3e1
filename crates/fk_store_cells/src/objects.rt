//! The objects of a store, each under a key that it keeps.
//!
//! It stands on the kit's `slab`, which picks the keys, on `keys`, which has the key of each
//! slot of each space, and on `fk_model`. It promises that the two agree, whatever is done: the object
//! under a key has the name under which the key is found. Another name moves a key, and no object. What
//! an object takes serves the next one; only `make` takes memory.

mod alter;
mod edits;
mod entry;
mod objects;

pub use entry::{Entry, Hints, Told};
pub use objects::Objects;
