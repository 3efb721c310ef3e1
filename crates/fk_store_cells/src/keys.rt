//! Which key the object in each slot of each space has.
//!
//! It stands on `slots` for the words that say what stands in a slot, and on the kit's `slab`,
//! in which the tables lie. A space has a table of keys from when it first needs one until it is cleared,
//! which gives the table back; a birth number without a table costs 4 bytes. Beside the keys stand marks
//! of a space, which the caller gives a meaning, and which go with the table. Only `put` takes memory.

mod keys;
mod tables;

pub use keys::Keys;
