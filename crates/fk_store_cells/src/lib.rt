//! What the store's tables are made of: values and objects, each one step away from its name.
//!
//! It stands on the kit's `slab` and on `fk_model`. A name is the birth number of a space and a slot or a page there. It promises that what
//! is put under a name is found there and nowhere else, that all other names keep theirs, and that only what is new takes memory.
//!
//! - `slots`: values by a space's birth number and the slot, or the page, of the space;
//! - `keys`: which key the object in each slot of each space has;
//! - `objects`: the objects, each under its key.
#![tactic(auto)]

pub mod keys;
pub mod objects;
pub mod slots;
