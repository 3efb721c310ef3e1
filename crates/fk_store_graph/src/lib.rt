//! Objects and who leads to them: the store without holds and without paths.
//!
//! It stands on `fk_store_cells` for the tables and on `fk_model`. Objects lead to one another by pointers, talks and faults. It promises
//! that each change of a body changes at once whatever stands beside it, so that who leads to an object is found without a look at all
//! others, and what becomes of them where it is destroyed or has another name; only what is new takes memory.
//!
//! - `hints`: where the fields of a body lead, and as what;
//! - `links`: the rings of the pointers that lead to each object, by keys;
//! - `leads`: what one body says, and what becomes of it as others go;
//! - `linked`: what stands beside the objects, kept as bodies change;
//! - `bodies`: objects and pages as two finite maps, by name.
#![tactic(auto)]

pub mod bodies;
pub mod hints;
pub mod leads;
pub mod linked;
pub mod links;
