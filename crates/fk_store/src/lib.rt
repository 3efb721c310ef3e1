//! The store: every object and every page, by the birth numbers of spaces, standing for a world of the abstract machine.
//!
//! It stands on `fk_store_graph` for objects and pages by name, and on `fk_model` for the world. Each call that changes the store makes one
//! change of that world and says which; it takes memory only where its result has NoMemory. So nobody above translates between names and paths.
//!
//! - `holds`: which spaces may be held, and which may lie beneath one that is;
//! - `freezing`: the objects with marks on these spaces, so that a look at what decides over a space is short;
//! - `store`: the store itself, by the world and the path of each space.
#![tactic(auto)]

pub mod freezing;
pub mod holds;
pub mod store;

pub use store::{Reach, Store};
