//! The objects and the pages of a store, by name.
//!
//! It stands on `linked`, by which an object and what leads to it change together, on
//! `fk_store_cells::objects` and `links`, which have them, on `leads` for what one body says, and for
//! pages on `fk_store_cells::slots`. `Bodies` and `Pages` are finite maps to a caller. A name is the birth number of
//! a space and a slot or a page there; whether the space is live is nothing to this crate. It promises
//! what each change makes of the map, and that only what is new takes memory.

mod bodies;
mod leaders;
mod led;
mod pages;
mod scans;

pub use bodies::Bodies;
pub use leaders::Leaders;
pub use pages::Pages;
