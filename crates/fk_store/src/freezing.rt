//! The objects of a store, with marks on all spaces that may be held, or lie beneath one that is.
//!
//! It stands on `fk_store_graph::bodies` for the objects and on `holds` for the marks. A space that is
//! held has a mark, and so has each space that lies in a space with one; so who finds no mark on a space
//! needs no look above it. A hold marks what lies beneath it and no more, and a release takes the marks
//! away that nothing else asks for. No call takes memory for that: a walk goes down by the slots of a
//! space, and up by where the space stands. `Tree` promises of the objects what `Bodies` does.

mod freeze;
mod settle;
mod steps;
mod thaw;
mod tree;

pub use tree::Tree;
