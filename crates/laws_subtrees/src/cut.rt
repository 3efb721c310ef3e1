//! The laws of a subtree that is seen alone, each the contract of a function that does nothing.
//!
//! It stands on `fk_model`, which defines the cut, its further runs and rebinding, and on lemmas of `laws_moves::machine`. It promises
//! that whatever a move of the world does to a plain subtree is what the subtree does by itself, or what the outside may do
//! to it, and that a subtree with other outward ports does what it did.

pub mod cut_laws;
pub mod likeness_laws;
pub mod rebind_laws;
