//! The laws of a subtree that is seen alone, each the contract of a function that does nothing.
//!
//! It stands on `fk_model`, which defines the cut, its further runs and rebinding, and on `laws_moves`. It promises that whatever a move of the
//! world does to a plain subtree is what the subtree does by itself, or what the outside may do to it, and that a subtree with other outward
//! ports does what it did.
//!
//! - `cut`: the law of the cut and the law of rebinding, for every kind of move and for lists of moves;
//! - `further`: from closed to plain, runs from a first world on, strangers, and what the outside is told;
//! - `uncut`: what no move makes: a pointer that stands in cuts alone, a porter, a served port.
#![tactic(auto)]

pub mod cut;
pub mod further;
pub mod uncut;
