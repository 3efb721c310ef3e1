//! Which objects a move changes, as its verdict says: so who waits for another one needn't be looked at.
//!
//! It stands on `fk_plans`, whose deeds, plans and verdicts stand for changes of the machine, and on `laws_moves::machine`, which says of a change which bodies it
//! names. It promises that a move names no body but its caller's and those that are told, and makes, destroys or renames nothing but what is told.

mod touching;

pub use touching::{Touched, acts_touch, changed, touched_by_move};
