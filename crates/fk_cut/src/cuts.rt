//! A subtree of a store seen alone: its cut, and whether it is closed.
//!
//! It stands on `closing`, which walks a subtree and says whether it is closed, on `fk_changes::records` for state records, and on
//! `fk_store` and `fk_model`. It promises the objects and pages of the subtree, exactly as the abstract machine cuts it.

mod cutting;
mod shown;

pub use cutting::{CutObject, CutPage, CutWorld, cut};
pub use shown::CutPtr;
