//! A subtree of a store seen alone: its cut, whether it is closed, and what the lists of a cut determine.
//!
//! It stands on `fk_store`, on `fk_changes` for state records, on `fk_stack` for its walk and on `fk_model`, which defines the cut. It walks a
//! subtree in preorder without recursion and changes nothing. `fluke` itself doesn't need it: it is for who uses the kernel as a library.
//!
//! - `closing`: whether a subtree is closed, or the first place where it isn't;
//! - `cuts`: its objects and pages as they are seen there;
//! - `shown`: the law that equal lists are equal cuts.
#![tactic(auto)]

pub mod closing;
pub mod cuts;
pub mod shown;

pub use closing::{Place, closed};
pub use cuts::{CutObject, CutPage, CutPtr, CutWorld, cut};
