//! A pager by answers alone: the code of the machine of `laws_filled`.
//!
//! It stands on `fk_model` and `laws_filled`, and sees nothing of a kernel. `Pager::next` is the machine's call and `Pager::absorb` its step, for every answer
//! that the machine may hear. Only `Pager::new` takes memory.
#![tactic(auto)]

mod pager;

pub use pager::{Page, Pager, Phase};
