//! A stretch: instructions of a thread, one after the other, on the pages of its space where they stand.
//!
//! The thread's registers are copied out once and put back once, and the page of its code is looked up once for as long as the counter
//! stays in it and nothing is stored. A stretch ends before a call, before a halt, and before a word of a page that the space hasn't
//! itself.
//!
//! It stands on `fk_store` for the pages and on `laws_bursts`, whose instructions it makes. It promises that a stretch is so many of these,
//! from where the thread stood. It takes no memory.
//!
//! - `running`: one instruction, as far as registers and the counter go; what it asks of memory is handed back;
//! - `stretch`: instructions over a store.
#![tactic(auto)]

mod running;
mod stretch;

pub use running::{Rest, Running};
pub use stretch::run;
