//! What a call comes to besides a report: plain types of runs that have none.
//!
//! It stands on `fk_report` for how a run ends, on `fk_packets` for a migration's events and how it ends, and on `fk_model` for moves. It promises nothing.
#![tactic(auto)]

mod extra;
mod migration;
mod paged;

pub use extra::Extra;
pub use migration::Migration;
pub use paged::Paged;
