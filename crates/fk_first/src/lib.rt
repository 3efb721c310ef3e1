//! The core with which a scenario begins.
//!
//! It stands on `fk_boot` for its first world and its servers, on `fk_jobs` for what is planned of its jobs and who does it,
//! on `fk_core` for the core, and on `laws_first` for what that world gives to a run. It promises that the core has that world, those servers and
//! all jobs of the file, none of which has begun (`specs/First.antt`), and that a run may begin there.
//!
//! `watch` makes the moves of a trace from there on, each of which was ready, and shows a watcher what stands before and after each. It promises
//! no more than that it ends. `lend_cores` lends such cores to a player, each of which it lets go itself; what was made of the player by that are its own calls,
//! each by a core with which the scenario begins (`specs/Lent.antt`).
#![tactic(auto)]

mod first;
mod lending;
mod plans;
mod posts;
mod ready;
mod seen;
mod watching;

pub use first::{first_core, first_jobs};
pub use fk_core::Core;
pub use lending::lend_cores;
pub use plans::maker_of;
pub use posts::{replaying_core, tapped_core};
pub use seen::{Images, Job, Player, Ready, Seen, Stop, Trace, Watcher};
pub use watching::watch;
