//! The crates as a library: a host from a scenario's text, a thread's ready move, saves and restores by one call each.
//!
//! It stands on `fk_boot` and `fk_scenario` for the first world of a scenario, on `fk_host` for the kernel and its servers, on `fk_jobs` for the code of a
//! job, and on `laws_house` for what a job's calls come to. docs/EMBEDDING.md is the page for who uses it.
//!
//! - `boot_host`: a host of the scenario that a text is;
//! - `ready_move`: a thread's ready move, with its pick; `make`: a move is made where it is ready;
//! - `save_now`, `restore_now`: the subtree in a slot of a nester is saved, an image is made again there, while nobody else moves;
//! - `HostJob`: the same a few calls at a time, with moves of others between them.
//!
//! It promises that a job's calls are those of its machine, whatever moves between them (`specs/Jobs.antt`); what a save and a restore come to
//! (`specs/Now.antt`): the image's picture is the subtree's cut, which is as before, and what is made is the picture with its ports bound; and that a copy has
//! exactly the further runs of what was saved (`a_copy_goes_on`).
#![tactic(auto)]

ghost use Rattle.fk_embed.specs.Now.{CopyGoesOn};

mod hosts;
mod job;
mod moves;
mod now;

pub use hosts::boot_host;
pub use job::{HostJob, Stop};
pub use moves::{make, ready_move};
pub use now::{Stopped, restore_now, save_now};

/// Where a save is done, and a restore of its image, in the same host or in another one, what was made has exactly the further runs that the saved subtree had,
/// with its ports bound.
pub fn a_copy_goes_on()
    ensures { CopyGoesOn }
{}
