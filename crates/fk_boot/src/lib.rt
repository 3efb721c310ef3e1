//! The first core of a scenario.
//!
//! It stands on `fk_scenario` for scenarios, on `fk_kernel` for the kernel of a store, on `fk_natives` for native
//! servers, and on `laws_moves::machine` for what keeps a world valid. It promises that `boot` gives a kernel of the world that
//! `specs/FirstWorld.antt` has: what the entries of the scenario make of a world that has the root
//! alone, in the order of the file: the spaces with their pages, then the objects, and then where
//! these lead, and then the porters of nesters; the ports of servers are served. That world is valid. Beside it stand the servers
//! as they are at first, each at its port. It is never refused but for want of memory, since a scenario that
//! was read keeps what this rests on.
#![tactic(auto)]

mod aims;
mod entries;
mod first;
mod making;
mod names;
mod pages;
mod porters;
mod services;
mod words;

pub use entries::first_store;
pub use first::{First, boot};
