//! A host: one kernel with its native servers, turned from outside.
//!
//! It stands on `fk_served` for servers and for the kernel's steps. It is generic in its servers. It has no jobs and no budget: whoever
//! has it hands in what a porter asks for, and says who moves next.
//!
//! It promises that a move is called ready exactly where it is, that a turn is the machine's step, of which each server hears what it tells at its port,
//! that a porter's call is made exactly where it is ready, that `run_on` and `proceed_on` make ready moves of one thread, of which no server hears anything,
//! and that a move is found wherever a user or a server has one (`specs/Hosts.antt`).
#![tactic(auto)]

mod host;

pub use fk_served::Told;
pub use host::{Host, room};
