//! The native servers of a machine, each by its port.
//!
//! It stands on `fk_natives` for what a server is, on `fk_kernel` for what a move tells, and on `laws_runs` for what a run wants of servers. It is
//! generic in its servers.
//!
//! It promises what each of them asks for and what it has left for its client, that what it gives is words, which acts are ready (`specs/Acts.antt`),
//! and that each hears what a move tells at its port, or that its talk has ended, and nothing else (`specs/Served.antt`); that what is said of it by
//! names is what the machine says by paths; and that servers ask for what users may. Of each it tells whether it grows by what a move tells, which takes
//! memory; `foretell` says what a move would tell.
#![tactic(auto)]

ghost use Rattle.fk_served.specs.Served.{ServersAskAsUsers, HearByNames, FitsOnceTold};

pub mod asking;
mod foretelling;
mod services;
mod told;

pub use fk_kernel::{Gone, Kernel, Spoken, Told};
pub use foretelling::foretell;
pub use services::Services;

/// Native servers ask for what users may.
pub fn servers_ask_as_users()
    ensures { ServersAskAsUsers }
{}

/// What servers hear of a move by the names of their ports is what a run has them hear.
pub fn servers_hear_by_names()
    ensures { HearByNames }
{}

/// A table that fits them fits them whatever they are told.
pub fn a_table_fits_once_told()
    ensures { FitsOnceTold }
{}
