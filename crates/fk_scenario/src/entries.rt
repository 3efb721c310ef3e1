//! The entries of a scenario, each read by itself: programs, objects of the eight kinds, servers, jobs.
//!
//! It stands on `fields` for the fields of tables, and on `fk_asm` for programs. A reader here gives
//! what an entry says, or the first rule that the entry breaks by itself, exactly as `specs/Entries/` has it: keys
//! and types first (2), then ranges (3), then forms (4). What an entry owes the others is `fk_scenario`'s.

mod jobs;
mod objects;
mod programs;
mod servers;
mod types;

pub use jobs::{JobEntry, JobKind, job_in};
pub use objects::object_entry;
pub use programs::program_of;
pub use servers::server_in;
pub use types::{ObjectEntry, Program, ServerEntry, ServiceSpec, SpaceEntry, Spec};
