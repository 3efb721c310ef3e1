//! Which native server loses its client by what a verdict does.
//!
//! It stands on `fk_plans`, and on `fk_changes::deaths` for whom a death tells. It promises of each verdict that
//! the port that it finds is the one whose native server had a client before and has none after, and
//! that each other that had one has one still. `specs/Endings/Clients.antt` says this of two worlds.

mod endings;

pub use endings::ended_by;
