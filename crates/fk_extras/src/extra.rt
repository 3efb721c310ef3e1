//! What a call comes to besides a report.
use crate::migration::Migration;
use crate::paged::Paged;

/// What a call comes to besides a report: a run with a pager, or a migration.
#[derive(Drop)]
pub enum Extra {
    Paged(Paged),
    Moved(Migration),
}
