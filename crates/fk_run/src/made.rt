//! What is prepared of a command, with what it comes to besides a report.
use fk_commands::Prepared;
use fk_extras::Extra;

/// What is to be written, the outcome once that is done, and what the call comes to besides a report.
#[derive(Drop)]
pub(crate) struct Made {
    pub prepared: Prepared,
    pub extra: Option<Extra>,
}
