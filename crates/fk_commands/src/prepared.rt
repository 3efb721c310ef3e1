//! What a command has made before anything of it is written.
use crate::outcome::Report;
use crate::status::Status;

/// What is to be written, and the outcome of the call once that is done.
#[derive(Drop)]
pub struct Prepared {
    pub status: Status,
    pub report: Option<Report>,
    pub output: String,
}
