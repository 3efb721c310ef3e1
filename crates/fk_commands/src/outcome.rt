//! What a call comes to.
use crate::status::Status;
use fk_extras::Extra;
use fk_history::Moves;
use fk_model::{List as Items, Text};
use fk_report::{End, JobEnd};

/// The run of a scenario: its moves in their order, how each of its jobs has ended, if it has, and how the run ended.
#[derive(Drop)]
pub struct Report {
    pub history: Moves,
    pub jobs: Items<Option<JobEnd>>,
    /// The names of the jobs' images, in the order of the jobs.
    pub images: Items<Text>,
    pub end: End,
    /// The record of its native servers, where the run was recorded.
    pub recorded: Option<Text>,
}

/// What a call comes to.
#[derive(Drop)]
pub struct Outcome {
    pub status: Status,
    /// The run, where one was made: of `run`, `play` and `soak` with the statuses `Ok`, `JobRefused`, `Budget` and `WriteFault`, and
    /// of `run` with `ShelfFault` where a put failed.
    pub report: Option<Report>,
    /// What `page` and `migrate` come to, which have no report: with the statuses `Ok`, `JobRefused`, `Budget` and `WriteFault`.
    pub extra: Option<Extra>,
}
