//! A run with a pager.
use fk_model::{List, Move};
use fk_report::End;

/// What a run with a pager came to.
#[derive(Drop)]
pub struct Paged {
    /// The moves of all: of users, of native servers and of the pager.
    pub history: List<Move>,
    /// How many of them the pager's opening made; one more than there are, where it isn't done.
    pub opened: u64,
    /// How many faults the pager has ended.
    pub faults: u64,
    pub end: End,
}
