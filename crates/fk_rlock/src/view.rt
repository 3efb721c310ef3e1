//! What a seat of the lock's table knows.
use std::snapshot::Snapshot;

/// What a seat knows: the rule and its steps speak of it, and no value of it is made.
pub struct View<B> {
    /// The ticket that it drew, while it waits and while it is served.
    pub ticket: Option<u64>,
    /// Its turn has come.
    pub turn: bool,
    /// What it has seen is the front.
    pub knows: bool,
    /// It has the value out.
    pub out: bool,
    /// The greatest count that it has seen.
    pub seen: u64,
    /// How many of the lock's parts it has; none once it is spent.
    pub parts: u32,
    /// What the value was begun from; None once it is spent.
    pub boot: Option<B>,
}

/// What the table is told when it is made.
#[derive(Drop)]
pub struct About<T> {
    pub first: Snapshot<T>,
    pub seats: u32,
}
