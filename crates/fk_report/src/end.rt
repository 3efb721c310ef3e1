//! How a run ends.

/// How a run ends.
#[derive(Clone, Copy)]
pub enum End {
    /// No move is ready, and every user thread has halted.
    Halted,
    /// No move is ready, and a user thread hasn't halted.
    Quiet,
    /// A move is ready, and the budget is used.
    Budget,
    /// A move is ready, and the list of moves that was played has no more.
    Listed,
}
