//! What stands before each turn of a worker.

/// It is called before each turn of a worker: with which worker it is, from 0 on, and with how many turns it has taken; and behind a turn by
/// which a burst was committed. Nothing is asked of it.
pub trait Gate {
    /// A worker is about to take a turn.
    fn pass(&self, worker: u32, turn: u64);

    /// A worker has committed a burst of so many moves in its last turn. Nobody has to listen.
    fn committed(&self, _worker: u32, _moves: u64) {}
}

/// The gate that does nothing.
#[derive(Clone, Copy)]
pub struct Open;

impl Gate for Open {
    fn pass(&self, _worker: u32, _turn: u64) {}
}
