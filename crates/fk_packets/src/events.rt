//! The events of a migration, and what it comes to.
use crate::packet::Why;
use fk_model::Move;

/// A move in either kernel, the delivery of a packet by its number to either side, or giving up.
#[derive(Clone, Copy)]
pub enum Event {
    Near(Move),
    Far(Move),
    ToFar(u64),
    ToNear(u64),
    GiveUp,
}

/// What a migration has come to.
#[derive(Drop)]
pub enum Fate {
    Working,
    /// The copy is let go. The near hold was asked after so many moves of the near kernel, the make and the release after so many of
    /// the far one.
    Moved { hold: u64, make: u64, release: u64 },
    Kept(Why),
}
