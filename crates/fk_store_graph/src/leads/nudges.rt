//! Small changes of a thread, or of a mutex, by which it leads where it led.
use fk_model::Turn;

/// A small change of a thread, or of a mutex.
#[derive(Clone, Copy)]
pub enum Nudge {
    /// Its talk as a client has moved so many words more.
    Counts(u8),
    /// It is the turn of a side of its talk as a client, and no words have been moved in it.
    Passes(Turn),
    /// It is stopped so many times.
    Stops(u16),
    /// A mutex is locked or unlocked.
    Locks(bool),
}
