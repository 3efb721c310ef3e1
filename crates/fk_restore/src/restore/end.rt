//! How a restore ends.

/// How a restore ends.
#[derive(Clone, Copy)]
pub enum RestoreEnd {
    /// It is done.
    Done,
    /// The slot is taken.
    Occupied,
    /// There is no port in this slot of the nester.
    NoPort(u8),
}
