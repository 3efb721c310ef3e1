//! What a migration has come to.
use fk_sides::Reason;

/// What a migration has come to. The reason is lent by the side that knows it.
#[derive(Clone, Copy)]
pub enum Fate<'a> {
    Working,
    /// The copy is let go. The near hold was asked after so many moves of the near kernel, the make and the release after so many of the far one.
    Moved { hold: u64, make: u64, release: u64 },
    /// The original is kept, and let go.
    Kept(Reason<'a>),
}
