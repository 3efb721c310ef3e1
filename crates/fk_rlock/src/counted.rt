//! What a lock holds: a value that was begun from something, and counts.
ghost use Rattle.std.specs.Prelude.{◌≡◌, ℕ};

/// A value that was begun from something, and counts. A lock keeps what it was begun from, and that its
/// count never falls.
pub trait Counted {
    /// What a value was begun from.
    type Boot;

    ghost boot: { Self → Self.Boot };

    ghost counted: { Self → ℕ };

    /// Its count.
    fn count(&self) -> u64
        ensures { result ≡ counted self.now };
}
