//! What a source and a sink promise.
ghost use Rattle.std.specs.Prelude.{◌<◌, ℕ, List, Option, IfOk, length};
ghost use Rattle.std.specs.Io.{ReadsAtMost, WritesAtMost};
ghost use Rattle.std.specs.Io.KnownBytes.{ReadConsumes, WriteAppends};
ghost use Rattle.fk_causes.specs.Causes.{HasCause};

/// A read or a write that failed. The count of faults of its source or sink rose.
#[derive(Clone, Copy)]
pub struct Failed;

/// Where bytes come from.
pub trait Source {
    /// The bytes that reads will give from here on, where they are told.
    ghost left: { Self → Option (List ℕ) };

    /// How often a read has failed.
    ghost faults: { Self → ℕ };

    /// Reads into the front of a buffer, and answers how many bytes it gave: at most the length of
    /// the buffer. Told bytes go from the front of what is left. 0 into a buffer that isn't empty
    /// means the end: where the bytes are told, none is left then.
    ///
    /// # Errors
    ///
    /// `Failed` only where the count of faults rose in this call: an `Ok` leaves it as it was. Of told
    /// bytes none is taken after a failure.
    fn read(&mut self, into: &mut [u8]) -> Result<usize, Failed>
        ensures bound { ReadsAtMost result into.new }
        ensures bytes { ReadConsumes (left self.old) (left self.new) result into.new }
        ensures cause { HasCause (faults self.old) (faults self.new) result };
}

/// Where bytes go.
pub trait Sink {
    /// The bytes that were written, where they are told.
    ghost written: { Self → Option (List ℕ) };

    /// How often a write has failed.
    ghost faults: { Self → ℕ };

    /// Writes the front of a piece, and answers how many bytes it took: at most the length of the
    /// piece, and at least one of a piece that isn't empty. Told bytes grow by those.
    ///
    /// # Errors
    ///
    /// `Failed` only where the count of faults rose in this call: an `Ok` leaves it as it was. Told
    /// bytes are as before after a failure.
    fn write(&mut self, piece: &[u8]) -> Result<usize, Failed>
        ensures bound { WritesAtMost result piece.now }
        ensures bytes { WriteAppends (written self.old) (written self.new) result piece.now }
        ensures cause { HasCause (faults self.old) (faults self.new) result }
        ensures some { IfOk result (λ count. 0 < length piece.now → 0 < count) };
}
