//! Readers and writers of std as a source and a sink. This is the trusted edge.
ghost use Rattle.std.specs.Prelude.{◌≡◌, ◌<◌, IfOk, length};
ghost use Rattle.std.specs.Io.{ReadsAtMost, WritesAtMost};
ghost use Rattle.std.specs.Io.KnownBytes.{ReadConsumes, WriteAppends};
ghost use Rattle.fk_causes.specs.Causes.{HasCause, CountsFault};

use crate::traits::{Failed, Sink, Source};
use std::io::{Read, Write};

/// A source over any reader of std. It tells of its bytes what the reader does: nothing for a
/// file, a terminal or a stream.
#[derive(Drop)]
pub struct StdSource<R> {
    reader: R,
    faults: u64,
}

impl<R: Read> StdSource<R> {
    /// A source that gives what the reader gives. None of its reads has failed yet.
    pub fn new(reader: R) -> StdSource<R>
        ensures left { ⟦<StdSource<R> as Source>⟧.left result ≡ R.remaining reader }
        ensures faults { ⟦<StdSource<R> as Source>⟧.faults result ≡ 0 }
    {
        StdSource { reader, faults: 0 }
    }
}

impl<R: Read> Source for StdSource<R> {
    ghost left = { λ s. R.remaining s.reader };

    ghost faults = { λ s. s.faults };

    fn read(&mut self, into: &mut [u8]) -> Result<usize, Failed>
        ensures bound { ReadsAtMost result into.new }
        ensures bytes { ReadConsumes (R.remaining self.old.reader) (R.remaining self.new.reader) result into.new }
        ensures cause { HasCause self.old.faults self.new.faults result }

        ensures faults { CountsFault self.old.faults self.new.faults result }
    {
        match self.reader.read(into) {
            Ok(count) => Ok(count),
            Err(_) => {
                // At its last value the count is taken as one that rose.
                self.faults = self.faults.saturating_add(1);
                Err(Failed)
            }
        }
    }
}

/// A sink over any writer of std. It tells of its bytes what the writer does: nothing for a file,
/// a terminal or a stream. A writer that keeps bytes back would hide its faults: give it one that
/// hands them on at once.
#[derive(Drop)]
pub struct StdSink<W> {
    writer: W,
    faults: u64,
}

impl<W: Write> StdSink<W> {
    /// A sink that hands on to the writer. None of its writes has failed yet.
    pub fn new(writer: W) -> StdSink<W>
        ensures written { ⟦<StdSink<W> as Sink>⟧.written result ≡ W.contents writer }
        ensures faults { ⟦<StdSink<W> as Sink>⟧.faults result ≡ 0 }
    {
        StdSink { writer, faults: 0 }
    }
}

impl<W: Write> Sink for StdSink<W> {
    ghost written = { λ s. W.contents s.writer };

    ghost faults = { λ s. s.faults };

    fn write(&mut self, piece: &[u8]) -> Result<usize, Failed>
        ensures bound { WritesAtMost result piece.now }
        ensures bytes { WriteAppends (W.contents self.old.writer) (W.contents self.new.writer) result piece.now }
        ensures cause { HasCause self.old.faults self.new.faults result }
        ensures some { IfOk result (λ count. 0 < length piece.now → 0 < count) }

        ensures faults { CountsFault self.old.faults self.new.faults result }
    {
        match self.writer.write(piece) {
            // Nothing is what a piece of nothing takes: that is no fault.
            Ok(count) if count > 0 || piece.is_empty() => Ok(count),
            _ => {
                // At its last value the count is taken as one that rose.
                self.faults = self.faults.saturating_add(1);
                Err(Failed)
            }
        }
    }
}
