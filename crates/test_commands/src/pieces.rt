//! A source and a sink in memory that may take a byte at a time.
ghost use Rattle.std.specs.Prelude.{None};

use fk_causes::{Failed, MemSink, MemSource, Sink, Source};

/// A source that may give one byte a call. It tells nothing of what is left.
#[derive(Drop)]
pub struct PieceSource {
    pub source: MemSource,
    pub is_slow: bool,
}

impl Source for PieceSource {
    ghost left = { λ s. None };

    ghost faults = { λ s. s.source.faults };

    fn read(&mut self, into: &mut [u8]) -> Result<usize, Failed> {
        if !self.is_slow {
            return self.source.read(into);
        }
        let Some(first) = into.first_mut() else {
            return Ok(0);
        };
        let mut one = [0];
        if self.source.read(&mut one)? == 0 {
            return Ok(0);
        }
        *first = one[0];
        Ok(1)
    }
}

/// A sink that may take one byte a call. It tells nothing of what was written; its own sink has it.
#[derive(Drop)]
pub struct PieceSink {
    pub sink: MemSink,
    pub is_slow: bool,
}

impl Sink for PieceSink {
    ghost written = { λ s. None };

    ghost faults = { λ s. s.sink.faults };

    fn write(&mut self, piece: &[u8]) -> Result<usize, Failed> {
        if !self.is_slow {
            return self.sink.write(piece);
        }
        let Some(first) = piece.first() else {
            return Ok(0);
        };
        self.sink.write(&[*first])
    }
}
