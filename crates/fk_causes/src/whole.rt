//! All of a source, and all of a text to a sink.
ghost use Rattle.std.specs.Prelude.{◌≡◌, ◌+◌, ◌<◌, ◌≤◌, ℕ, List, IfOk, OnOk, OnErr, length, vec_len};
ghost use Rattle.std.specs.Io.KnownBytes.{IsAtEnd, Appends};
ghost use Rattle.fk_causes.specs.Causes.{HasCause, Rose, StandsUnless, MayHold, AppendsPrefix, ConsumesAtMost, is_failed_read};

use crate::traits::{Failed, Sink, Source};
use std::alloc::Global;

/// The most bytes that a source may hold.
pub const LIMIT: usize = 1_048_576;

/// Why a source wasn't read to its end.
#[derive(Clone, Copy)]
pub enum ReadError {
    /// It held more than `LIMIT` bytes.
    TooLong,
    /// A read failed.
    ReadFault,
    /// There is no memory for the text.
    NoMemory,
}

/// Reads a source to its end, and takes at most `LIMIT + 1` bytes.
///
/// # Errors
///
/// `TooLong` where the source held more than `LIMIT` bytes. `ReadFault` where a read failed: only
/// where the source's count of faults rose, and wherever it did. `NoMemory` where the text can't
/// grow. What was read is gone from the source then.
pub fn read_all<R: Source>(alloc: Global, source: &mut R) -> Result<Vec<u8>, ReadError>
    ensures all { IfOk result (λ text. MayHold (R.left source.old) text.items) }
    ensures end { OnOk result (IsAtEnd (R.left source.new)) }
    ensures taken { ConsumesAtMost (LIMIT + 1) (R.left source.old) (R.left source.new) }

    ensures short { IfOk result (λ text. vec_len text ≤ LIMIT) }
    ensures too_long { result ≡ Err ReadError.TooLong
        → (bytes : List ℕ) × MayHold (R.left source.old) bytes × (LIMIT < length bytes) }
    ensures read_fault { result ≡ Err ReadError.ReadFault
        → Rose (R.faults source.old) (R.faults source.new) }
    ensures kept { StandsUnless is_failed_read (R.faults source.old) (R.faults source.new) result }
    ensures later { R.faults source.old ≤ R.faults source.new }
{
    let mut text = Vec::new(alloc);
    let mut buffer = [0; 4096];
    while text.len() <= LIMIT {
        let room = buffer.len().min(LIMIT + 1 - text.len());
        if text.try_reserve(room).is_err() {
            return Err(ReadError::NoMemory);
        }
        match source.read(&mut buffer[..room]) {
            Err(Failed) => return Err(ReadError::ReadFault),
            Ok(0) => return Ok(text),
            Ok(count) => text.extend_from_slice(&buffer[..count]).unwrap(),
        }
    }
    Err(ReadError::TooLong)
}

/// Writes all of a text.
///
/// # Errors
///
/// `Failed` where a write failed: only where the sink's count of faults rose, and wherever it did. A
/// prefix of the text is written then.
pub fn write_all<W: Sink>(sink: &mut W, text: &[u8]) -> Result<(), Failed>
    ensures ok { OnOk result (Appends (W.written sink.old) (W.written sink.new) text.now) }
    ensures prefix { OnErr result (AppendsPrefix (W.written sink.old) (W.written sink.new) text.now) }
    ensures cause { HasCause (W.faults sink.old) (W.faults sink.new) result }
{
    let mut done = 0;
    while done < text.len() {
        match sink.write(&text[done..]) {
            Ok(count) => done += count,
            Err(Failed) => return Err(Failed),
        }
    }
    Ok(())
}
