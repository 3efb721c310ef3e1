//! The text of a source.
ghost use Rattle.std.specs.Prelude.{◌≤◌, IfOk, IfErr, OnOk, vec_len};
ghost use Rattle.std.specs.Io.KnownBytes.{IsAtEnd};
ghost use Rattle.fk_causes.specs.Causes.{MayHold, StandsUnless};
ghost use Rattle.fk_commands.specs.Prepared.{IsReadFail};
ghost use Rattle.fk_commands.specs.Status.{is_read_fault};

use fk_causes::{LIMIT, ReadError, Source, read_all};
use fk_commands::Status;
use std::alloc::Global;

/// Reads a source to its end.
///
/// # Errors
///
/// `TooLong` where it held more than 1,048,576 bytes, `ReadFault` where a read failed, and
/// `NoMemory` where there is none for the text.
pub fn source_text<R: Source>(alloc: Global, source: &mut R) -> Result<Vec<u8>, Status>
    ensures all { IfOk result (λ text. MayHold (R.left source.old) text.items) }
    ensures short { IfOk result (λ text. vec_len text ≤ LIMIT) }
    ensures end { OnOk result (IsAtEnd (R.left source.new)) }
    ensures kept { StandsUnless is_read_fault (R.faults source.old) (R.faults source.new) result }
    ensures fail { IfErr result (IsReadFail (R.left source.old) (R.faults source.old) (R.faults source.new)) }
{
    match read_all(alloc, source) {
        Ok(text) => Ok(text),
        Err(ReadError::TooLong) => Err(Status::TooLong),
        Err(ReadError::ReadFault) => Err(Status::ReadFault),
        Err(ReadError::NoMemory) => Err(Status::NoMemory),
    }
}
