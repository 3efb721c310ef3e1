//! Why a record isn't read.

/// Why a record isn't read.
#[derive(Clone, Copy)]
pub enum RecordFail {
    /// This line is the first bad one, counted from 1.
    Record { line: u64 },
    /// There is no memory for the notes.
    NoMemory,
}
