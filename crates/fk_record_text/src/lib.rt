//! The text of a record: the notes of native servers, written and read.
//!
//! It stands on `fk_responders` for notes, on `fk_trace_text` for how a line is cut, and on `fk_decimal` for numbers. A record is its first line and a
//! line for each note: the path of the server's port, and the note (`specs/Record.antt`).
//!
//! It promises that the lines of notes are written as they are spelled; that a text is read to the notes whose record it is, or the first bad line is
//! told, counted from 1: one that is misspelled, names none of the ports, or names a port that comes before that of an earlier line; and that what is
//! written of servers whose paths differ is read as their notes again (`specs/Whole.antt`). Reading fails besides only for want of memory.
#![tactic(auto)]

mod entry;
mod fail;
mod laws;
mod notes;
mod reading;
mod writing;

pub use entry::Entry;
pub use fail::RecordFail;
pub use laws::records_read_back;
pub use reading::read_record;
pub use writing::push_lines;
