//! The entries of a record.
use fk_responders::Note;

/// A note, with the place of its server in the file.
#[derive(Clone, Copy)]
pub struct Entry {
    pub place: usize,
    pub note: Note,
}
