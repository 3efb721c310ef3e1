//! What a run made a native server note.
use crate::sheet::Sheet;
use fk_record_text::push_lines;
use fk_responders::Note;

/// What a run made the native server of a port note, so far.
#[derive(Drop)]
pub struct Noted {
    /// The port's path.
    pub port: String,
    /// Two lines a note: that of a record, and which move made it.
    pub lines: String,
    pub has_replies: bool,
    pub has_words: bool,
}

impl Noted {
    /// Adds a note that a move has made. The line says which move: its number, a tab, who made it, a tab, and whatever else. Where there is no memory for
    /// that, the sheet notes it.
    pub fn add(&mut self, sheet: &Sheet, note: &Note, line: &str) {
        match note {
            Note::Reply(_) => self.has_replies = true,
            Note::Said(_) => self.has_words = true,
            _ => {}
        }
        let is_noted = push_lines(&mut self.lines, self.port.as_str(), &[*note]).is_ok();
        if self.lines.push_str(line).is_err() | !is_noted {
            sheet.lacks();
        }
    }
}
