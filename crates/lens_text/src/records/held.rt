//! A record held against what a run made its native servers note.
use crate::faults::given;
use crate::problem::Problem;
use crate::records::bad::bad_line;
use crate::records::noted::Noted;
use crate::sheet::{Sheet, parted};
use fk_responders::Watch;

/// The first line of a record.
const FIRST: &str = "fluke-record 1\n";

/// That a file is no record.
const HEAD: &str = ".rec, line @: expected fluke-record 1";

/// That a line is no note of a port that may be named there.
const NOTE: &str =
    ".rec, line @: expected a note, as /9 over or /9 reply 8, of the port of a server that is no console, none before that of an earlier line";

/// That a record has more notes than were made.
const END: &str = ".rec, line @: expected the end, since no move makes a further line of it";

/// A line of a record that isn't what was noted.
#[derive(Clone, Copy)]
struct Apart<'a> {
    /// Its number.
    line: u64,
    /// What was noted there, and which move made that; two empty texts where nothing more was.
    note: &'a str,
    by: &'a str,
}

/// A record that is held against what was noted, so far.
#[derive(Drop)]
struct Holding<'a> {
    sheet: &'a Sheet,
    /// Whose notes it has.
    watch: Watch,
    /// The lines that are left.
    rest: &'a str,
    /// The number of the first of these.
    line: u64,
}

/// What a line notes, by its word behind the port's path.
fn word_of(line: &str) -> &str {
    parted(parted(line, ' ').1, ' ').0
}

/// Whether an observer sees the note of a line.
fn is_seen(watch: Watch, note: &str) -> bool {
    match watch {
        Watch::All => true,
        Watch::Replies => word_of(note) == "reply",
        Watch::Said => word_of(note) == "said",
    }
}

impl<'a> Holding<'a> {
    /// Shows a note and which move made it, where the record's next line is that note; whether it is.
    fn takes(&mut self, note: &str, by: &str) -> bool {
        let rest = self.rest;
        let Some((line, behind)) = rest.split_once('\n') else {
            return false;
        };
        if line != note {
            return false;
        }
        self.sheet.put_around(b"", note, b"\t");
        self.sheet.put_around(b"", by, b"\n");
        self.rest = behind;
        self.line = self.line.saturating_add(1);
        true
    }

    /// Shows what was noted at a port, as far as the record has it; where it differs first.
    fn pass(&mut self, lines: &'a str) -> Option<Apart<'a>> {
        let mut later = lines;
        for _ in 0..u64::MAX {
            let Some((note, behind)) = later.split_once('\n') else {
                break;
            };
            let (by, behind) = parted(behind, '\n');
            if is_seen(self.watch, note) && !self.takes(note, by) {
                return Some(Apart {
                    line: self.line,
                    note,
                    by,
                });
            }
            later = behind;
        }
        None
    }
}

/// Whose notes a record has, by the first of them: one that all are seen by begins with no reply and with no words. Where it has none, of an observer who
/// sees none of what was noted, if there is one.
fn watch_of(noted: &[Noted], notes: &str) -> Watch {
    let mut has_replies = false;
    let mut has_words = false;
    for one in noted {
        has_replies = has_replies | one.has_replies;
        has_words = has_words | one.has_words;
    }
    let is_empty = notes.is_empty();
    match word_of(parted(notes, '\n').0) {
        "reply" => Watch::Replies,
        "said" => Watch::Said,
        _ if is_empty & !has_replies => Watch::Replies,
        _ if is_empty & !has_words => Watch::Said,
        _ => Watch::All,
    }
}

/// Shows the notes of a record, each with which move made it; where they differ first from what was noted.
fn hold<'a>(sheet: &'a Sheet, noted: &'a [Noted], notes: &'a str) -> Option<Apart<'a>> {
    let mut holding = Holding {
        sheet,
        watch: watch_of(noted, notes),
        rest: notes,
        line: 2,
    };
    for one in noted {
        if let Some(apart) = holding.pass(one.lines.as_str()) {
            return Some(apart);
        }
    }
    if holding.rest.is_empty() {
        return None;
    }
    Some(Apart {
        line: holding.line,
        note: "",
        by: "",
    })
}

/// Says that a line of a record isn't what was noted.
fn tell_apart(sheet: &Sheet, name: &str, apart: Apart<'_>) {
    if apart.note.is_empty() {
        return given(sheet, name, END, apart.line, 0, "");
    }
    let (number, behind) = parted(apart.by, '\t');
    sheet.clear();
    sheet.add(name);
    sheet.fill(b".rec, line @: expected what move ", apart.line, 0, 0);
    sheet.add(number);
    sheet.put_around(b" of ", parted(behind, '\t').0, b" makes, ");
    sheet.add(apart.note);
    sheet.fails(Problem::Given);
}

/// Adds the record with this name and these bytes, each line with the move that made it. Where the record isn't that of what was noted, says which line is
/// the first that is bad by itself, or else the first that differs.
pub fn push_record<'x>(sheet: &'x Sheet, name: &str, noted: &'x [Noted], bytes: &'x [u8]) {
    let notes = match str::from_utf8(bytes) {
        Ok(text) => text.strip_prefix(FIRST),
        Err(_) => None,
    };
    let apart = match notes {
        Some(notes) => {
            sheet.add(FIRST);
            hold(sheet, noted, notes)
        }
        None => Some(Apart {
            line: 1,
            note: "",
            by: "",
        }),
    };
    let Some(apart) = apart else {
        return;
    };
    match bad_line(sheet.alloc, noted, bytes) {
        Ok(Some(1)) => given(sheet, name, HEAD, 1, 0, ""),
        Ok(Some(line)) => given(sheet, name, NOTE, line, 0, ""),
        Ok(None) => tell_apart(sheet, name, apart),
        Err(_) => sheet.lacks(),
    }
}
