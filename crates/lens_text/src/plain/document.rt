//! A scenario's text, gone through for its strings.
use crate::plain::edits::{Edit, edits_of};
use crate::plain::entries::{Entry, entries_in};
use crate::plain::programs::{Program, programs_in};
use crate::plain::strings::push_changed;
use crate::refusal::refused_scenario;
use crate::sheet::Sheet;
use toml_parser::{quoted, starts_string};

/// What begins a string or a comment.
const MARKS: [char; 3] = ['"', '\'', '#'];

/// A program's text, and its changes.
#[derive(Drop)]
struct Change<'a> {
    text: &'a str,
    edits: Vec<Edit<'a>>,
}

/// What has been written of a scenario, and what is to be changed in it.
#[derive(Drop)]
struct Writing<'s, 'a> {
    sheet: &'s Sheet,
    /// The programs with names.
    changes: &'s [Change<'a>],
    /// The entries that are labels and haven't come yet.
    entries: &'s [Entry<'a>],
}

/// Parts a text before a place; all and nothing where it has no such place.
fn parted_at(text: &str, place: Option<usize>) -> (&str, &str) {
    match place {
        Some(at) => text.split_at_checked(at).unwrap_or((text, "")),
        None => (text, ""),
    }
}

/// Whether a text ends in the key `entry` and its mark, so that its value comes next.
fn ends_in_entry(before: &str) -> bool {
    let blanks = [' ', '\t'];
    match before.trim_end_matches(&blanks).strip_suffix('=') {
        Some(key) => key.trim_end_matches(&blanks).ends_with("entry"),
        None => false,
    }
}

/// The changes of the programs that have names.
fn changes_of<'a>(sheet: &Sheet, programs: &[Program<'a>]) -> Vec<Change<'a>> {
    let mut changes = Vec::new(sheet.alloc);
    for program in programs {
        let edits = edits_of(sheet, program);
        if !edits.is_empty() {
            let change = Change {
                text: program.text,
                edits,
            };
            if changes.push(change).is_err() {
                sheet.lacks();
            }
        }
    }
    changes
}

impl Writing<'_, '_> {
    /// Adds a string that says this and stands behind a piece of the document: a label that is an entry as its address, and a program that has
    /// names with its changes.
    fn push_string(&mut self, before: &str, raw: &str, said: &str) {
        if let [entry, later @ ..] = self.entries {
            if entry.label == said && ends_in_entry(before) {
                self.entries = later;
                return self.sheet.add_number(entry.address);
            }
        }
        for change in self.changes {
            if change.text == said {
                return push_changed(self.sheet, raw, said, change.edits.as_slice());
            }
        }
        self.sheet.add(raw);
    }

    /// Adds the string with which a text begins, and answers what stands behind it.
    fn push_first<'t>(&mut self, before: &str, text: &'t str) -> &'t str {
        if !starts_string(text) {
            return text;
        }
        match quoted(self.sheet.alloc, text) {
            Ok((said, behind)) => {
                let length = text.len().saturating_sub(behind.len());
                let (raw, behind) = parted_at(text, Some(length));
                self.push_string(before, raw, said.as_str());
                behind
            }
            Err(_) => {
                self.sheet.lacks();
                ""
            }
        }
    }

    /// Adds a document's text. Each turn takes what stands before a string or a comment, and that.
    fn push_document(&mut self, text: &str) {
        let mut later = text;
        for _ in 0..text.len() {
            let (before, found) = parted_at(later, later.find(&MARKS));
            self.sheet.add(before);
            if found.starts_with('#') {
                let (comment, behind) = parted_at(found, found.find('\n'));
                self.sheet.add(comment);
                later = behind;
            } else {
                later = self.push_first(before, found);
            }
            if later.is_empty() {
                break;
            }
        }
    }
}

/// Adds the plain form of a scenario's text. Of a text that is no document, of a name that is none, and of a constant that can't be, the sheet
/// says so.
pub fn push_plain(sheet: &Sheet, text: &[u8]) {
    let (Ok(scenario), Ok(document)) = (
        str::from_utf8(text),
        toml::table_from_slice(sheet.alloc, text),
    ) else {
        return refused_scenario(sheet, text, 1, 1, 0);
    };
    let programs = programs_in(sheet, &document);
    let changes = changes_of(sheet, programs.as_slice());
    let entries = entries_in(sheet, text, &document, programs.as_slice());
    if sheet.problem().is_none() {
        let mut writing = Writing {
            sheet,
            changes: changes.as_slice(),
            entries: entries.as_slice(),
        };
        writing.push_document(scenario);
    }
}
