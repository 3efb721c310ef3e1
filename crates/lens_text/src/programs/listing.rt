//! A program's text, read for where its words stand.
use crate::plain::{Said, said_by};
use crate::sheet::{Sheet, parted};
use fk_asm::assemble;

/// A label and the address of the word behind it.
#[derive(Drop)]
pub struct Label {
    pub name: String,
    pub address: u64,
}

/// A program's text, read for where its words stand.
#[derive(Drop)]
pub struct Listing {
    pub name: String,
    /// The scenario's line before its first one; nothing where the text doesn't stand in the scenario as it is.
    pub before: Option<u64>,
    /// The words.
    pub words: Vec<u64>,
    /// The line of each word, counted in this text from 1 on.
    pub lines: Vec<u64>,
    /// Its labels, in the order of their lines.
    pub labels: Vec<Label>,
}

/// What stands behind the mark with which a string of the document begins, and how many lines that mark takes.
fn behind_quotes(text: &str) -> Option<(&str, u64)> {
    let long = text.strip_prefix("\"\"\"").or(text.strip_prefix("'''"));
    if let Some(text) = long {
        return match text.strip_prefix('\n') {
            Some(text) => Some((text, 1)),
            None => Some((text, 0)),
        };
    }
    match text.strip_prefix('"').or(text.strip_prefix('\'')) {
        Some(text) => Some((text, 0)),
        None => None,
    }
}

/// How many lines of a scenario stand before the text of the program with this name, where that stands there as it is.
fn lines_before(scenario: &str, name: &str, text: &str) -> Option<u64> {
    let mut later = scenario;
    for passed in 0..u64::MAX {
        if later.is_empty() {
            break;
        }
        let (head, value) = parted(later, '=');
        if head.trim_matches(&[' ', '\t']) == name {
            if let Some((found, more)) = behind_quotes(value.trim_start_matches(' ')) {
                if found.starts_with(text) {
                    return Some(passed.saturating_add(more));
                }
            }
        }
        later = parted(later, '\n').1;
    }
    None
}

impl Listing {
    /// Reads the text of the program with this name in a scenario.
    pub fn read(sheet: &Sheet, scenario: &str, name: &str, text: &str) -> Listing {
        let mut listing = Listing {
            name: sheet.copied(name),
            before: lines_before(scenario, name, text),
            words: assemble(sheet.alloc, text.as_bytes()).unwrap_or(Vec::new(sheet.alloc)),
            lines: Vec::new(sheet.alloc),
            labels: Vec::new(sheet.alloc),
        };
        let mut number = 0u64;
        for line in text.split('\n') {
            number = number.saturating_add(1);
            listing.add_line(sheet, number, line);
        }
        listing
    }

    /// Adds what a line gives: a label, a word, both or nothing.
    fn add_line(&mut self, sheet: &Sheet, number: u64, line: &str) {
        let Said::Other(label, said) = said_by(line) else {
            return;
        };
        if let Some(name) = label {
            let label = Label {
                name: sheet.copied(name),
                address: self.lines.len() as u64,
            };
            if self.labels.push(label).is_err() {
                sheet.lacks();
            }
        }
        if !said.is_empty() {
            if self.lines.push(number).is_err() {
                sheet.lacks();
            }
        }
    }

    /// The last label that stands at an address or before it.
    pub fn label_before(&self, address: u64) -> Option<&Label> {
        let mut found = None;
        for label in &self.labels {
            if label.address <= address {
                found = Some(label);
            }
        }
        found
    }
}
