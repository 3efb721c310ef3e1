//! Threads that begin at a label.
use crate::plain::programs::Program;
use crate::problem::Problem;
use crate::refusal::push_heading;
use crate::sheet::Sheet;
use toml::{Table, Value};

/// What is expected of an entry.
const LABEL: &str =
    "\"entry\": expected a label of the program that stands in this space, or an integer, 0 to 16383";

/// A thread's entry that is a label, and the address for which that stands.
#[derive(Clone, Copy)]
pub struct Entry<'a> {
    pub label: &'a str,
    pub address: u64,
}

/// The text of an entry's key; nothing where it has none.
fn text_of<'a>(entry: &'a Value, key: &str) -> Option<&'a str> {
    match entry.get(key) {
        Some(value) => value.as_str(),
        None => None,
    }
}

/// The items of a section.
fn items_of<'a>(document: &'a Table, section: &str) -> &'a [Value] {
    match document.get(section) {
        Some(value) => match value.as_array() {
            Some(items) => items.as_slice(),
            None => &[],
        },
        None => &[],
    }
}

/// The name of the program that stands in the space with this path.
fn program_name<'a>(document: &'a Table, space: &str) -> Option<&'a str> {
    for item in items_of(document, "space") {
        if text_of(item, "path") == Some(space) {
            return text_of(item, "program");
        }
    }
    None
}

/// The program that stands in the space of an object.
fn program_of<'p, 'a>(
    document: &Table,
    programs: &'p [Program<'a>],
    object: &Value,
) -> Option<&'p Program<'a>> {
    let Some(at) = text_of(object, "at") else {
        return None;
    };
    let home = match at.rsplit_once('/') {
        Some(("", _)) | None => "/",
        Some((home, _)) => home,
    };
    let Some(name) = program_name(document, home) else {
        return None;
    };
    for program in programs {
        if program.name == name {
            return Some(program);
        }
    }
    None
}

/// The entries of a document's threads that are labels, in the order of the threads. Of the first that is none the sheet says so. Where no
/// program stands in a thread's space its entry is left as it is.
pub fn entries_in<'a>(
    sheet: &Sheet,
    text: &[u8],
    document: &'a Table,
    programs: &[Program<'a>],
) -> Vec<Entry<'a>> {
    let mut entries = Vec::new(sheet.alloc);
    for (index, object) in items_of(document, "object").iter().enumerate() {
        let Some(label) = text_of(object, "entry") else {
            continue;
        };
        let Some(program) = program_of(document, programs, object) else {
            continue;
        };
        match program.address_of(label) {
            Some(address) => {
                if entries.push(Entry { label, address }).is_err() {
                    sheet.lacks();
                }
            }
            None => refuse(sheet, text, index),
        }
    }
    entries
}

/// Says that the entry of the object with this index is no label, unless something was said already.
fn refuse(sheet: &Sheet, text: &[u8], index: usize) {
    if sheet.problem().is_none() {
        sheet.clear();
        sheet.put(b"standard input, ");
        push_heading(sheet, text, "[[object]]", index as u64);
        sheet.add(LABEL);
        sheet.fails(Problem::Given);
    }
}
