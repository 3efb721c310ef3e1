//! Why a text is no scenario.
use crate::problem::Problem;
use crate::sheet::{Sheet, line_at, parted};
use crate::words::push_unassembled;
use fk_asm::assemble;
use fk_model::is_name;
use toml::Table;
use toml::de::Error;

/// What was expected of a scenario, by the rule by which it is refused, and by any other. Behind the rules 3 and 4 stand the entry's keys.
const EXPECTED: &str = "a scenario
a TOML document
a table with its keys
numbers and lengths in their ranges, 256 spaces and 16 jobs at most
well-formed paths and names, a kind and a rule that there are
a space in one that is there, once, with / first; an object in a space that is there
a slot that is free, and bound once
region, keeper, to or set to lead to what it can hold
a program that is there
a port of the file that has no set and no other server; an alias once
a nester of the file; to save a subtree without nesters and servers, and no image twice
a scenario";

/// How the sections are headed by their numbers, and what any other is.
const HEADINGS: &str = "top
top
[programs]
[[space]]
[[object]]
[[server]]
[[job]]
top";

/// The keys of a kind's or a rule's entries, and of all others of their section: the first line that fits counts. Behind each stands its type, in
/// the words of the reader of TOML, whether it has to be there, and what it may be. An array of an entry stands last.
const KEYS: &str = "\
top: budget (integer, needed, 1 to 1000000); workers (integer, 1 to 8); programs (table); \
space (array); object (array); server (array); job (array)
[[space]]: path (string, needed: a path); program (string: a name); nester (boolean); pages (array of 0 to 255)
[[object]] thread: at (string, needed: a path); kind (string, needed); \
entry (integer, 0 to 16383); stops (integer, 0 to 65535); regs (array of at most 16 integers)
[[object]] mutex: at (string, needed: a path); kind (string, needed); locked (boolean)
[[object]] mapping: at (string, needed: a path); kind (string, needed); region (string: a path); \
first (integer, 0 to 255); count (integer, 1 to 256); offset (integer, 0 to 255); write (boolean)
[[object]] region: at (string, needed: a path); kind (string, needed); keeper (string: a path); \
first (integer, 0 to 255); count (integer, 1 to 256); write (boolean)
[[object]] port: at (string, needed: a path); kind (string, needed); set (integer, 0 to 239)
[[object]] reference: at (string, needed: a path); kind (string, needed); to (string: a path)
[[object]]: at (string, needed: a path); \
kind (string, needed: thread, mutex, cond, mapping, region, port, portset or reference)
[[server]] console: port (string, needed: a path); rule (string, needed); alias (string, needed: a name)
[[server]]: port (string, needed: a path); rule (string, needed: console, echo, feed or sum); config (array of integers)
[[job]] restore: kind (string, needed); at (integer, 0 to 1000000); nester (string, needed: a path); \
slot (integer, needed, 0 to 239); image (string, needed: a name); bind (array of pairs of 0 to 239)
[[job]]: kind (string, needed: checkpoint or restore); at (integer, 0 to 1000000); nester (string, needed: a path); \
slot (integer, needed, 0 to 239); image (string, needed: a name)";

/// The number of the line that begins an entry, where the text has it under a heading of its own, with a comment behind that at most.
fn line_of(text: &[u8], heading: &str, index: u64) -> Option<u64> {
    let Ok(text) = str::from_utf8(text) else {
        return None;
    };
    let mut number = 0u64;
    let mut passed = 0u64;
    for line in text.lines() {
        number = number.saturating_add(1);
        if parted(line, '#').0.trim() == heading {
            if passed == index {
                return Some(number);
            }
            passed = passed.saturating_add(1);
        }
    }
    None
}

/// The name of a key in an item of a list of keys.
fn key_of(item: &'static str) -> &'static str {
    parted(item, '(').0.trim()
}

/// The item of a key in a list of keys; an empty one where the key isn't there.
fn item_of(keys: &'static str, key: &str) -> &'static str {
    for item in keys.split(';') {
        if key_of(item) == key {
            return item.trim();
        }
    }
    ""
}

/// The keys of the entries of a section with this heading that are of a kind.
fn keys_of(heading: &str, kind: &str) -> &'static str {
    for line in KEYS.lines() {
        let (head, keys) = parted(line, ':');
        let (section, of) = parted(head, ' ');
        if (section == heading) & (of.is_empty() | (of == kind)) {
            return keys;
        }
    }
    ""
}

/// Adds which key of an entry is none of these, has a value of another type, or is missing; where none is, its array has such a value.
fn push_wrong_key(sheet: &Sheet, entry: &Table, keys: &'static str) {
    for (key, value) in entry {
        let item = item_of(keys, key.as_str());
        if item.is_empty() {
            sheet.put_wrong(key, "one of");
            return sheet.add(keys);
        }
        if !parted(item, '(').1.starts_with(value.type_str()) {
            return sheet.put_wrong(key, item);
        }
    }
    for item in keys.split(';') {
        let is_needed = item.contains(", needed");
        if (is_needed & entry.get(key_of(item)).is_none()) | item.contains("(array") {
            return sheet.put_around(b"expected", item, b"");
        }
    }
}

/// Adds what was expected of an entry of a section with this heading, which is refused by a rule.
fn push_expected(sheet: &Sheet, entry: &Table, heading: &str, rule: u8) {
    // The kind of a server is its rule.
    let key = if heading == "[[server]]" {
        "rule"
    } else {
        "kind"
    };
    let kind = match entry.get(key) {
        Some(value) => value.as_str().unwrap_or(""),
        None => "",
    };
    let keys = keys_of(heading, kind);
    if rule == 2 {
        return push_wrong_key(sheet, entry, keys);
    }
    sheet.put_around(b"expected ", line_at(EXPECTED, rule as u64), b"");
    if rule < 5 {
        sheet.put_around(b":", keys, b"");
    }
}

/// Adds what was expected of the program with this index, in the order of their names.
fn push_program(sheet: &Sheet, programs: &Table, index: u32) {
    let Some((name, value)) = programs.iter().nth(index as usize) else {
        return;
    };
    sheet.put(b"[programs] ");
    let Some(text) = value.as_str() else {
        return sheet.put_wrong(name, "a string, the program's text");
    };
    if !is_name(name.as_bytes()) {
        return sheet.put_wrong(name, "a name, 1 to 32 of a to z, 0 to 9 and _");
    }
    if let Err(fault) = assemble(sheet.alloc, text.as_bytes()) {
        sheet.add(name.as_str());
        push_unassembled(sheet, b", line @ of it: expected ", fault);
    }
}

/// The table of an entry of a section with this heading.
fn entry_of<'a>(document: &'a Table, heading: &str, index: u32) -> Option<&'a Table> {
    let name = heading.trim_start_matches('[').trim_end_matches(']');
    match document.get(name) {
        Some(section) => match section.get(index as usize) {
            Some(entry) => entry.as_table(),
            None => None,
        },
        None => None,
    }
}

/// Adds which entry of a section with this heading is spoken of, and its line where it has one.
pub fn push_heading(sheet: &Sheet, text: &[u8], heading: &str, index: u64) {
    if let Some(line) = line_of(text, heading, index) {
        sheet.fill(b"line @, ", line, 0, 0);
    }
    sheet.add(heading);
    sheet.fill(b" @: ", index, 0, 0);
}

/// Adds where a document is no scenario, and what was expected there.
fn push_refusal(sheet: &Sheet, text: &[u8], document: &Table, rule: u8, section: u8, index: u32) {
    let heading = line_at(HEADINGS, section as u64);
    match section {
        2 => {
            if let Some(value) = document.get("programs") {
                if let Some(programs) = value.as_table() {
                    push_program(sheet, programs, index);
                }
            }
        }
        3..=6 => {
            push_heading(sheet, text, heading, index as u64);
            match entry_of(document, heading, index) {
                Some(entry) => push_expected(sheet, entry, heading, rule),
                None => sheet.put(b"expected a table"),
            }
        }
        _ => {
            sheet.put(b"top: ");
            push_expected(sheet, document, heading, rule);
        }
    }
}

/// Adds where a text is no document, and why, in the words of its reader.
fn push_unread(sheet: &Sheet, error: Error) {
    let mut said = String::new(sheet.alloc);
    if error.is_memory() | write!(said, "{error}").is_err() {
        return sheet.lacks();
    }
    let (place, why) = parted(said.as_str(), '\n');
    let place = place.trim_start_matches("TOML parse error at ");
    sheet.put_around(b"", place, b": expected a TOML document: ");
    sheet.add(why.trim());
}

/// Says that a scenario is refused, by a rule at the entry of a section with this index: where that stands, and what was expected there.
pub fn refused_scenario(sheet: &Sheet, text: &[u8], rule: u8, section: u8, index: u32) {
    sheet.clear();
    sheet.put(b"standard input, ");
    match toml::table_from_slice(sheet.alloc, text) {
        Ok(document) => push_refusal(sheet, text, &document, rule, section, index),
        Err(error) => push_unread(sheet, error),
    }
    sheet.fails(Problem::Given);
}
