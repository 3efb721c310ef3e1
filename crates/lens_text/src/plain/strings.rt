//! A string of a document, changed where it stands.
use crate::plain::edits::{Edit, New};
use crate::sheet::Sheet;

/// What ends a line of a document.
const LINE_ENDS: [char; 2] = ['\n', '\r'];

/// What stands between an escape that says nothing and what comes next.
const BLANKS: [char; 4] = [' ', '\t', '\n', '\r'];

/// The marks with which strings begin, the longer ones first.
const MARKS: [&str; 4] = ["\"\"\"", "'''", "\"", "'"];

/// The mark with which a string begins, and the line's end that follows a long one; and what stands behind them.
fn opened(raw: &str) -> (&str, &str) {
    for mark in &MARKS {
        if let Some(body) = raw.strip_prefix(*mark) {
            let mut behind = body;
            if mark.len() == 3 {
                behind = body
                    .strip_prefix("\r\n")
                    .or(body.strip_prefix('\n'))
                    .unwrap_or(body);
            }
            let length = raw.len().saturating_sub(behind.len());
            return raw.split_at_checked(length).unwrap_or(("", raw));
        }
    }
    ("", raw)
}

/// Behind an escape that says nothing, with which a text may begin: a backslash at a line's end, and all blanks that follow.
fn without_joint(body: &str) -> &str {
    let Some(behind) = body.strip_prefix('\\') else {
        return body;
    };
    if behind
        .trim_start_matches(&[' ', '\t'])
        .starts_with(&LINE_ENDS)
    {
        behind.trim_start_matches(&BLANKS)
    } else {
        body
    }
}

/// What spells the next character of a string's body, and what stands behind it. One that spells itself has this length.
fn first_spelled(body: &str, is_escaping: bool, length: usize) -> (&str, &str) {
    let mut from = body;
    if is_escaping {
        for _ in 0..body.len() {
            let behind = without_joint(from);
            if behind.len() == from.len() {
                break;
            }
            from = behind;
        }
    }
    let own = match from.strip_prefix('\\') {
        Some(behind) if is_escaping => match behind.as_bytes() {
            [b'x', ..] => 4,
            [b'u', ..] => 6,
            [b'U', ..] => 10,
            _ => 2,
        },
        _ => length,
    };
    let joints = body.len().saturating_sub(from.len());
    body.split_at_checked(joints.saturating_add(own))
        .unwrap_or((body, ""))
}

/// What stands in a text from a byte on; nothing where no character begins there.
fn text_from(text: &str, from: usize) -> &str {
    match text.split_at_checked(from) {
        Some((_, behind)) => behind,
        None => "",
    }
}

/// Adds a string of a document, which says this text, with the changes of that text, which are in their order.
pub fn push_changed(sheet: &Sheet, raw: &str, said: &str, edits: &[Edit<'_>]) {
    let (mark, body) = opened(raw);
    sheet.add(mark);
    let is_escaping = mark.starts_with('"');
    let mut later = edits;
    let mut end = 0usize;
    let mut from = 0usize;
    for (at, one) in said.char_indices() {
        let (spelled, _) = first_spelled(text_from(body, from), is_escaping, one.len_utf8());
        from = from.saturating_add(spelled.len());
        if let [edit, rest @ ..] = later {
            if edit.from == at {
                match edit.new {
                    New::Number(number) => sheet.add_number(number),
                    New::Text(text) => sheet.add(text),
                }
                end = edit.to;
                later = rest;
            }
        }
        if at >= end {
            sheet.add(spelled);
        }
    }
    sheet.add(text_from(body, from));
}
