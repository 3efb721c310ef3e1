//! The lines by which two texts differ.
use crate::sheet::{Sheet, parted};
use std::collections::BTreeSet;

/// Adds the lines with which a text begins up to the first one that is among others, each behind a mark. What stands behind that one.
fn push_alone<'a, const N: usize>(
    sheet: &Sheet,
    mark: &[u8; N],
    text: &'a str,
    others: &BTreeSet<&str>,
) -> &'a str {
    let mut later = text;
    for _ in 0..u64::MAX {
        let (line, behind) = parted(later, '\n');
        let is_end = later.is_empty() | others.contains(line);
        later = behind;
        if is_end {
            break;
        }
        sheet.put_around(mark, line, b"\n");
    }
    later
}

/// Adds the lines that one of two texts has alone: those that the second lacks behind `-`, those that the first lacks behind `+`. A line
/// that both have is passed in both. Where there is no memory for the lines of a text, the sheet notes that.
pub fn push_differences(sheet: &Sheet, first: &str, second: &str) {
    let Ok(in_first) = first.lines().collect(sheet.alloc) else {
        return sheet.lacks();
    };
    let Ok(in_second) = second.lines().collect(sheet.alloc) else {
        return sheet.lacks();
    };
    let mut later = first;
    let mut others = second;
    for _ in 0..u64::MAX {
        if later.is_empty() & others.is_empty() {
            break;
        }
        later = push_alone(sheet, b"- ", later, &in_second);
        others = push_alone(sheet, b"+ ", others, &in_first);
    }
}
