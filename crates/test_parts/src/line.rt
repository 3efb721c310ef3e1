//! Lines of steps: a word, and numbers.
use crate::numbers::{Numbers, numbers_of};

/// A line: what is done, the text behind that, its numbers, and those behind `giving`, `picking` and `=`.
#[derive(Clone, Copy)]
pub struct Line<'a> {
    pub verb: &'a str,
    pub text: &'a str,
    pub subject: Numbers,
    pub given: Numbers,
    pub picked: Numbers,
    pub wanted: Numbers,
}

/// The line of a text.
pub fn line_of(text: &str) -> Line<'_> {
    let (text, wanted) = text.split_once(" =").unwrap_or((text, ""));
    let (text, picked) = text.split_once(" picking ").unwrap_or((text, ""));
    let (text, given) = text.split_once(" giving ").unwrap_or((text, ""));
    let (verb, text) = text.split_once(' ').unwrap_or((text, ""));
    Line {
        verb,
        text,
        subject: numbers_of(text),
        given: numbers_of(given),
        picked: numbers_of(picked),
        wanted: numbers_of(wanted),
    }
}
