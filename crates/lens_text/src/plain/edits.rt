//! What is to be changed in a program's text, so that it has no names.
use crate::plain::names::number_named;
use crate::plain::programs::{Program, SEPARATORS, Said, first_token, said_by};
use crate::problem::Problem;
use crate::sheet::{Sheet, parted};
use fk_model::{is_name, number_up_to};

/// What is expected of a name in a number's place.
const NAME: &str = "a label, a constant, or the name of a call or a status";

/// What is expected of a constant's name.
const NEW: &str =
    "a new constant: 1 to 32 of a to z, 0 to 9 and _, a letter first, no register, and the name of no label, call or earlier constant";

/// What is expected of a constant's value.
const VALUE: &str =
    "a number from -2147483648 to 18446744073709551615, or the name of a call or a status";

/// What is put into a text.
#[derive(Clone, Copy)]
pub enum New<'a> {
    Number(u64),
    Text(&'a str),
}

/// A change of a text: what stands from one offset on and before another is taken out, and something is put there.
#[derive(Clone, Copy)]
pub struct Edit<'a> {
    pub from: usize,
    pub to: usize,
    pub new: New<'a>,
}

/// The changes of a program's text, in their order, as they are found.
#[derive(Drop)]
struct Finding<'s, 'a> {
    sheet: &'s Sheet,
    program: &'s Program<'a>,
    edits: Vec<Edit<'a>>,
    /// The number of the line that is looked at.
    line: u64,
}

/// Whether a token is a register, or would be one if there were as many.
fn is_register(token: &str) -> bool {
    match token.strip_prefix('r') {
        Some(digits) => number_up_to(u64::MAX, digits.as_bytes()).is_some(),
        None => false,
    }
}

/// What a constant's value is, where it is one: a number that some place may have, or one that has a name.
fn value_of(text: &str) -> Option<New<'_>> {
    let is_number = match text.strip_prefix('-') {
        Some(digits) => number_up_to(2_147_483_648, digits.as_bytes()).is_some(),
        None => number_up_to(u64::MAX, text.as_bytes()).is_some(),
    };
    if is_number {
        return Some(New::Text(text));
    }
    match number_named(text) {
        Some(number) => Some(New::Number(number)),
        None => None,
    }
}

impl<'a> Finding<'_, 'a> {
    /// Notes a change.
    fn push(&mut self, from: usize, to: usize, new: New<'a>) {
        if self.edits.push(Edit { from, to, new }).is_err() {
            self.sheet.lacks();
        }
    }

    /// Says that a token isn't what was expected, unless something was said already.
    fn refuse(&self, token: &str, expected: &str) {
        let sheet = self.sheet;
        if sheet.problem().is_some() {
            return;
        }
        sheet.clear();
        sheet.put_around(b"standard input, [programs] ", self.program.name, b"");
        sheet.fill(b", line @ of it: \"", self.line, 0, 0);
        sheet.put_around(b"", token, b"\": expected ");
        sheet.add(expected);
        sheet.fails(Problem::Given);
    }

    /// Makes a comment of a line that gives a constant, whose first token is at this offset.
    fn constant(&mut self, at: usize, name: &str, value: &str) {
        let is_first = match self.program.constant(name) {
            Some(constant) => constant.line == self.line,
            None => false,
        };
        let is_free = self.program.address_of(name).is_none() && number_named(name).is_none();
        let is_formed = is_name(name.as_bytes()) && matches!(name.as_bytes(), [b'a'..=b'z', ..]);
        if !is_first || !is_free || !is_formed || is_register(name) {
            self.refuse(name, NEW);
        } else if value_of(value).is_none() {
            self.refuse(value, VALUE);
        }
        self.push(at, at, New::Text("; "));
    }

    /// What stands for a token, where it is a name. Registers, labels and what doesn't begin as a name does stay.
    fn new_for(&self, token: &str) -> Option<New<'a>> {
        let may_be = matches!(token.as_bytes(), [b'a'..=b'z' | b'A'..=b'Z' | b'_', ..]);
        if !may_be || is_register(token) || self.program.address_of(token).is_some() {
            return None;
        }
        if let Some(constant) = self.program.constant(token) {
            return value_of(constant.value);
        }
        match number_named(token) {
            Some(number) => Some(New::Number(number)),
            None => {
                self.refuse(token, NAME);
                None
            }
        }
    }

    /// Puts numbers in the place of names among operands, which begin at this offset.
    fn operands(&mut self, start: usize, operands: &str) {
        let mut at = start;
        let mut later = operands;
        for _ in 0..operands.len() {
            let rest = later.trim_start_matches(&SEPARATORS);
            at = at.saturating_add(later.len().saturating_sub(rest.len()));
            let (token, behind) = first_token(rest);
            if token.is_empty() {
                break;
            }
            let end = at.saturating_add(token.len());
            if let Some(new) = self.new_for(token) {
                self.push(at, end, new);
            }
            at = end.saturating_add(1);
            later = behind;
        }
    }

    /// Finds the changes of a line that begins at this offset.
    fn line(&mut self, start: usize, line: &str) {
        let before = parted(line, ';').0.trim_end_matches(&SEPARATORS);
        match said_by(line) {
            Said::Constant(name, value) => {
                let indent = line
                    .len()
                    .saturating_sub(line.trim_start_matches(&SEPARATORS).len());
                self.constant(start.saturating_add(indent), name, value);
            }
            Said::Other(_, said) => {
                let operands = first_token(said).1;
                let skipped = before.len().saturating_sub(operands.len());
                self.operands(start.saturating_add(skipped), operands);
            }
        }
    }
}

/// The changes of a program's text, in their order. Of the first name that is none, and of a constant that can't be, the sheet says so.
pub fn edits_of<'a>(sheet: &Sheet, program: &Program<'a>) -> Vec<Edit<'a>> {
    let mut finding = Finding {
        sheet,
        program,
        edits: Vec::new(sheet.alloc),
        line: 0,
    };
    let mut start = 0usize;
    for line in program.text.split('\n') {
        finding.line = finding.line.saturating_add(1);
        finding.line(start, line);
        start = start.saturating_add(line.len()).saturating_add(1);
    }
    finding.edits
}
