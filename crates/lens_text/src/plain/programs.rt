//! The programs of a scenario, by their lines: their labels and their constants.
use crate::sheet::{Sheet, parted};
use std::collections::BTreeMap;
use toml::Table;

/// What stands between the tokens of a line.
pub const SEPARATORS: [char; 4] = [' ', '\t', '\r', ','];

/// What a constant stands for, and the number of the line that gives it.
#[derive(Clone, Copy)]
pub struct Constant<'a> {
    pub value: &'a str,
    pub line: u64,
}

/// A program's text, with what its lines define.
#[derive(Drop)]
pub struct Program<'a> {
    pub name: &'a str,
    pub text: &'a str,
    /// The addresses of its labels. Of two lines that define one the first counts.
    pub labels: BTreeMap<&'a [u8], u64>,
    /// Its constants. Of two lines that give one the first counts.
    pub constants: BTreeMap<&'a [u8], Constant<'a>>,
}

/// What a line of a program says before its comment.
#[derive(Clone, Copy)]
pub enum Said<'a> {
    /// It gives a constant: its name and its value.
    Constant(&'a str, &'a str),
    /// It may define a label; and it may have an operation with its operands.
    Other(Option<&'a str>, &'a str),
}

/// A text without the separators at its ends.
fn bare(text: &str) -> &str {
    text.trim_matches(&SEPARATORS)
}

/// The first token of a text that begins with one, and what stands behind it.
pub fn first_token(text: &str) -> (&str, &str) {
    match text.split_once(&SEPARATORS) {
        Some((token, rest)) => (token, rest),
        None => (text, ""),
    }
}

/// What a line says. No word of a plain program has an `=`.
pub fn said_by(line: &str) -> Said<'_> {
    let said = bare(parted(line, ';').0);
    if let Some((name, value)) = said.split_once('=') {
        return Said::Constant(bare(name), bare(value));
    }
    let (first, rest) = first_token(said);
    match first.strip_suffix(':') {
        Some(label) => Said::Other(Some(label), bare(rest)),
        None => Said::Other(None, said),
    }
}

impl<'a> Program<'a> {
    /// Reads a program's text.
    fn read(sheet: &Sheet, name: &'a str, text: &'a str) -> Program<'a> {
        let mut program = Program {
            name,
            text,
            labels: BTreeMap::new(sheet.alloc),
            constants: BTreeMap::new(sheet.alloc),
        };
        let mut address = 0u64;
        let mut line = 0u64;
        for text in text.split('\n') {
            line = line.saturating_add(1);
            match said_by(text) {
                Said::Constant(name, value) => {
                    program.add_constant(sheet, name, Constant { value, line });
                }
                Said::Other(label, said) => {
                    program.add_label(sheet, label, address);
                    address = address.saturating_add(!said.is_empty() as u64);
                }
            }
        }
        program
    }

    /// Notes a constant that a line gives.
    fn add_constant(&mut self, sheet: &Sheet, name: &'a str, constant: Constant<'a>) {
        if self.constants.get(name.as_bytes()).is_none() {
            if self.constants.insert(name.as_bytes(), constant).is_err() {
                sheet.lacks();
            }
        }
    }

    /// Notes the label that a line defines, if it defines one.
    fn add_label(&mut self, sheet: &Sheet, label: Option<&'a str>, address: u64) {
        let Some(name) = label else {
            return;
        };
        if self.labels.get(name.as_bytes()).is_none() {
            if self.labels.insert(name.as_bytes(), address).is_err() {
                sheet.lacks();
            }
        }
    }

    /// The address of the label with this name.
    pub fn address_of(&self, label: &str) -> Option<u64> {
        match self.labels.get(label.as_bytes()) {
            Some(address) => Some(*address),
            None => None,
        }
    }

    /// The constant with this name.
    pub fn constant(&self, name: &str) -> Option<Constant<'a>> {
        match self.constants.get(name.as_bytes()) {
            Some(constant) => Some(*constant),
            None => None,
        }
    }
}

/// The programs of a document, in the order of their names. What is no text of a program is left out.
pub fn programs_in<'a>(sheet: &Sheet, document: &'a Table) -> Vec<Program<'a>> {
    let mut programs = Vec::new(sheet.alloc);
    let Some(value) = document.get("programs") else {
        return programs;
    };
    if let Some(table) = value.as_table() {
        for (name, value) in table {
            if let Some(text) = value.as_str() {
                let program = Program::read(sheet, name.as_str(), text);
                if programs.push(program).is_err() {
                    sheet.lacks();
                }
            }
        }
    }
    programs
}
