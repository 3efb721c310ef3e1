//! Cases: a command and what must come of it, read from the lines of a file.
//!
//! `case NAME` begins one with nothing in it, `again NAME` one with the words, the source and the files of the one before. Then `words A B`
//! and `word A` are the words of the command, `source` and `file NAME` have content, `room N` is what the sink takes, `fails OBJECT N` has
//! the call N of the `source`, the `sink` or the `shelf` fail, counted from 1, and `fails OBJECT N..M` all these calls. `holds 1` holds the
//! first worker until the second has passed, and `holds 2` all others until a burst was committed (`watch`). What must come of it: `status N`, `error TEXT`
//! for the line of the fault, `output` with content, `after NAME` with what a file of the shelf holds then, and `report` with the moves
//! of the report as a trace, and how they ended. All other files are to be as they were.
//!
//! Content are lines `|TEXT` for a text and a line feed, `.TEXT` for a text alone, `=DIGITS` for bytes in hexadecimal, and `*COUNT LINE` for
//! another line of content so many times.
use std::alloc::{AllocError, Global};
use std::collections::BTreeMap;

/// The files of a shelf.
pub type FileMap = BTreeMap<String, Vec<u8>>;

/// What has calls that can fail, in the order of its numbers.
const OBJECTS: &str = "source sink shelf";

/// The headings of what a case says, in the order in which `take` has their numbers.
const HEADINGS: &str =
    "case again words word source file room fails holds status error output report after";

/// The room of a sink where a case says nothing of it.
const ROOM: u32 = 1_048_576;

/// A call that fails: of which object, and its number.
#[derive(Clone, Copy)]
pub struct Fail {
    pub object: usize,
    pub call: u64,
}

/// A command and what must come of it.
#[derive(Drop)]
pub struct Case {
    pub name: String,
    pub words: Vec<String>,
    /// What the source holds.
    pub source: Vec<u8>,
    /// The files of the shelf.
    pub files: FileMap,
    /// How many bytes the sink has room for.
    pub room: u32,
    /// The calls that fail.
    pub fails: Vec<Fail>,
    /// Whether the source gives one byte a call, and the sink takes one.
    pub is_slow: bool,
    /// Which workers are held, and until when.
    pub holds: u8,
    /// What must come of it.
    pub status: u8,
    pub error: String,
    pub output: Vec<u8>,
    pub after: FileMap,
    /// The moves and the end of its report; empty where nothing is said of it.
    pub report: Vec<u8>,
}

/// The place of a word in a list of words; their number where it isn't there.
fn place_of(list: &str, word: &str) -> usize {
    let mut place = 0usize;
    for other in list.split(' ') {
        if other == word {
            break;
        }
        place = place.saturating_add(1);
    }
    place
}

/// Adds what a line of content stands for, but for one that repeats. `None` where it isn't well formed, and for want of memory.
fn add_once(alloc: Global, content: &mut Vec<u8>, line: &str) -> Option<()> {
    if let Some(digits) = line.strip_prefix('=') {
        let bytes = hex::decode(alloc, digits).ok()?;
        return content.extend_from_slice(&bytes).ok();
    }
    if let Some(text) = line.strip_prefix('|') {
        content.extend_from_slice(text.as_bytes()).ok()?;
        return content.push(b'\n').ok();
    }
    content
        .extend_from_slice(line.strip_prefix('.')?.as_bytes())
        .ok()
}

/// Adds what a line of content stands for; false where it is none. `None` where it isn't well formed, and for want of memory.
pub fn add(alloc: Global, content: &mut Vec<u8>, line: &str) -> Option<bool> {
    if line.starts_with(&['|', '.', '=']) {
        add_once(alloc, content, line)?;
        return Some(true);
    }
    let Some(rest) = line.strip_prefix('*') else {
        return Some(false);
    };
    let (count, line) = rest.split_once(' ')?;
    for _ in 0..count.parse::<u32>().ok()? {
        add_once(alloc, content, line)?;
    }
    Some(true)
}

/// Makes bytes what they are to be.
fn fill(bytes: &mut Vec<u8>, content: &[u8]) -> Result<(), AllocError> {
    bytes.clear();
    bytes.extend_from_slice(content)
}

/// Puts a file among others.
fn put(alloc: Global, files: &mut FileMap, name: &str, content: &[u8]) -> Result<(), AllocError> {
    let bytes = content.to_vec(alloc)?;
    files.insert(String::from_str(alloc, name)?, bytes)?;
    Ok(())
}

impl Case {
    /// No case.
    pub fn none(alloc: Global) -> Case {
        Case {
            name: String::new(alloc),
            words: Vec::new(alloc),
            source: Vec::new(alloc),
            files: BTreeMap::new(alloc),
            room: ROOM,
            fails: Vec::new(alloc),
            is_slow: false,
            holds: 0,
            status: 0,
            error: String::new(alloc),
            output: Vec::new(alloc),
            after: BTreeMap::new(alloc),
            report: Vec::new(alloc),
        }
    }

    /// Begins a case of the same words over the same source and shelf, of which nothing is wanted.
    fn begin(&mut self, name: &str) -> Result<(), AllocError> {
        self.name.clear();
        self.name.push_str(name)?;
        self.room = ROOM;
        self.fails.clear();
        self.holds = 0;
        self.status = 0;
        self.error.clear();
        self.output.clear();
        self.report.clear();
        self.after = self.files.clone()?;
        Ok(())
    }

    /// Takes a word.
    fn take_word(&mut self, alloc: Global, word: &str) -> Result<(), AllocError> {
        self.words.push(String::from_str(alloc, word)?)?;
        Ok(())
    }

    /// Takes the words between the spaces of a text.
    fn take_words(&mut self, alloc: Global, text: &str) -> Result<(), AllocError> {
        self.words.clear();
        for word in text.split(' ') {
            self.take_word(alloc, word)?;
        }
        Ok(())
    }

    /// Takes which calls of an object fail.
    fn take_fails(&mut self, text: &str) -> Option<()> {
        let (word, calls) = text.split_once(' ')?;
        let object = place_of(OBJECTS, word);
        let (first, last) = calls.split_once("..").unwrap_or((calls, calls));
        let end = last.parse::<u64>().ok()?.saturating_add(1);
        for call in first.parse::<u64>().ok()?..end {
            self.fails.push(Fail { object, call }).ok()?;
        }
        Some(())
    }

    /// Takes what a heading says, with the content beneath it. `None` where it isn't well formed, and for want of memory.
    pub fn take(&mut self, alloc: Global, heading: &str, content: &[u8]) -> Option<()> {
        let (word, rest) = heading.split_once(' ').unwrap_or((heading, ""));
        match place_of(HEADINGS, word) {
            0 => {
                self.words.clear();
                self.source.clear();
                self.files.clear();
                self.begin(rest).ok()
            }
            1 => self.begin(rest).ok(),
            2 => self.take_words(alloc, rest).ok(),
            3 => self.take_word(alloc, rest).ok(),
            4 => fill(&mut self.source, content).ok(),
            5 => {
                put(alloc, &mut self.files, rest, content).ok()?;
                put(alloc, &mut self.after, rest, content).ok()
            }
            6 => {
                self.room = rest.parse::<u32>().ok()?;
                Some(())
            }
            7 => self.take_fails(rest),
            8 => {
                self.holds = rest.parse::<u8>().ok()?;
                Some(())
            }
            9 => {
                self.status = rest.parse::<u8>().ok()?;
                Some(())
            }
            10 => self.error.push_str(rest).ok(),
            11 => fill(&mut self.output, content).ok(),
            12 => fill(&mut self.report, content).ok(),
            13 => put(alloc, &mut self.after, rest, content).ok(),
            _ => None,
        }
    }

    /// The numbers of an object's calls that fail, behind so many others.
    ///
    /// # Errors
    ///
    /// There is no memory for the numbers.
    pub fn fails_of(
        &self,
        alloc: Global,
        object: usize,
        behind: u64,
    ) -> Result<Vec<u64>, AllocError> {
        let mut calls = Vec::new(alloc);
        for fail in &self.fails {
            if fail.object == object {
                calls.push(fail.call.saturating_add(behind))?;
            }
        }
        Ok(calls)
    }
}
