//! The kinds of ends that came, and which of them is sought.
use lens_text::Sheet;
use std::alloc::Global;

/// So many kinds are told apart.
const MOST: usize = 64;

/// So much is shown of a kind's line.
const SHOWN: usize = 400;

/// With which end a hunt stops.
#[derive(Clone, Copy)]
pub enum Until<'a> {
    /// With none.
    Never,
    /// With the end of a run in which threads wait for ever.
    Quiet,
    /// With a thread that has halted by a fault.
    Fault,
    /// With an end in whose line this stands.
    Text(&'a str),
}

/// What a word says of when a hunt stops, an empty one where none was given.
pub fn until_of(word: &str) -> Until<'_> {
    match word {
        "" => Until::Never,
        "quiet" => Until::Quiet,
        "fault" => Until::Fault,
        _ => Until::Text(word),
    }
}

/// Whether a line tells of a thread that has halted by one of the machine's four faults.
fn has_fault(line: &str) -> bool {
    let mut later = line;
    for _ in 0..u64::MAX {
        let Some((_, behind)) = later.split_once(" halted ") else {
            break;
        };
        let code = match behind.split_once(';') {
            Some((code, _)) => code,
            None => behind,
        };
        if let "1" | "2" | "3" | "4" = code {
            return true;
        }
        later = behind;
    }
    false
}

impl Until<'_> {
    /// Whether the end with this line is sought.
    pub fn is_met(self, line: &str) -> bool {
        match self {
            Until::Never => false,
            Until::Quiet => line.split_once("end quiet").is_some(),
            Until::Fault => has_fault(line),
            Until::Text(text) => line.split_once(text).is_some(),
        }
    }

    /// Adds what is sought.
    pub fn push(self, sheet: &Sheet) {
        match self {
            Until::Quiet => sheet.put(b"quiet"),
            Until::Fault => sheet.put(b"by a fault"),
            Until::Never => {}
            Until::Text(text) => sheet.put_around(b"with \"", text, b"\""),
        }
    }
}

/// A kind of ends: the line of each of them, how often it came, and the number of the first schedule that came to it.
#[derive(Drop)]
pub struct Kind {
    line: String,
    count: u64,
    pub first: u64,
}

/// The kinds that came, in the order in which they did.
#[derive(Drop)]
pub struct Kinds {
    list: Vec<Kind>,
    /// How many schedules came to ends that aren't told apart any more.
    further: u64,
}

impl Kinds {
    /// None came yet.
    pub fn new(alloc: Global) -> Kinds {
        Kinds {
            list: Vec::new(alloc),
            further: 0,
        }
    }

    /// Counts the end of the schedule with this number. Where there is no memory for that, the sheet notes it.
    pub fn count(&mut self, sheet: &Sheet, line: String, number: u64) {
        for kind in &mut self.list {
            if kind.line.as_str() == line.as_str() {
                kind.count = kind.count.saturating_add(1);
                return;
            }
        }
        if self.list.len() >= MOST {
            self.further = self.further.saturating_add(1);
            return;
        }
        let kind = Kind {
            line,
            count: 1,
            first: number,
        };
        if self.list.push(kind).is_err() {
            sheet.lacks();
        }
    }

    /// The number of the first schedule of the kind that came least often, the first of these; 0 where none came.
    pub fn rarest(&self) -> u64 {
        let mut found = 0;
        let mut least = u64::MAX;
        for kind in &self.list {
            if kind.count < least {
                least = kind.count;
                found = kind.first;
            }
        }
        found
    }

    /// Adds a line for each: how often it came, the number of its first schedule, and how these end.
    pub fn push(&self, sheet: &Sheet) {
        for kind in &self.list {
            sheet.fill(b"@ times, first by seed @: ", kind.count, kind.first, 0);
            match kind.line.split_at_checked(SHOWN) {
                Some((shown, _)) => sheet.put_around(b"", shown, b" ..\n"),
                None => sheet.put_around(b"", kind.line.as_str(), b"\n"),
            }
        }
        if self.further > 0 {
            sheet.fill(b"@ times: other ends\n", self.further, 0, 0);
        }
    }
}
