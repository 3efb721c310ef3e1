//! Text that is written piece by piece.
use crate::problem::Problem;
use crate::shown::Shown;
use itoa::Buffer;
use std::alloc::Global;
use std::cell::Cell;

/// What stands before the first such mark of a text, and what stands behind it; all and nothing where there is none.
pub fn parted<'a>(text: &'a str, mark: char) -> (&'a str, &'a str) {
    text.split_once(mark).unwrap_or((text, ""))
}

/// The text at a place of a list; an empty one behind its end.
pub fn text_at<'a>(texts: &'a [String], place: usize) -> &'a str {
    match texts.get(place) {
        Some(text) => text.as_str(),
        None => "",
    }
}

/// The line with this number of a list of lines, or its last where it has fewer.
pub fn line_at(list: &'static str, number: u64) -> &'static str {
    let mut later = list;
    for _ in 0..number {
        let Some((_, behind)) = later.split_once('\n') else {
            break;
        };
        later = behind;
    }
    parted(later, '\n').0
}

/// The number of the first line of a list of lines that is this text, if one is.
pub fn number_of(list: &'static str, text: &str) -> Option<u64> {
    let mut number = 0u64;
    for line in list.lines() {
        if line == text {
            return Some(number);
        }
        number = number.saturating_add(1);
    }
    None
}

/// A text that is written piece by piece. Who writes shares it, and has no answer to look at after each piece: where there is no memory for
/// one, that shows when the whole is asked for.
#[derive(Drop)]
pub struct Sheet {
    /// What gives it memory.
    pub alloc: Global,
    /// What stands there. It is taken out while a piece is added.
    text: Cell<String>,
    /// Why what was asked for can't be shown, where it can't; the text is the line that says so then.
    problem: Cell<Option<Problem>>,
    /// What is said besides of what is shown, on standard error.
    beside: Cell<String>,
}

impl Sheet {
    /// An empty one.
    pub fn new(alloc: Global) -> Sheet {
        Sheet {
            alloc,
            text: Cell::new(String::new(alloc)),
            problem: Cell::new(None),
            beside: Cell::new(String::new(alloc)),
        }
    }

    /// How many bytes stand there.
    pub fn len(&self) -> usize {
        let whole = self.text.replace(String::new(self.alloc));
        let length = whole.len();
        self.text.set(whole);
        length
    }

    /// Makes it an empty one again.
    pub fn clear(&self) {
        self.text.set(String::new(self.alloc));
        self.problem.set(None);
    }

    /// Keeps what is said besides of what is shown.
    pub fn say_beside(&self, lines: String) {
        self.beside.set(lines);
    }

    /// Notes that there was no memory for something.
    pub fn lacks(&self) {
        self.problem.set(Some(Problem::NoMemory));
    }

    /// Adds a text.
    pub fn add(&self, text: &str) {
        let mut whole = self.text.replace(String::new(self.alloc));
        if whole.push_str(text).is_err() {
            self.lacks();
        }
        self.text.set(whole);
    }

    /// Adds a number.
    pub fn add_number(&self, number: u64) {
        let mut digits = Buffer::new();
        self.add(digits.format(number));
    }

    /// Adds bytes, which are always text.
    pub fn put_bytes(&self, bytes: &[u8]) {
        if let Ok(text) = str::from_utf8(bytes) {
            self.add(text);
        }
    }

    /// Adds a piece, which is always text.
    pub fn put<const N: usize>(&self, piece: &[u8; N]) {
        self.put_bytes(piece);
    }

    /// Adds a text between two pieces.
    pub fn put_around<const N: usize, const M: usize>(
        &self,
        before: &[u8; N],
        text: &str,
        behind: &[u8; M],
    ) {
        self.put(before);
        self.add(text);
        self.put(behind);
    }

    /// Adds a form: a text in which each `@` stands for the next of these numbers.
    pub fn fill_all(&self, form: &str, numbers: &[u64]) {
        let mut later = form;
        for number in numbers {
            let Some((before, behind)) = later.split_once('@') else {
                break;
            };
            self.add(before);
            self.add_number(*number);
            later = behind;
        }
        self.add(later);
    }

    /// Adds a form of three numbers at most.
    pub fn fill<const N: usize>(&self, form: &[u8; N], one: u64, two: u64, three: u64) {
        if let Ok(form) = str::from_utf8(form) {
            self.fill_all(form, &[one, two, three]);
        }
    }

    /// Adds a path between a piece and a form of two numbers at most.
    pub fn line<const N: usize, const M: usize>(
        &self,
        before: &[u8; N],
        path: &str,
        form: &[u8; M],
        one: u64,
        two: u64,
    ) {
        self.put(before);
        self.add(path);
        self.fill(form, one, two, 0);
    }

    /// Adds a row: a line, padded to 30 characters, a word's address and the word's 16 digits.
    pub fn put_row(&self, line: Sheet, address: u64, word: u64) {
        let text = self.taken(line);
        let mut whole = self.text.replace(String::new(self.alloc));
        if write!(whole, "{text:<30} ; {address:>5} {word:016x}\n").is_err() {
            self.lacks();
        }
        self.text.set(whole);
    }

    /// Adds that a word, which stands in quotes, isn't what was expected.
    pub fn put_wrong(&self, word: &String, expected: &str) {
        let mut whole = self.text.replace(String::new(self.alloc));
        if write!(whole, "{word:?}: expected {expected}").is_err() {
            self.lacks();
        }
        self.text.set(whole);
    }

    /// A copy of a text. Where there is no memory for it, that is noted here.
    pub fn copied(&self, text: &str) -> String {
        let copy = Sheet::new(self.alloc);
        copy.add(text);
        self.taken(copy)
    }

    /// What another has; that there was no memory for a piece of it is noted here.
    pub fn taken(&self, other: Sheet) -> String {
        if other.problem.get().is_some() {
            self.lacks();
        }
        other.text.into_inner()
    }

    /// Notes why what was asked for can't be shown, in the line that stands there. Where there was no memory for that, it is why.
    pub fn fails(&self, problem: Problem) {
        if self.problem.get().is_none() {
            self.problem.set(Some(problem));
        }
    }

    /// Why what was asked for can't be shown, where it can't.
    pub fn problem(&self) -> Option<Problem> {
        self.problem.get()
    }

    /// What has come of it: the whole, or why it isn't shown and the line that says so.
    pub fn shown(self) -> Shown {
        Shown {
            problem: self.problem.get(),
            text: self.text.into_inner(),
            beside: self.beside.into_inner(),
        }
    }
}
