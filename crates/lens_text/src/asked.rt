//! What the words of the command line ask for.
use crate::hunted::hunt_asked;
use crate::sheet::{Sheet, line_at, number_of, text_at};
use fk_model::{is_name, plain_number_up_to};

/// What is asked for.
#[derive(Clone, Copy)]
pub enum Verb {
    Help,
    Version,
    /// A program's text, assembled and shown.
    Words,
    /// An image.
    Image,
    /// The lines by which two images differ.
    Differences,
    /// What stands at the beginning.
    First,
    /// What stands after so many moves of a trace.
    Tree,
    /// The moves of a trace from one on and before another.
    Steps,
    /// Why threads aren't ready after so many moves of a trace.
    Why,
    /// The run of a trace as a page.
    Page,
    /// What went wrong in the run of a trace.
    Sums,
    /// A scenario without the names that it uses.
    Plain,
    /// The ends of runs by schedules that are drawn at random.
    Hunt,
    /// The first move in which two traces differ in what they do.
    Apart,
    /// A record beside the moves that made it.
    Record,
}

/// What the words of the command line ask for: the verb, its names and its moves.
#[derive(Clone, Copy)]
pub struct Asked<'a> {
    pub verb: Verb,
    /// The trace or the image.
    pub name: &'a str,
    /// The other image.
    pub other: &'a str,
    /// The first move that is shown; of a hunt the number of its first schedule.
    pub first: u64,
    /// Before which move a run is to stop; the last number where it is to go on to the end. Of a hunt how many schedules it has.
    pub end: u64,
}

/// What there is, where a word is wrong.
const VERBS: &str =
    "one of tree, steps, why, sums, record, image, words, page, plain, hunt, diff, --help, --version";

/// The most moves that a scenario's budget allows.
const MOST: u64 = 1_000_000;

/// The words of the verbs.
const WORDS: &str = "tree
steps
why
image
words
page
--help
--version
sums
plain
hunt
diff
record";

/// What is expected behind each.
const BEHIND: &str = "no word, or a name and a number of moves
a name, or a name and two moves
a name and a number of moves
one name or two
no word
a name
no word
no word
a name
no word
a number of schedules, perhaps the seed of the first, and perhaps --until quiet, --until fault or --until TEXT
two names
a name";

/// What is expected of a word behind a verb: a number of moves, or a name.
const EXPECTED: &str = "a number of moves, 0 to 1000000
a name, 1 to 32 of a to z, 0 to 9 and _";

/// What a verb with these words behind it asks for: so many names at most, and then numbers of moves. Of the first that isn't what is wanted
/// there the line says so.
fn asked_of<'a>(line: &Sheet, verb: Verb, words: &'a [String]) -> Option<Asked<'a>> {
    let names = match verb {
        Verb::Differences | Verb::Apart => 2,
        _ => 1,
    };
    for (place, word) in words.iter().enumerate() {
        let is_name_wanted = place < names;
        let is_right = if is_name_wanted {
            is_name(word.as_bytes())
        } else {
            plain_number_up_to(MOST, word.as_bytes()).is_some()
        };
        if !is_right {
            line.put_wrong(word, line_at(EXPECTED, is_name_wanted as u64));
            return None;
        }
    }
    let other = text_at(words, 1);
    let one = plain_number_up_to(MOST, other.as_bytes()).unwrap_or(0);
    let (first, end) = match verb {
        Verb::Tree | Verb::Why => (0, one),
        Verb::Steps => match plain_number_up_to(MOST, text_at(words, 2).as_bytes()) {
            Some(last) => (one, last.saturating_add(1)),
            None => (one, u64::MAX),
        },
        _ => (0, u64::MAX),
    };
    if let Some(word) = words.get(2) {
        if end <= first {
            line.put_wrong(word, "a move that isn't before the first");
            return None;
        }
    }
    Some(Asked {
        verb,
        name: text_at(words, 0),
        other,
        first,
        end,
    })
}

/// What words ask for; nothing where they are no verb, which the sheet says then.
pub fn asked_in<'a>(line: &Sheet, words: &'a [String]) -> Option<Asked<'a>> {
    let Some((word, rest)) = words.split_first() else {
        line.put_around(b"expected ", VERBS, b"");
        return None;
    };
    let Some(place) = number_of(WORDS, word.as_str()) else {
        line.put_wrong(word, VERBS);
        return None;
    };
    let verb = match (place, rest.len()) {
        (0, 0) => Verb::First,
        (0, 2) => Verb::Tree,
        (1, 1 | 3) => Verb::Steps,
        (2, 2) => Verb::Why,
        (3, 1) => Verb::Image,
        (3, 2) => Verb::Differences,
        (4, 0) => Verb::Words,
        (5, 1) => Verb::Page,
        (6, 0) => Verb::Help,
        (7, 0) => Verb::Version,
        (8, 1) => Verb::Sums,
        (9, 0) => Verb::Plain,
        (10, 1..=4) => return hunt_asked(line, rest),
        (11, 2) => Verb::Apart,
        (12, 1) => Verb::Record,
        _ => {
            line.put_around(b"after ", word.as_str(), b": expected ");
            line.add(line_at(BEHIND, place));
            return None;
        }
    };
    asked_of(line, verb, rest)
}
