//! What the words of a hunt ask for.
use crate::asked::{Asked, Verb};
use crate::sheet::{Sheet, text_at};
use fk_model::plain_number_up_to;

/// The most schedules of a hunt.
const MOST: u64 = 1_000_000;

/// The last number of a schedule that may be the first.
const LAST: u64 = 4_294_967_295;

/// The number of the first schedule, where none is given.
const FIRST: u64 = 1;

/// The word before what is sought.
const UNTIL: &str = "--until";

/// Whether a word may be sought in a line.
fn is_line(word: &str) -> bool {
    for byte in word.as_bytes() {
        if *byte < 32 || *byte == 127 {
            return false;
        }
    }
    !word.is_empty()
}

/// The number in a word, from a least to a most; where it is none, the line says so.
fn number_in(line: &Sheet, word: &String, least: u64, most: u64, expected: &str) -> Option<u64> {
    match plain_number_up_to(most, word.as_bytes()) {
        Some(number) if number >= least => Some(number),
        _ => {
            line.put_wrong(word, expected);
            None
        }
    }
}

/// The word that is sought: behind `--until`, at this place of the words; none where there are no more words.
fn sought_in<'a>(line: &Sheet, words: &'a [String], place: usize) -> Option<&'a str> {
    let Some(word) = words.get(place) else {
        return Some("");
    };
    if word.as_str() != UNTIL {
        line.put_wrong(word, "--until");
        return None;
    }
    let sought = text_at(words, place.saturating_add(1));
    if !is_line(sought) {
        line.put_wrong(word, "quiet, fault or a text of one line behind it");
        return None;
    }
    Some(sought)
}

/// What the words behind `hunt` ask for: the name is what is sought, an empty one where nothing is. Of the first that isn't what is wanted there
/// the line says so.
pub fn hunt_asked<'a>(line: &Sheet, words: &'a [String]) -> Option<Asked<'a>> {
    let Some(word) = words.first() else {
        return None;
    };
    let expected = "a number of schedules, 1 to 1000000";
    let Some(end) = number_in(line, word, 1, MOST, expected) else {
        return None;
    };
    let (mut first, mut place) = (FIRST, 1);
    if words.len() == 2 || words.len() == 4 {
        let Some(word) = words.get(1) else {
            return None;
        };
        let expected = "the seed of the first schedule, 0 to 4294967295, or --until";
        let Some(number) = number_in(line, word, 0, LAST, expected) else {
            return None;
        };
        first = number;
        place = 2;
    }
    let Some(name) = sought_in(line, words, place) else {
        return None;
    };
    Some(Asked {
        verb: Verb::Hunt,
        name,
        other: "",
        first,
        end,
    })
}
