//! Reading the text of a note.
ghost use Rattle.std.specs.Prelude.{◌≡◌, ◌<◌, ◌≤◌};
ghost use Rattle.std.specs.Option.{option_map};
ghost use Rattle.fk_model.specs.Answers.{reply_words};
ghost use Rattle.fk_responders.specs.Notes.{note_of};
ghost use Rattle.fk_record_text.specs.Reading as steps;

use fk_model::{Reply, Turn, plain_number_up_to};
use fk_responders::{Note, append};
use fk_trace_text::cut_at;

const EMPTY: Reply = Reply {
    words: [0; 64],
    len: 0,
};

/// The word with which a text begins, and what stands behind the space after it, where there is one.
#[tactic(auto, unfolding(crate::specs::Reading::first_word))]
fn first_word(text: &[u8]) -> Option<(u64, Option<&[u8]>)>
    ensures { option_map (λ read. (read.0, option_map (λ after. after.now) read.1)) result ≡ steps.first_word text.now }
{
    match cut_at(b' ', text) {
        None => Some((plain_number_up_to(18_446_744_073_709_551_615, text)?, None)),
        Some((word, after)) => Some((
            plain_number_up_to(18_446_744_073_709_551_615, word)?,
            Some(after),
        )),
    }
}

/// One word or more, at most 64, with a space between each two.
#[tactic(auto, using(crate::proofs::Words::step_more, crate::proofs::Words::step_last, crate::proofs::Words::step_none, crate::proofs::Words::step_end, crate::proofs::Words::step_first))]
fn words_in(text: &[u8]) -> Option<Reply>
    ensures { option_map (λ reply. reply_words reply) result ≡ steps.words_in 64 text.now }
{
    let mut reply = EMPTY;
    let mut rest = text;
    for _ in 0..64u8 {
        let (word, after) = first_word(rest)?;
        append(&mut reply, &[word]);
        match after {
            None => return Some(reply),
            Some(more) => rest = more,
        }
    }
    None
}

/// The turn that a text names.
#[tactic(auto, unfolding(crate::specs::Reading::turn_of))]
fn turn_of(text: &[u8]) -> Option<Turn>
    ensures { result ≡ steps.turn_of text.now }
{
    if text == b"client".as_slice() {
        Some(Turn::Client)
    } else if text == b"server".as_slice() {
        Some(Turn::Server)
    } else {
        None
    }
}

/// The note of a talk that is taken up: a turn, and how many words have moved.
fn taken_in(text: &[u8]) -> Option<Note>
    ensures { option_map note_of result ≡ steps.taken_in (steps.cut_at 32 text.now) }
{
    let (turn, moved) = cut_at(b' ', text)?;
    let turn = turn_of(turn)?;
    let moved = plain_number_up_to(65_535, moved)?;
    Some(Note::Taken {
        turn,
        moved: moved as u16,
    })
}

/// The note that a word alone is.
#[tactic(auto, unfolding(crate::specs::Reading::alone))]
fn alone(word: &[u8]) -> Option<Note>
    ensures { option_map note_of result ≡ steps.alone word.now }
{
    match word {
        b"over" => Some(Note::Over),
        b"ended" => Some(Note::Ended),
        b"said" => Some(Note::Said(EMPTY)),
        b"reply" => Some(Note::Reply(EMPTY)),
        _ => None,
    }
}

/// The note that a word is with what stands behind it.
#[tactic(auto, unfolding(crate::specs::Reading::with_more))]
fn with_more(word: &[u8], more: &[u8]) -> Option<Note>
    ensures { option_map note_of result ≡ steps.with_more word.now more.now }
{
    match word {
        b"said" => Some(Note::Said(words_in(more)?)),
        b"reply" => Some(Note::Reply(words_in(more)?)),
        b"taken" => taken_in(more),
        _ => None,
    }
}

/// The note that a text is.
#[tactic(auto, unfolding(crate::specs::Reading::note_in))]
pub(crate) fn note_in(text: &[u8]) -> Option<Note>
    ensures { option_map note_of result ≡ steps.note_in text.now }
{
    match cut_at(b' ', text) {
        None => alone(text),
        Some((word, more)) => with_more(word, more),
    }
}
