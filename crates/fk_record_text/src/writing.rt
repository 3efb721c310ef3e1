//! Writing a record.
ghost use Rattle.std.specs.Prelude.{◌≡◌, ◌++◌, OnOk, string_bytes, codes, decimal};
ghost use Rattle.std.specs.List.{flat_map};
ghost use Rattle.fk_responders.specs.Notes.{note_of};
ghost use Rattle.fk_record_text.specs.Record as spelling;

use fk_decimal::push_number;
use fk_model::Turn;
use fk_responders::{Note, words_of};
use std::alloc::AllocError;

/// Appends words, each after a space.
fn push_words(text: &mut String, words: &[u64]) -> Result<(), AllocError>
    ensures { OnOk result (string_bytes text.new ≡ string_bytes text.old ++ spelling.words_text words.now) }
{
    for word in words {
        text.push_str(" ")?;
        push_number(text, *word)?;
    }
    Ok(())
}

/// Appends a turn.
fn push_turn(text: &mut String, turn: Turn) -> Result<(), AllocError>
    ensures { OnOk result (string_bytes text.new ≡ string_bytes text.old ++ spelling.turn_text turn) }
{
    match turn {
        Turn::Client => text.push_str("client"),
        Turn::Server => text.push_str("server"),
    }
}

/// Appends a note.
fn push_note(text: &mut String, note: &Note) -> Result<(), AllocError>
    ensures { OnOk result (string_bytes text.new ≡ string_bytes text.old ++ spelling.note_text (note_of note.now)) }
{
    match note {
        Note::Taken { turn, moved } => {
            text.push_str("taken ")?;
            push_turn(text, *turn)?;
            text.push_str(" ")?;
            push_number(text, u64::from(*moved))
        }
        Note::Said(reply) => {
            text.push_str("said")?;
            push_words(text, words_of(reply))
        }
        Note::Over => text.push_str("over"),
        Note::Reply(reply) => {
            text.push_str("reply")?;
            push_words(text, words_of(reply))
        }
        Note::Ended => text.push_str("ended"),
    }
}

/// Appends the line of a note at the port with this path.
fn push_line(text: &mut String, port: &str, note: &Note) -> Result<(), AllocError>
    ensures { OnOk result (string_bytes text.new ≡ string_bytes text.old
        ++ spelling.ended_line (port.now ++ (codes " " ++ spelling.note_text (note_of note.now)))) }
{
    text.push_str(port)?;
    text.push_str(" ")?;
    push_note(text, note)?;
    text.push_str("\n")
}

/// Appends the lines of notes at the port with this path.
///
/// # Errors
///
/// There is no memory for the lines.
pub fn push_lines(text: &mut String, port: &str, notes: &[Note]) -> Result<(), AllocError>
    ensures { OnOk result (string_bytes text.new ≡ string_bytes text.old
        ++ flat_map (λ note. spelling.ended_line (port.now ++ (codes " " ++ spelling.note_text (note_of note)))) notes.now) }
{
    for note in notes {
        push_line(text, port, note)?;
    }
    Ok(())
}
