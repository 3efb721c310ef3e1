//! The record of a run, from its taps.
ghost use Rattle.std.specs.Prelude.{◌≡◌, ◌++◌, true, All, IfOk, IfSome, OnOk, map, string_bytes};
ghost use Rattle.fk_model.specs.Answers.{reply_words};
ghost use Rattle.fk_model.specs.Whole.{are_words};
ghost use Rattle.fk_record_text.specs.Record.{IsNote, AreWords, port_text};
ghost use Rattle.fk_runs.specs.Recordings.Written as definitions;
ghost use Rattle.fk_responders.specs.Notes.{note_of};
ghost use Rattle.fk_trace.specs.Posts.{meaning, seen};
ghost use Rattle.fk_trace.specs.Taps.{noted};

use fk_model::{NoMemory, Reply, Text, Who};
use fk_record_text::push_lines;
use fk_responders::{Note, words_of};
use fk_trace::Post;
use std::alloc::Global;

/// The path of the port at a place.
fn port_at(ports: &[Text], place: usize) -> &str
    ensures { result.now ≡ port_text ports.now place }
{
    match ports.get(place) {
        Some(port) => port.as_str(),
        None => "",
    }
}

/// Words are as small as their type says once they are read.
fn read_words(words: &[u64])
    ensures { are_words words.now ≡ true }
{
    for word in words {
        let _word = *word;
    }
}

/// The words of a reply are few, and as small as their type.
#[tactic(auto, using(crate::proofs::InRecordings::Small::reply_small))]
fn read_reply(reply: &Reply)
    ensures { AreWords (reply_words reply.now) }
{
    read_words(words_of(reply));
}

/// A note is as small as its types.
fn read_note(note: &Note)
    ensures { IsNote (note_of note.now) }
{
    match note {
        Note::Taken { moved, .. } => {
            let _moved = *moved;
        }
        Note::Said(reply) => read_reply(reply),
        Note::Over => {}
        Note::Reply(reply) => read_reply(reply),
        Note::Ended => {}
    }
}

/// Notes are as small as their types.
fn read_notes(notes: &[Note])
    ensures { All IsNote (noted notes.now) }
{
    for note in notes {
        read_note(note);
    }
}

/// Appends the lines of a tap, whose port is that at a place.
fn push_post(text: &mut String, ports: &[Text], place: usize, post: &Post) -> Result<(), NoMemory>
    ensures lines { OnOk result (string_bytes text.new ≡ string_bytes text.old ++ definitions.lines_of ports.now place (meaning post.now)) }
    ensures small { definitions.IsSmallTap (meaning post.now) }
{
    match post {
        Post::Tap(tap) => {
            let notes = tap.notes();
            read_notes(notes);
            Ok(push_lines(text, port_at(ports, place), notes)?)
        }
        Post::Plain(_) => Ok(()),
        Post::Replay(_) => Ok(()),
    }
}

/// The place of the next tap.
fn place_behind(place: usize, post: &Post) -> Option<usize>
    ensures { IfSome result (λ next. next ≡ definitions.place_behind place (meaning post.now)) }
{
    match post {
        Post::Tap(_) => place.checked_add(1),
        Post::Plain(_) => Some(place),
        Post::Replay(_) => Some(place),
    }
}

/// The record of what the taps of a run have noted, each with the path of its port.
///
/// # Errors
///
/// There is no memory for the text.
pub fn record_text(
    alloc: Global,
    ports: &[Text],
    services: &[(Who, Post)],
) -> Result<String, NoMemory>
    ensures text { IfOk result (λ text. string_bytes text ≡ definitions.written_of ports.now (seen services.now)) }
    ensures small { OnOk result (definitions.AreSmallTaps (seen services.now)) }
{
    let mut text = String::from_str(alloc, "fluke-record 1\n")?;
    let mut place = 0usize;
    for service in services {
        push_post(&mut text, ports, place, &service.1)?;
        let Some(next) = place_behind(place, &service.1) else {
            return Err(NoMemory);
        };
        place = next;
    }
    Ok(text)
}
