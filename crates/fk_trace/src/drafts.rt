//! Notes that are written anew where they stand.
ghost use Rattle.std.specs.Prelude.{◌≡◌, ◌≤◌, length};
ghost use Rattle.fk_model.specs.Answers.{reply_words};
ghost use Rattle.fk_responders.specs.Notes as facts;
ghost use Rattle.fk_responders.specs.Notes.{note_of};

use fk_model::{Reply, Turn};
use fk_responders::{Note, append, reply_of};

/// A note of each kind that holds something, to be written anew before its observer is asked. A note has room for 64 words, which is cleared and copied
/// wherever a new one is made.
#[derive(Clone, Copy)]
pub struct Drafts {
    pub taken: Note,
    pub said: Note,
    pub reply: Note,
}

impl Drafts {
    /// Any notes of these kinds.
    pub fn new() -> Drafts {
        Drafts {
            taken: Note::Taken {
                turn: Turn::Client,
                moved: 0,
            },
            said: Note::Said(reply_of(&[])),
            reply: Note::Reply(reply_of(&[])),
        }
    }
}

/// Other words in the place of a reply's. What stands behind them is none of its words.
fn put_words(reply: &mut Reply, words: &[u64])
    requires few { length words.now ≤ 64 }
    ensures { reply_words reply.new ≡ words.now }
{
    reply.len = 0;
    append(reply, words);
}

// What makes a new note stands apart, since it takes much room.

#[inline(never)]
fn taken_anew(note: &mut Note, turn: Turn, moved: u16)
    ensures { note_of note.new ≡ facts.Taken turn moved }
{
    *note = Note::Taken { turn, moved };
}

#[inline(never)]
#[tactic(auto, using(crate::proofs::Notes::padded_words))]
fn said_anew(note: &mut Note, words: &[u64])
    requires few { length words.now ≤ 64 }
    ensures { note_of note.new ≡ facts.Said words.now }
{
    *note = Note::Said(reply_of(words));
}

#[inline(never)]
#[tactic(auto, using(crate::proofs::Notes::padded_words))]
fn reply_anew(note: &mut Note, words: &[u64])
    requires few { length words.now ≤ 64 }
    ensures { note_of note.new ≡ facts.Reply words.now }
{
    *note = Note::Reply(reply_of(words));
}

/// Writes the note of a talk that is taken up, in place where the last one was such.
pub fn write_taken(note: &mut Note, turn: Turn, moved: u16)
    ensures { note_of note.new ≡ facts.Taken turn moved }
{
    if let Note::Taken {
        turn: old_turn,
        moved: old_moved,
    } = note
    {
        *old_turn = turn;
        *old_moved = moved;
    } else {
        taken_anew(note, turn, moved);
    }
}

/// Writes the note of words that the client has sent, in place where the last one was such.
pub fn write_said(note: &mut Note, words: &[u64])
    requires few { length words.now ≤ 64 }
    ensures { note_of note.new ≡ facts.Said words.now }
{
    if let Note::Said(reply) = note {
        put_words(reply, words);
    } else {
        said_anew(note, words);
    }
}

/// Writes the note of a reply of these words, in place where the last one was such.
pub fn write_reply(note: &mut Note, words: &[u64])
    requires few { length words.now ≤ 64 }
    ensures { note_of note.new ≡ facts.Reply words.now }
{
    if let Note::Reply(reply) = note {
        put_words(reply, words);
    } else {
        reply_anew(note, words);
    }
}
