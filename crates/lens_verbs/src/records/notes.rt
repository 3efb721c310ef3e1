//! What a move makes a native server note, by what stood before it and what stands after it.
use fk_model::{Reply, Thread, Who};
use fk_natives::Side;
use fk_responders::{Note, append};
use fk_store::Store;
use lens_text::word_at;

/// That the server of a port has a client now: whose turn it is, and how many words have moved in that.
fn taken(store: &Store, port: Who) -> Option<Note> {
    if let Some(client) = store.client_at(port) {
        if let Some(
            Thread {
                talk: Some(talk),
                ..
            },
        ) = store.thread(client)
        {
            return Some(Note::Taken {
                turn: talk.turn,
                moved: talk.moved,
            });
        }
    }
    None
}

/// What the server of a port notes where it stands on another side of a talk than before: a client that it takes, one that hands over, the end of the
/// talk. That it hands over itself it doesn't note.
pub fn turned(store: &Store, port: Who, was: Side, is: Side) -> Option<Note> {
    match was {
        Side::Idle => match is {
            Side::Idle => None,
            _ => taken(store, port),
        },
        Side::Client => match is {
            Side::Idle => Some(Note::Ended),
            Side::Client => None,
            Side::Own => Some(Note::Over),
        },
        Side::Own => match is {
            Side::Idle => Some(Note::Ended),
            _ => None,
        },
    }
}

/// The words that a thread has sent by a move, which was at this before; none where it has sent none.
pub fn said(store: &Store, who: Who, before: &Thread) -> Option<Note> {
    let left = match store.thread(who) {
        Some(thread) => thread.regs[3],
        None => return None,
    };
    let count = before.regs[3].saturating_sub(left);
    if count == 0 {
        return None;
    }
    let mut words = Reply {
        words: [0; 64],
        len: 0,
    };
    for place in 0..count.min(64) {
        let address = before.regs[2].saturating_add(place);
        let Some(word) = word_at(store, who.space, address) else {
            return None;
        };
        append(&mut words, &[word]);
    }
    Some(Note::Said(words))
}
