//! Moves, what they ask for, and what they tell.
use crate::{Stage, Turn, Who};

/// A move: the thread that moves, or the port of the native server that acts, and the thread that
/// it picks where it has to choose one.
#[derive(Clone, Copy, PartialEq, Eq)]
pub struct Move {
    pub who: Who,
    pub pick: Option<Who>,
}

/// What a move asks for.
#[derive(Clone, Copy)]
pub enum Ask {
    /// A user thread goes on: one instruction, or one stage of its call.
    Run,
    /// A porter makes one stage of a call. `words` are what a user would have at the address.
    Call { stage: Stage, words: [u64; 64] },
    /// A native server accepts a client, or takes up a parked one.
    Accept,
    /// A native server gives the first `len` words.
    Give { words: [u64; 64], len: u8 },
    /// A native server hands the turn to its client.
    Over,
}

/// What a porter's stage answers: the status, and the first `len` words.
#[derive(Clone, Copy)]
pub struct Answer {
    pub status: u8,
    pub words: [u64; 64],
    pub len: u8,
}

/// What a native server, or a job, is told of a move.
#[derive(Clone, Copy)]
pub enum Said {
    Nothing,
    Answer(Answer),
    /// The server of this port has a client; `resumed` where its talk was parked.
    Taken {
        port: Who,
        client: Who,
        resumed: bool,
        turn: Turn,
        moved: u16,
    },
    /// The client has sent the first `len` words.
    Words {
        port: Who,
        words: [u64; 64],
        len: u8,
    },
    /// The client has taken so many words.
    Given {
        port: Who,
        len: u8,
    },
    /// The client had no room left.
    Full {
        port: Who,
    },
    /// The turn has changed.
    Over {
        port: Who,
    },
    /// The talk has ended.
    Ended {
        port: Who,
    },
}

/// The rules of native servers that reply.
#[derive(Clone, Copy, PartialEq, Eq)]
pub enum Rule {
    Echo,
    Feed,
    Sum,
}

/// A reply: the first `len` words, at most 64.
#[derive(Clone, Copy)]
pub struct Reply {
    pub words: [u64; 64],
    pub len: u8,
}
