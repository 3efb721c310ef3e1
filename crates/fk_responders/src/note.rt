//! Notes of what passes between a client and its native server.
use fk_model::{Reply, Turn};

/// One thing that passes between a client and its native server.
#[derive(Clone, Copy)]
pub enum Note {
    /// The server takes a client, in whose talk it is this turn and so many words have moved.
    Taken { turn: Turn, moved: u16 },
    /// The client has sent these words.
    Said(Reply),
    /// The client has handed the turn over.
    Over,
    /// The server has computed this reply.
    Reply(Reply),
    /// The talk has ended.
    Ended,
}

/// Which notes an observer sees.
#[derive(Clone, Copy, PartialEq, Eq)]
pub enum Watch {
    /// Every note.
    All,
    /// The replies alone.
    Replies,
    /// The words of clients alone.
    Said,
}
