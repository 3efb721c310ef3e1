//! What an act comes to.
use fk_model::{Turn, Who};

/// What an act of a port's native server comes to.
#[derive(Clone, Copy)]
pub enum Act {
    /// A client at its connect has a talk with it.
    Takes {
        client: Who,
    },
    /// It takes up the talk of a client that waits at the port, in this turn, in which so many words
    /// were moved.
    Resumes {
        client: Who,
        turn: Turn,
        moved: u16,
    },
    /// Nothing was to be given.
    GivesNothing,
    /// So many words go to a page of the client's memory, from a word on.
    Gives {
        client: Who,
        to: (u32, u8),
        into: u8,
        count: u8,
    },
    /// The client has no room left, so its call ends.
    Fills {
        client: Who,
    },
    /// The client has the turn. It answers whether a pointer came, where it awaited one.
    Passes {
        client: Who,
        came: Option<bool>,
    },
}
