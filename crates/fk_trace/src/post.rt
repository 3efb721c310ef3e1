//! A native server of a run that is recorded or replayed, as one type.
ghost use Rattle.std.specs.Prelude.{◌≡◌, true, OnOk};
ghost use Rattle.fk_trace.specs.Posts.{meaning, has_room};

use crate::replay::Replay;
use crate::tap::Tap;
use fk_model::NoMemory;
use fk_natives::{Heard, Native, Service, Side};
use fk_responders::Table;

/// A server as it is, a tap of one, or a replay.
#[derive(Drop)]
pub enum Post {
    Plain(Native),
    Tap(Tap<Native>),
    Replay(Replay),
}

impl Service for Post {
    ghost use Rattle.fk_trace.specs.Posts as posts;

    ghost meaning = { λ p. posts.meaning p };

    ghost has_room = { λ p. posts.has_room p };

    fn side(&self) -> Side {
        match self {
            Post::Plain(server) => server.side(),
            Post::Tap(tap) => tap.side(),
            Post::Replay(replay) => replay.side(),
        }
    }

    fn left(&self) -> &[u64] {
        match self {
            Post::Plain(server) => server.left(),
            Post::Tap(tap) => tap.left(),
            Post::Replay(replay) => replay.left(),
        }
    }

    fn reserve(&mut self) -> Result<(), NoMemory> {
        match self {
            Post::Plain(server) => server.reserve(),
            Post::Tap(tap) => tap.reserve(),
            Post::Replay(replay) => replay.reserve(),
        }
    }

    fn grows(&self, heard: Heard<'_>) -> bool {
        match self {
            Post::Plain(server) => server.grows(heard),
            Post::Tap(tap) => tap.grows(heard),
            Post::Replay(replay) => replay.grows(heard),
        }
    }

    fn absorb(&mut self, table: &Table, heard: Heard<'_>) {
        match self {
            Post::Plain(server) => server.absorb(table, heard),
            Post::Tap(tap) => tap.absorb(table, heard),
            Post::Replay(replay) => replay.absorb(table, heard),
        }
    }

    fn alias(&self) -> Option<&str> {
        match self {
            Post::Plain(server) => server.alias(),
            Post::Tap(tap) => tap.alias(),
            Post::Replay(replay) => replay.alias(),
        }
    }

    fn printed(&self) -> &[u64] {
        match self {
            Post::Plain(server) => server.printed(),
            Post::Tap(tap) => tap.printed(),
            Post::Replay(replay) => replay.printed(),
        }
    }
}
