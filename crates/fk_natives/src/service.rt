//! What native servers have in common.
ghost use Rattle.std.specs.Prelude.{◌≡◌, ◌≤◌, Bool, length, map, true, Option, option_map, OnOk};
ghost use Rattle.fk_natives.specs.Natives.{State, grows, hears, news_of, AreFew, DoesFit, side_of, left_of, alias_of, printed_by, side_at, side_after};

use fk_model::{NoMemory, Turn, Who};
use fk_responders::Table;

/// Whose turn it is, if a server has a client.
#[derive(Clone, Copy)]
pub enum Side {
    /// It has no client.
    Idle,
    /// It is the client's turn.
    Client,
    /// It is the server's own turn.
    Own,
}

/// What a native server is told. Words are lent from where they stand.
#[derive(Clone, Copy)]
pub enum Heard<'a> {
    /// It has a client, which has this turn, and the words moved in it.
    Taken { client: Who, turn: Turn, moved: u16 },
    /// The client has sent these words, at most 64.
    Words(&'a [u64]),
    /// The turn has changed.
    Over,
    /// The client has taken so many words.
    Given(u8),
    /// The talk has ended.
    Ended,
}

/// A native server. What it asks for is known by whose turn it is and by what is left of its reply: both are small, where what it asks for has room for 64
/// words.
pub trait Service {
    ghost meaning: { Self → State };

    ghost has_room: { Self → Bool };

    /// Whose turn it is, if it has a client.
    fn side(&self) -> Side
        ensures { result ≡ side_of (meaning self.now) };

    /// What is left of its reply, at most 64 words.
    fn left(&self) -> &[u64]
        ensures left { result.now ≡ left_of (meaning self.now) }
        ensures few { length result.now ≤ 64 };

    /// Makes room for one thing that it is told, and changes nothing else.
    fn reserve(&mut self) -> Result<(), NoMemory>
        ensures same { meaning self.new ≡ meaning self.old }
        ensures room { OnOk result (has_room self.new ≡ true) };

    /// Whether it grows by something that it is told.
    fn grows(&self, heard: Heard<'_>) -> bool
        ensures { result ≡ grows (meaning self.now) (news_of heard.entry) };

    /// Is told something. Where it grows by that, that uses up its room. The table has its responder and its observer.
    fn absorb(&mut self, table: &Table, heard: Heard<'_>)
        requires fits { DoesFit (map (λ r. r.rule) table.now.list.items) (meaning self.old) }
        requires few { AreFew (news_of heard) }
        requires room { grows (meaning self.old) (news_of heard) ≡ true → has_room self.old ≡ true }
        ensures { meaning self.new ≡ hears (meaning self.old) (news_of heard.entry) };

    /// A console's alias. Others have none.
    fn alias(&self) -> Option<&str>
        ensures { option_map (λ alias. alias.now) result ≡ alias_of (meaning self.now) };

    /// The words that a console has been sent. Others have none.
    fn printed(&self) -> &[u64]
        ensures { result.now ≡ printed_by (meaning self.now) };
}

/// Whose turn it is in a talk that is taken up.
pub fn side_at(turn: Turn) -> Side
    ensures { result ≡ side_at turn }
{
    match turn {
        Turn::Client => Side::Client,
        Turn::Server => Side::Own,
    }
}

/// Whose turn it is after an Over.
pub fn side_after(side: Side) -> Side
    ensures { result ≡ side_after side }
{
    match side {
        Side::Client => Side::Own,
        _ => Side::Client,
    }
}
