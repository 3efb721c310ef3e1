//! Servers that reply by a rule.
ghost use Rattle.std.specs.Prelude.{◌≡◌, map, [], IsOk};
ghost use Rattle.fk_model.specs.Answers.{reply_words};
ghost use Rattle.fk_natives.specs.Natives.{meaning_of, DoesFit, replies};
ghost use Rattle.fk_natives.specs.Natives.State.{OfServer};

use crate::service::{Heard, Service, Side};
use fk_model::{List, NoMemory, Reply, Rule, Turn};
use fk_responders::{Table, append, take_off, words_of};

/// A server that replies by a rule.
#[derive(Drop)]
pub struct Server {
    /// Its responder's place in the table.
    pub index: u32,
    pub rule: Rule,
    pub config: List<u64>,
    /// How many replies it has computed.
    pub position: u64,
    /// The request so far.
    pub request: Reply,
    /// What is left of the reply.
    pub left: Reply,
    pub side: Side,
}

impl Server {
    /// It computes its reply to the request, and leaves out what was moved.
    fn reply(&mut self, table: &Table, moved: usize)
        requires { DoesFit (map (λ r. r.rule) table.now.list.items) (meaning_of self.old) }
        ensures { meaning_of self.new ≡ replies self.old.index self.old.rule self.old.config self.old.position (reply_words self.old.request) moved }
    {
        self.left = table.answer(
            self.index,
            self.rule,
            self.config.as_slice(),
            self.position,
            words_of(&self.request),
        );
        take_off(&mut self.left, moved);
        self.position = self.position.saturating_add(1);
        self.request.len = 0;
        self.side = Side::Own;
    }

    /// It has neither a request nor a reply.
    fn rest(&mut self, side: Side)
        ensures { meaning_of self.new ≡ OfServer self.old.index self.old.rule self.old.config self.old.position [] [] side }
    {
        self.request.len = 0;
        self.left.len = 0;
        self.side = side;
    }
}

impl Service for Server {
    ghost use Rattle.std.specs.Prelude as std_words;
    ghost use Rattle.fk_natives.specs.Natives as natives;

    ghost meaning = { λ s. natives.meaning_of s };

    ghost has_room = { λ s. std_words.true };

    fn side(&self) -> Side {
        self.side
    }

    fn left(&self) -> &[u64] {
        words_of(&self.left)
    }

    fn reserve(&mut self) -> Result<(), NoMemory>
        ensures same { meaning_of self.new ≡ meaning_of self.old }
        ensures done { IsOk result }
    {
        Ok(())
    }

    fn grows(&self, _heard: Heard<'_>) -> bool {
        false
    }

    fn absorb(&mut self, table: &Table, heard: Heard<'_>) {
        match heard {
            Heard::Taken {
                turn: Turn::Client,
                ..
            } => self.rest(Side::Client),
            Heard::Taken {
                turn: Turn::Server,
                moved,
                ..
            } => {
                self.request.len = 0;
                self.reply(table, usize::from(moved));
            }
            Heard::Words(words) => append(&mut self.request, words),
            Heard::Over => match self.side {
                Side::Client => self.reply(table, 0),
                _ => self.rest(Side::Client),
            },
            Heard::Given(count) => take_off(&mut self.left, usize::from(count)),
            Heard::Ended => self.rest(Side::Idle),
        }
    }

    fn alias(&self) -> Option<&str> {
        None
    }

    fn printed(&self) -> &[u64] {
        &[]
    }
}
