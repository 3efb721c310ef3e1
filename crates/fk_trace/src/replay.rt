//! Replays.
ghost use Rattle.std.specs.Prelude.{◌≡◌, [], map, IsOk};
ghost use Rattle.fk_model.specs.Answers.{reply_words};
ghost use Rattle.fk_natives.specs.Natives.{replays, OfReplay};
ghost use Rattle.fk_natives.specs.declared.service.Side.TheVariants as sides;
ghost use Rattle.fk_trace.specs.Taps.{replay_of, to_come};

use fk_model::{NoMemory, Reply, Turn};
use fk_natives::{Heard, Service, Side};
use fk_responders::{Table, take_off, words_of};

/// Gives the replies of a list in order, and empty ones behind its end.
#[derive(Drop)]
pub struct Replay {
    pub replies: Vec<Reply>,
    /// The place of the next reply in the list.
    pub next: usize,
    /// What is left of the reply that it gives.
    pub left: Reply,
    pub side: Side,
}

const EMPTY: Reply = Reply {
    words: [0; 64],
    len: 0,
};

impl Replay {
    /// A replay of these replies.
    pub fn new(replies: Vec<Reply>) -> Replay
        ensures { replay_of result ≡ OfReplay (map reply_words replies.items) [] sides.Idle }
    {
        Replay {
            replies,
            next: 0,
            left: EMPTY,
            side: Side::Idle,
        }
    }

    /// It takes its next reply.
    #[tactic(auto, using(crate::proofs::Replies::next_there, crate::proofs::Replies::none_there))]
    fn reply(&mut self)
        ensures { replay_of self.new ≡ replays (to_come self.old.replies.items self.old.next) }
    {
        self.left.len = 0;
        if let Some(reply) = self.replies.get(self.next) {
            self.left = *reply;
            self.next += 1;
        }
        self.side = Side::Own;
    }

    /// Nothing is left of its reply, and it stands on this side of its talk.
    fn rest(&mut self, side: Side)
        ensures { replay_of self.new ≡ OfReplay (to_come self.old.replies.items self.old.next) [] side }
    {
        self.left.len = 0;
        self.side = side;
    }
}

impl Service for Replay {
    ghost use Rattle.std.specs.Prelude as std_words;
    ghost use Rattle.fk_trace.specs.Taps as taps;

    ghost meaning = { λ r. taps.replay_of r };

    ghost has_room = { λ r. std_words.true };

    fn side(&self) -> Side {
        self.side
    }

    fn left(&self) -> &[u64] {
        words_of(&self.left)
    }

    fn reserve(&mut self) -> Result<(), NoMemory>
        ensures same { replay_of self.new ≡ replay_of self.old }
        ensures done { IsOk result }
    {
        Ok(())
    }

    fn grows(&self, _heard: Heard<'_>) -> bool {
        false
    }

    fn absorb(&mut self, _table: &Table, heard: Heard<'_>) {
        match heard {
            Heard::Taken {
                turn: Turn::Client,
                ..
            } => self.rest(Side::Client),
            Heard::Taken {
                turn: Turn::Server,
                ..
            } => self.reply(),
            Heard::Words(_) => {}
            Heard::Over => match self.side {
                Side::Client => self.reply(),
                _ => self.rest(Side::Client),
            },
            Heard::Given(count) => take_off(&mut self.left, usize::from(count)),
            Heard::Ended => self.rest(Side::Idle),
        }
    }

    fn alias(&self) -> Option<&str> {
        None
    }

    fn printed(&self) -> &[u64] {
        &[]
    }
}
