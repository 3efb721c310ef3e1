//! What a stage comes to.
ghost use Rattle.std.specs.Prelude.{◌≡◌};
ghost use Rattle.fk_plans.specs.Plans.Movings.{verdict_of};

use crate::plans::blocks::Block;
use crate::plans::recording::Record;
use crate::plans::sources::Source;
use fk_changes::threads::{Answers, Four};
use fk_model::{Fault, Peer, Ptr, Talk, Turn, Who};

/// One change, which takes no memory.
#[derive(Clone, Copy)]
pub enum Deed {
    /// A mutex is locked, or unlocked.
    Locks { mutex: Who, locked: bool },
    /// The pointer of a mapping, a region or a reference leads elsewhere.
    Points { object: Who, to: Ptr },
    /// A thread that sleeps on a condition wakes up, and locks this mutex next.
    Wakes { thread: Who, mutex: u64 },
    /// A thread that is about to wait on a condition falls asleep; a signal makes it lock the mutex.
    Sleeps { thread: Who, cond: u64, mutex: u64 },
    /// Words of a page go to a page that is there.
    Sends(Block),
    /// The record of an object goes to a page that is there, from a word on.
    Records { object: Who, to: (u32, u8), at: u8 },
    /// The talk of a client has moved so many words more.
    Counts { client: Who, count: u8 },
    /// The first stage of a thread's call has moved so many words.
    Shifts { thread: Who, count: u8 },
    /// The whole call of a thread ends with a status.
    Ends { thread: Who, status: u8 },
    /// The first stage of a thread's call is done. It answers whether a pointer came, where it awaited
    /// one.
    Finishes { thread: Who, came: Option<bool> },
    /// It is the turn of a side of a client's talk.
    Passes { client: Who, turn: Turn },
    /// A client's talk ends.
    Unlinks { client: Who },
    /// A thread is the client of a new talk.
    Links { client: Who, talk: Talk },
    /// A client's talk has this peer.
    Serves { client: Who, peer: Peer },
    /// The fault of a thread ends.
    Frees { thread: Who },
    /// A thread has this fault.
    Raises { thread: Who, fault: Fault },
    /// The fault of a thread has this taker.
    Takes { thread: Who, taker: Peer },
    /// A space is held by a thread, or by nobody.
    Holds { space: Who, holder: Option<Who> },
    /// A thread is stopped so many times.
    Stops { thread: Who, stops: u16 },
    /// The words of a page become those of another that is there, or of the same.
    Copies { from: (u32, u8), to: (u32, u8) },
    /// A space loses a page.
    Drops { space: u32, page: u8 },
}

/// What a stage does, its caller's own part left out: deeds in this order, or alone what wants
/// memory, or is as many changes as the world asks for.
#[derive(Clone, Copy)]
pub enum Plan {
    Nothing,
    One(Deed),
    Two(Deed, Deed),
    /// Words of a page go to a page of a thread that receives them: the talk of a client has moved so
    /// many words more, and so have the first stages of the receiver and of the sender.
    Moves {
        block: Block,
        client: Who,
        receiver: Who,
        sender: Who,
    },
    /// A reference takes a pointer, the receive of the thread that awaited it is done, and it is the
    /// turn of this side of a client's talk.
    HandsOver {
        reference: Who,
        to: Ptr,
        receiver: Who,
        client: Who,
        turn: Turn,
    },
    /// A new object of the kind with this number.
    Makes {
        object: Who,
        kind: u64,
    },
    /// A new space that a thread holds.
    MakesHeld {
        object: Who,
        holder: Who,
    },
    /// A page with these words, where there is none.
    Gives {
        space: u32,
        page: u8,
        source: Source,
    },
}

/// Words of one page that go to a page of a thread that receives them, on the first stage of the
/// sender's call.
#[derive(Clone, Copy)]
pub struct Moving {
    pub block: Block,
    pub client: Who,
    pub receiver: Who,
    pub sender: Who,
    /// They are the last, so the stage is done then.
    pub last: bool,
}

impl Moving {
    /// As a verdict on the sender's stage.
    pub fn verdict(self) -> Verdict
        ensures { result ≡ verdict_of self }
    {
        let plan = Plan::Moves {
            block: self.block,
            client: self.client,
            receiver: self.receiver,
            sender: self.sender,
        };
        if self.last {
            Verdict::Done(plan, Answers::Nothing)
        } else {
            Verdict::Goes(plan)
        }
    }
}

/// So many words of a page, from a place on, that come to a port.
#[derive(Clone, Copy)]
pub struct Words {
    pub port: Who,
    pub space: u32,
    pub page: u8,
    pub at: u8,
    pub count: u8,
}

/// What a native server is told.
#[derive(Clone, Copy)]
pub enum News {
    /// Words come to its port.
    Words(Words),
    /// The turn of the talk at its port is passed to it.
    Passed { port: Who },
    /// The talk at its port has ended.
    Ended { port: Who },
}

/// What an instruction of a running thread comes to.
#[derive(Clone, Copy)]
pub enum Effect {
    /// A register gets a value, and the next instruction follows.
    Puts {
        register: u8,
        value: u64,
    },
    /// The instruction at this counter follows.
    Jumps {
        counter: u64,
    },
    /// The thread halts where it stands.
    Halts {
        code: u8,
    },
    /// The thread enters the call that its registers name.
    Enters,
    /// A word of a page gets a value, and the next instruction follows.
    Stores {
        space: u32,
        page: u8,
        at: u8,
        value: u64,
    },
}

/// What a stage comes to.
#[derive(Clone, Copy)]
pub enum Verdict {
    /// It is the instruction of a running thread.
    Runs(Effect),
    /// It is refused at once, with this status.
    Refused(u8),
    /// It isn't ready.
    Waits,
    /// It does this, and then the caller's stage is done, with these answers.
    Done(Plan, Answers),
    /// It does this, and then the caller's whole call ends well, with these answers.
    Ends(Plan, Four),
    /// It does this, and then the stage of a porter is done, which gets the words of a page.
    Shows { plan: Plan, space: u32, page: u8 },
    /// The stage of a porter is done, which gets the record of an object.
    ShowsRecord { object: Who },
    /// An object that isn't frozen for the caller becomes what a record says, if it takes the record,
    /// and then the caller's stage is done.
    Sets { object: Who, from: Record },
    /// An object gets another slot, and then the caller's stage is done; that of a thread that renames
    /// itself in its new slot.
    Renames { object: Who, slot: u8 },
    /// An object in which nothing stands is destroyed, with all that ends with it, and a native server
    /// that loses its client or its port is told. `last` says that the caller's stage is done then.
    Destroys { object: Who, last: bool },
    /// Each thread of a user's space that sleeps on a condition wakes up, and then the user's stage is
    /// done.
    WakesAll { cond: u64 },
    /// It does this, and the caller stays at its stage.
    Goes(Plan),
    /// It does this, and a native server is told something. `last` says that the stage of a user is
    /// done then.
    Tells { plan: Plan, news: News, last: bool },
    /// The caller's own access misses a page, and the port of its keeper is told.
    Faults { page: u8, write: bool, port: Who },
}
