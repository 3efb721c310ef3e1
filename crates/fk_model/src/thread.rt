//! Threads, their talks and their faults.
use crate::Who;

/// What a thread is at.
#[derive(Clone, Copy, PartialEq, Eq)]
pub enum Mode {
    /// It executes the word at its counter.
    Running,
    /// It is in the call that its registers name.
    Calling,
    /// It has halted with a code.
    Halted(u8),
    /// A porter: it makes the calls of its nester's jobs.
    Native,
}

/// Whose turn a talk is at.
#[derive(Clone, Copy, PartialEq, Eq)]
pub enum Turn {
    Client,
    Server,
}

/// Who serves a talk, or has taken a fault.
#[derive(Clone, Copy, PartialEq, Eq)]
pub enum Peer {
    Thread(Who),
    /// The native server of the port.
    Service,
    /// Nobody yet: a restored talk or fault waits at its port to be taken up.
    Parked,
}

/// A talk, as its client keeps it.
#[derive(Clone, Copy)]
pub struct Talk {
    pub port: Who,
    pub peer: Peer,
    pub turn: Turn,
    /// The words moved in this turn, counted up to 65535 and no further.
    pub moved: u16,
}

/// A fault of a thread on a missing page.
#[derive(Clone, Copy)]
pub struct Fault {
    pub page: u8,
    /// It was missed by a write.
    pub write: bool,
    /// The port of the page's keeper.
    pub port: Who,
    /// Who has taken it; nobody while it is raised.
    pub taker: Option<Peer>,
}

/// A thread.
#[derive(Clone, Copy)]
pub struct Thread {
    pub regs: [u64; 16],
    pub pc: u64,
    pub mode: Mode,
    /// How often it is stopped, from 0 to 65535. It moves only at 0.
    pub stops: u16,
    /// Its talk as a client.
    pub talk: Option<Talk>,
    pub fault: Option<Fault>,
}
