//! Which threads serve whom.
ghost use Rattle.std.specs.Prelude.{◌≡◌};
ghost use Rattle.fk_model.specs.Objects.{holds};
ghost use Rattle.fk_store_graph.specs.Leads.Parts as parts;

use crate::hints::Sort;
use fk_model::{Body, Peer, Thread, Who};

/// A part that a thread plays for another thread, or at a port.
#[derive(Clone, Copy)]
pub enum Part {
    /// It is the client of this thread.
    Client(Who),
    /// This thread has taken its fault.
    Faulter(Who),
    /// It is the client of this port's native server.
    Guest(Who),
}

impl Part {
    /// For whom or where it is played.
    pub fn whose(self) -> Who
        ensures { result ≡ parts.whose self }
    {
        match self {
            Part::Client(who) | Part::Faulter(who) | Part::Guest(who) => who,
        }
    }

    /// As what those who play it lead there.
    pub fn sort(self) -> Sort
        ensures { result ≡ parts.sort_of self }
    {
        match self {
            Part::Client(_) | Part::Guest(_) => Sort::Served,
            Part::Faulter(_) => Sort::Taken,
        }
    }

    /// This object plays the part.
    pub fn is_played_by(self, body: &Body) -> bool
        ensures { result ≡ parts.plays self body.now }
    {
        match body {
            Body::Thread(thread) => self.is_of_thread(thread),
            Body::Mutex { .. }
            | Body::Cond
            | Body::Mapping { .. }
            | Body::Region { .. }
            | Body::Port { .. }
            | Body::Portset
            | Body::Space { .. }
            | Body::Reference { .. } => false,
        }
    }

    fn is_of_thread(self, thread: &Thread) -> bool
        ensures { result ≡ parts.thread_plays self thread.now }
    {
        match self {
            Part::Client(server) => match thread.talk {
                None => false,
                Some(talk) => is_thread(server, talk.peer),
            },
            Part::Faulter(taker) => match thread.fault {
                None => false,
                Some(fault) => is_taker(taker, fault.taker),
            },
            Part::Guest(port) => match thread.talk {
                None => false,
                Some(talk) => talk.port == port && matches!(talk.peer, Peer::Service),
            },
        }
    }
}

fn is_thread(who: Who, peer: Peer) -> bool
    ensures { result ≡ parts.is_thread who peer }
{
    match peer {
        Peer::Thread(other) => other == who,
        Peer::Service | Peer::Parked => false,
    }
}

fn is_taker(who: Who, taker: Option<Peer>) -> bool
    ensures { result ≡ holds (parts.is_thread who) taker }
{
    match taker {
        None => false,
        Some(peer) => is_thread(who, peer),
    }
}
