//! What becomes of all bodies where an object is destroyed or gets another name.
ghost use Rattle.std.specs.Prelude.{◌≡◌};
ghost use Rattle.fk_model.specs.Objects.{and_then};
ghost use Rattle.fk_store_graph.specs.Leads.Sweeps as sweeps;

use fk_model::{Body, Fault, Peer, Ptr, Talk, Thread, Who};

/// An object is destroyed, or gets another name.
#[derive(Clone, Copy)]
pub struct Sweep {
    pub from: Who,
    /// Its other name; none if it is destroyed.
    pub to: Option<Who>,
}

impl Sweep {
    /// Where an object is afterwards, if it is still there.
    fn after(self, who: Who) -> Option<Who>
        ensures { result ≡ sweeps.after self who }
    {
        if who == self.from { self.to } else { Some(who) }
    }

    /// Where a pointer leads afterwards.
    pub fn pointer(self, pointer: Ptr) -> Ptr
        ensures { result ≡ sweeps.pointer_after self pointer }
    {
        match pointer {
            Ptr::Null | Ptr::Dead => pointer,
            Ptr::At(who) => match self.after(who) {
                None => Ptr::Dead,
                Some(who) => Ptr::At(who),
            },
        }
    }

    fn peer(self, peer: Peer) -> Option<Peer>
        ensures { result ≡ sweeps.peer_after self peer }
    {
        match peer {
            Peer::Service | Peer::Parked => Some(peer),
            Peer::Thread(who) => Some(Peer::Thread(self.after(who)?)),
        }
    }

    /// A talk ends with its port and with its server.
    fn talk(self, talk: Talk) -> Option<Talk>
        ensures { result ≡ sweeps.talk_after self talk }
    {
        let port = self.after(talk.port)?;
        let peer = self.peer(talk.peer)?;
        Some(Talk { port, peer, ..talk })
    }

    fn taker(self, taker: Option<Peer>) -> Option<Peer>
        ensures { result ≡ and_then (sweeps.peer_after self) taker }
    {
        self.peer(taker?)
    }

    /// A fault ends with its port, and is raised again without its taker.
    fn fault(self, fault: Fault) -> Option<Fault>
        ensures { result ≡ sweeps.fault_after self fault }
    {
        let port = self.after(fault.port)?;
        let taker = self.taker(fault.taker);
        Some(Fault {
            port,
            taker,
            ..fault
        })
    }

    /// The set of a port in this space.
    fn set(self, space: u32, set: Option<u8>) -> Option<u8>
        ensures { result ≡ and_then (sweeps.set_after self space) set }
    {
        let slot = set?;
        Some(self.after(Who { space, slot })?.slot)
    }

    fn thread(self, thread: Thread) -> Thread
        ensures { result ≡ record thread { talk = and_then (sweeps.talk_after self) thread.talk; fault = and_then (sweeps.fault_after self) thread.fault } }
    {
        let talk = match thread.talk {
            None => None,
            Some(talk) => self.talk(talk),
        };
        let fault = match thread.fault {
            None => None,
            Some(fault) => self.fault(fault),
        };
        Thread {
            talk,
            fault,
            ..thread
        }
    }

    fn holder(self, holder: Option<Who>) -> Option<Who>
        ensures { result ≡ and_then (sweeps.after self) holder }
    {
        self.after(holder?)
    }

    /// A body in this space.
    pub fn body(self, space: u32, body: Body) -> Body
        ensures { result ≡ sweeps.body_after self space body }
    {
        match body {
            Body::Mutex { .. } | Body::Cond | Body::Portset => body,
            Body::Mapping {
                first,
                count,
                offset,
                write,
                region,
            } => Body::Mapping {
                first,
                count,
                offset,
                write,
                region: self.pointer(region),
            },
            Body::Region {
                first,
                count,
                write,
                keeper,
            } => Body::Region {
                first,
                count,
                write,
                keeper: self.pointer(keeper),
            },
            Body::Port { set, served } => Body::Port {
                set: self.set(space, set),
                served,
            },
            Body::Space { birth, holder } => Body::Space {
                birth,
                holder: self.holder(holder),
            },
            Body::Thread(thread) => Body::Thread(self.thread(thread)),
            Body::Reference { to } => Body::Reference {
                to: self.pointer(to),
            },
        }
    }
}
