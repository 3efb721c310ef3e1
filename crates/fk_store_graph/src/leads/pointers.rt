//! How many pointers of a body lead to an object.
ghost use Rattle.std.specs.Prelude.{◌≡◌, ◌≤◌};
ghost use Rattle.fk_store_graph.specs.Leads.Pointers as pointers;

use fk_model::{Body, Fault, Peer, Ptr, Talk, Who};

/// How many pointers of a body lead to an object, at most 4.
pub fn hits(who: Who, body: &Body) -> u64
    ensures hits { result ≡ pointers.body_hits who body.now }
    ensures few { result ≤ 4 }
{
    match *body {
        Body::Mapping { region, .. } => pointer_hits(who, region),
        Body::Region { keeper, .. } => pointer_hits(who, keeper),
        Body::Reference { to } => pointer_hits(who, to),
        Body::Space { holder, .. } => match holder {
            None => 0,
            Some(holder) => hit(who, holder),
        },
        Body::Thread(thread) => talk_hits(who, thread.talk) + fault_hits(who, thread.fault),
        Body::Mutex { .. } | Body::Cond | Body::Port { .. } | Body::Portset => 0,
    }
}

fn hit(who: Who, other: Who) -> u64
    ensures hits { result ≡ pointers.hit who other }
    ensures few { result ≤ 1 }
{
    if other == who { 1 } else { 0 }
}

fn pointer_hits(who: Who, pointer: Ptr) -> u64
    ensures hits { result ≡ pointers.pointer_hits who pointer }
    ensures few { result ≤ 1 }
{
    match pointer {
        Ptr::Null | Ptr::Dead => 0,
        Ptr::At(other) => hit(who, other),
    }
}

fn peer_hits(who: Who, peer: Peer) -> u64
    ensures hits { result ≡ pointers.peer_hits who peer }
    ensures few { result ≤ 1 }
{
    match peer {
        Peer::Service | Peer::Parked => 0,
        Peer::Thread(other) => hit(who, other),
    }
}

fn talk_hits(who: Who, talk: Option<Talk>) -> u64
    ensures hits { result ≡ pointers.hits_in (pointers.talk_hits who) talk }
    ensures few { result ≤ 2 }
{
    match talk {
        None => 0,
        Some(talk) => hit(who, talk.port) + peer_hits(who, talk.peer),
    }
}

fn fault_hits(who: Who, fault: Option<Fault>) -> u64
    ensures hits { result ≡ pointers.hits_in (pointers.fault_hits who) fault }
    ensures few { result ≤ 2 }
{
    match fault {
        None => 0,
        Some(fault) => hit(who, fault.port) + taker_hits(who, fault.taker),
    }
}

fn taker_hits(who: Who, taker: Option<Peer>) -> u64
    ensures hits { result ≡ pointers.hits_in (pointers.peer_hits who) taker }
    ensures few { result ≤ 1 }
{
    match taker {
        None => 0,
        Some(peer) => peer_hits(who, peer),
    }
}
