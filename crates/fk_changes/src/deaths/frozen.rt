//! Pointers of a body that lead to what is frozen.
ghost use Rattle.std.specs.Prelude.{◌≡◌, option_map};
ghost use Rattle.std.specs.List.{list_any};
ghost use Rattle.fk_model.specs.Holds.{leads_to_frozen};
ghost use Rattle.fk_model.specs.Searches.{pointers, option_list, talk_pointers, fault_pointers, peer_pointer};
ghost use Rattle.fk_model.specs.declared.body.Body.TheVariants as bodies;
ghost use Rattle.fk_store.specs.Store.Bodies.{body_by, fault_by, peer_by, talk_by};
ghost use Rattle.fk_store.specs.Store.Paths.{path, place};
ghost use Rattle.fk_store.specs.Store.World.{world};

use fk_model::{Body, Fault, Peer, Talk, Thread, Who};
use fk_store::Store;

/// A peer is a thread that is frozen for a mover.
pub fn peer_leads_to_frozen(store: &Store, me: Who, peer: Option<Peer>) -> bool
    ensures { result ≡ list_any (leads_to_frozen (world store.now) (place (path store.now) me))
        (option_list peer_pointer (option_map (peer_by (path store.now)) peer)) }
{
    match peer {
        Some(Peer::Thread(who)) => store.frozen_for(me, who),
        Some(Peer::Service | Peer::Parked) | None => false,
    }
}

/// A pointer of a talk leads to what is frozen for a mover.
pub fn talk_leads_to_frozen(store: &Store, me: Who, talk: Option<Talk>) -> bool
    ensures { result ≡ list_any (leads_to_frozen (world store.now) (place (path store.now) me))
        (option_list talk_pointers (option_map (talk_by (path store.now)) talk)) }
{
    match talk {
        Some(talk) => {
            store.frozen_for(me, talk.port) || peer_leads_to_frozen(store, me, Some(talk.peer))
        }
        None => false,
    }
}

/// A pointer of a fault leads to what is frozen for a mover.
pub fn fault_leads_to_frozen(store: &Store, me: Who, fault: Option<Fault>) -> bool
    ensures { result ≡ list_any (leads_to_frozen (world store.now) (place (path store.now) me))
        (option_list fault_pointers (option_map (fault_by (path store.now)) fault)) }
{
    match fault {
        Some(fault) => {
            store.frozen_for(me, fault.port) || peer_leads_to_frozen(store, me, fault.taker)
        }
        None => false,
    }
}

/// A pointer of a thread's talk or fault leads to what is frozen for a mover.
fn thread_leads_to_frozen(store: &Store, me: Who, thread: &Thread) -> bool
    ensures { result ≡ list_any (leads_to_frozen (world store.now) (place (path store.now) me))
        (pointers (body_by (path store.now) (bodies.Thread thread.now))) }
{
    talk_leads_to_frozen(store, me, thread.talk) || fault_leads_to_frozen(store, me, thread.fault)
}

/// A pointer of an object leads to what is frozen for a mover.
pub fn leads_to_frozen(store: &Store, me: Who, body: &Body) -> bool
    ensures { result ≡ list_any (leads_to_frozen (world store.now) (place (path store.now) me)) (pointers (body_by (path store.now) body.now)) }
{
    match body {
        Body::Mapping { region: to, .. }
        | Body::Region { keeper: to, .. }
        | Body::Reference { to } => store.leads_to_frozen(me, *to),
        Body::Space {
            holder: Some(holder),
            ..
        } => store.frozen_for(me, *holder),
        Body::Thread(thread) => thread_leads_to_frozen(store, me, thread),
        Body::Mutex { .. }
        | Body::Cond
        | Body::Port { .. }
        | Body::Portset
        | Body::Space { holder: None, .. } => false,
    }
}
