//! Whether an object has a pointer to another.
ghost use Rattle.std.specs.Prelude.{◌≡◌, ◌&&◌, ℕ, option_map};
ghost use Rattle.std.specs.List.{list_any};
ghost use Rattle.fk_model.specs.Places as places;
ghost use Rattle.fk_model.specs.Places.{Path};
ghost use Rattle.fk_model.specs.Searches.{pointers, option_list, talk_pointers, fault_pointers, peer_pointer};
ghost use Rattle.fk_model.specs.declared.body.Body.TheVariants as bodies;
ghost use Rattle.fk_store.specs.Store.Bodies.{body_by, fault_by, peer_by, pointer_by, talk_by};
ghost use Rattle.fk_store.specs.Store.Paths.{place, HasOwnPath};

use fk_model::{Body, Fault, Peer, Ptr, Talk, Thread, Who};

/// A pointer leads to an object.
fn leads_to(to: Ptr, target: Who) -> bool
    ensures { (p : ℕ → Path) → HasOwnPath p target → result ≡ places.leads_to (place p target) (pointer_by p to) }
{
    match to {
        Ptr::At(who) => who == target,
        Ptr::Null | Ptr::Dead => false,
    }
}

/// A peer is a thread.
fn is_peer(peer: Option<Peer>, target: Who) -> bool
    ensures { (p : ℕ → Path) → HasOwnPath p target →
        result ≡ list_any (places.leads_to (place p target)) (option_list peer_pointer (option_map (peer_by p) peer)) }
{
    match peer {
        Some(Peer::Thread(who)) => who == target,
        Some(Peer::Service | Peer::Parked) | None => false,
    }
}

/// A talk is with an object.
fn talk_points(talk: Option<Talk>, target: Who) -> bool
    ensures { (p : ℕ → Path) → HasOwnPath p target →
        result ≡ list_any (places.leads_to (place p target)) (option_list talk_pointers (option_map (talk_by p) talk)) }
{
    match talk {
        Some(talk) => talk.port == target || is_peer(Some(talk.peer), target),
        None => false,
    }
}

/// A fault is at an object.
fn fault_points(fault: Option<Fault>, target: Who) -> bool
    ensures { (p : ℕ → Path) → HasOwnPath p target →
        result ≡ list_any (places.leads_to (place p target)) (option_list fault_pointers (option_map (fault_by p) fault)) }
{
    match fault {
        Some(fault) => fault.port == target || is_peer(fault.taker, target),
        None => false,
    }
}

/// A thread's talk or fault leads to an object.
fn thread_points(thread: &Thread, target: Who) -> bool
    ensures { (p : ℕ → Path) → HasOwnPath p target →
        result ≡ list_any (places.leads_to (place p target)) (pointers (body_by p (bodies.Thread thread.now))) }
{
    talk_points(thread.talk, target) || fault_points(thread.fault, target)
}

/// A body has a pointer to an object.
pub fn points_to(body: &Body, target: Who) -> bool
    ensures { (p : ℕ → Path) → HasOwnPath p target → result ≡ list_any (places.leads_to (place p target)) (pointers (body_by p body.now)) }
{
    match body {
        Body::Mapping { region: to, .. }
        | Body::Region { keeper: to, .. }
        | Body::Reference { to } => leads_to(*to, target),
        Body::Space {
            holder: Some(holder),
            ..
        } => *holder == target,
        Body::Thread(thread) => thread_points(thread, target),
        Body::Mutex { .. }
        | Body::Cond
        | Body::Port { .. }
        | Body::Portset
        | Body::Space { holder: None, .. } => false,
    }
}

/// All of three.
pub fn all_three(first: bool, second: bool, third: bool) -> bool
    ensures { result ≡ (first && second && third) }
{
    first && second && third
}
