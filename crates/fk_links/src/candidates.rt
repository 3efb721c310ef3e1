//! Whom a wait may take.
ghost use Rattle.std.specs.Prelude.{◌≡◌, ◌||◌, ◌==◌, ℕ, Some, true, option_map, IfSome, IsSome};
ghost use Rattle.fk_model.specs.declared.call.TheConstants.{CONNECT, CONNECT_SEND_OVER_RECEIVE};
ghost use Rattle.fk_model.specs.LinkRows as rows;
ghost use Rattle.fk_model.specs.Places.{Path};
ghost use Rattle.fk_model.specs.Places.Ptr.{At};
ghost use Rattle.fk_model.specs.Searches.{thread_at};
ghost use Rattle.fk_store.specs.Store.Bodies.{mode_by, peer_by, thread_by};
ghost use Rattle.fk_store.specs.Store.Paths.{path, place};
ghost use Rattle.fk_store.specs.Store.Threads.{todo_at, todo_of_mode};
ghost use Rattle.fk_store.specs.Store.World.{world, IsLive};
ghost use Rattle.fk_links.specs.Candidates.{candidate_by, IsCandidate};
ghost use Rattle.fk_links.specs.Connects.{connect_first, is_connecting};

use fk_changes::readers::{Caller, handle, is_in};
use fk_model::call::{CONNECT, CONNECT_SEND_OVER_RECEIVE};
use fk_model::{Body, Fault, Kind, Mode, Peer, Talk, Thread, Who};
use fk_store::Store;

/// Whom a wait may take, at the port in a slot.
#[derive(Clone, Copy)]
pub enum Candidate {
    /// It has a fault, raised on the port or parked there.
    Faulting { slot: u8, fault: Fault },
    /// It is at its connect to the port.
    Connecting { slot: u8 },
    /// Its talk is parked at the port.
    Resuming { slot: u8, talk: Talk },
}

/// A port is in the set in a slot of its space.
pub fn is_member(store: &Store, set: u64, port: Who) -> bool
    ensures member { result ≡ rows.is_member set ((world store.now).body (place (path store.now) port)) }
    ensures there { result ≡ true → IsSome ((world store.now).body (place (path store.now) port)) }
{
    match store.at(port) {
        Some(Body::Port { set: Some(k), .. }) => u64::from(*k) == set,
        Some(
            Body::Mutex { .. }
            | Body::Cond
            | Body::Mapping { .. }
            | Body::Region { .. }
            | Body::Port { set: None, .. }
            | Body::Portset
            | Body::Space { .. }
            | Body::Thread(_)
            | Body::Reference { .. },
        )
        | None => false,
    }
}

/// The slot of a port of a set of a space.
#[tactic(auto, using(crate::proofs::Members::no_member, crate::proofs::Members::no_place, crate::proofs::Members::member))]
fn slot_in_set(store: &Store, space: u32, set: u64, port: Who) -> Option<u8>
    ensures slot { result ≡ rows.slot_in_set (world store.now) (path store.now space) set (At (place (path store.now) port)) }
    ensures live { IfSome result (λ slot. IsLive store.now (record { space = space; slot = slot })) }
{
    if is_member(store, set, port) && is_in(store, port, space) {
        return Some(port.slot);
    }
    None
}

/// A talk, or a fault that somebody has taken, waits to be taken up.
pub fn is_parked(peer: Peer) -> bool
    ensures { (p : ℕ → Path) → result ≡ rows.is_parked (Some (peer_by p peer)) }
{
    match peer {
        Peer::Parked => true,
        Peer::Thread(_) | Peer::Service => false,
    }
}

/// A fault is raised, or parked.
fn is_open(taker: Option<Peer>) -> bool
    ensures { (p : ℕ → Path) → result ≡ rows.is_open (option_map (peer_by p) taker) }
{
    match taker {
        None => true,
        Some(peer) => is_parked(peer),
    }
}

/// A thread with a fault, raised or parked on a port of the set.
fn faulting(store: &Store, space: u32, set: u64, thread: &Thread) -> Option<Candidate>
    ensures candidate { option_map (candidate_by (path store.now)) result
        ≡ rows.faulting (world store.now) (path store.now space) set (thread_by (path store.now) thread.now) }
    ensures fits { (who : Who) → IfSome result (IsCandidate store.now space who) }
{
    let fault = thread.fault?;
    if !is_open(fault.taker) {
        return None;
    }
    let slot = slot_in_set(store, space, set, fault.port)?;
    Some(Candidate::Faulting { slot, fault })
}

/// The call with this code begins with a connect.
fn is_connect(code: u64) -> bool
    ensures { result ≡ (code == CONNECT || code == CONNECT_SEND_OVER_RECEIVE) }
{
    code == CONNECT || code == CONNECT_SEND_OVER_RECEIVE
}

/// The handle of the port to which a thread connects.
fn connect_of(thread: &Thread) -> Option<u64>
    ensures { result ≡ connect_first (todo_of_mode (mode_by thread.now.mode thread.now.regs)) }
{
    if let Mode::Calling = thread.mode {
        if is_connect(thread.regs[0]) {
            return Some(thread.regs[1]);
        }
    }
    None
}

/// The handle of the port to which the thread in a slot connects; none where no thread there is at
/// its connect.
#[tactic(auto, unfolding(fk_store::specs::Store::Threads::todo_at))]
pub fn connects_by(store: &Store, who: Who) -> Option<u64>
    ensures { result ≡ connect_first (todo_at (world store.now) (place (path store.now) who)) }
{
    connect_of(store.thread(who)?)
}

/// The port to which a thread is at its connect, where that isn't refused.
#[tactic(auto, using(crate::proofs::Handles::named_first))]
pub fn connecting_to(store: &Store, who: Who, thread: &Thread) -> Option<Who>
    ensures to { option_map (λ port. At (place (path store.now) port)) result
        ≡ rows.connecting_to (world store.now) (place (path store.now) who) (thread_by (path store.now) thread.now) }
    ensures first { IsSome result → is_connecting (todo_of_mode (mode_by thread.now.mode thread.now.regs)) ≡ true }
{
    if thread.talk.is_some() {
        return None;
    }
    let h = connect_of(thread)?;
    let caller = Caller {
        who,
        is_porter: false,
    };
    match handle(store, caller, Kind::Port, h) {
        Ok(port) => Some(port),
        Err(_) => None,
    }
}

/// A thread at its connect to a port of the set.
#[tactic(auto, unfolding(fk_store::specs::Store::Threads::todo_at))]
fn connecting(store: &Store, space: u32, set: u64, who: Who, thread: &Thread) -> Option<Candidate>
    requires there { Some (thread_by (path store.now) thread.now) ≡ thread_at (world store.now) (place (path store.now) who) }
    ensures candidate { option_map (candidate_by (path store.now)) result ≡ rows.connecting
        (world store.now) (path store.now space) set (place (path store.now) who) (thread_by (path store.now) thread.now) }
    ensures fits { IfSome result (IsCandidate store.now space who) }
{
    let port = connecting_to(store, who, thread)?;
    let slot = slot_in_set(store, space, set, port)?;
    Some(Candidate::Connecting { slot })
}

/// A thread with a talk that is parked at a port of the set.
fn resuming(store: &Store, space: u32, set: u64, thread: &Thread) -> Option<Candidate>
    ensures candidate { option_map (candidate_by (path store.now)) result
        ≡ rows.resuming (world store.now) (path store.now space) set (thread_by (path store.now) thread.now) }
    ensures fits { (who : Who) → IfSome result (IsCandidate store.now space who) }
{
    let talk = thread.talk?;
    if !is_parked(talk.peer) {
        return None;
    }
    let slot = slot_in_set(store, space, set, talk.port)?;
    Some(Candidate::Resuming { slot, talk })
}

/// Which candidate a thread is, where it isn't held: with a fault; else, where it is free, by its
/// connect or its parked talk.
#[tactic(auto, unfolding(fk_store::specs::Store::Threads::is_free_at))]
fn candidate_in(store: &Store, space: u32, set: u64, who: Who, thread: &Thread) -> Option<Candidate>
    requires there { Some (thread_by (path store.now) thread.now) ≡ thread_at (world store.now) (place (path store.now) who) }
    ensures candidate { option_map (candidate_by (path store.now)) result ≡ rows.candidate_by
        (world store.now) (path store.now space) set (place (path store.now) who) (thread_by (path store.now) thread.now) }
    ensures fits { IfSome result (IsCandidate store.now space who) }
{
    if let Some(candidate) = faulting(store, space, set, thread) {
        return Some(candidate);
    }
    if !store.is_free(who) {
        return None;
    }
    if let Some(candidate) = connecting(store, space, set, who, thread) {
        return Some(candidate);
    }
    resuming(store, space, set, thread)
}

/// Which candidate a thread is for a wait on a set of a space; none where it is none, or is held.
#[tactic(auto, unfolding(fk_model::specs::LinkRows::candidate))]
pub fn candidate_of(store: &Store, space: u32, set: u64, who: Who) -> Option<Candidate>
    ensures candidate { option_map (candidate_by (path store.now)) result
        ≡ rows.candidate (world store.now) (path store.now space) set (place (path store.now) who) }
    ensures fits { IfSome result (IsCandidate store.now space who) }
{
    if store.is_frozen(who.space) {
        return None;
    }
    let thread = store.thread(who)?;
    candidate_in(store, space, set, who, thread)
}
