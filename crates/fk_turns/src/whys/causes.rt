//! Causes.
ghost use Rattle.std.specs.Prelude.{◌≡◌, ℕ, Some, option_map, if◌then◌else◌};
ghost use Rattle.fk_model.specs.LinkRows.{user_at, if_read};
ghost use Rattle.fk_model.specs.Objects.{and_then};
ghost use Rattle.fk_model.specs.Places.{Path};
ghost use Rattle.fk_model.specs.Readers.{space_argument};
ghost use Rattle.fk_model.specs.Searches.{talk_at, thread_at};
ghost use Rattle.fk_model.specs.Talks as talks;
ghost use Rattle.fk_model.specs.Valid.{IsConsistent};
ghost use Rattle.fk_store.specs.Store.Bodies.{talk_by, thread_by};
ghost use Rattle.fk_store.specs.Store.Paths.{path, place};
ghost use Rattle.fk_store.specs.Store.World.{world, place_of, IsLive, IsSpace};
ghost use Rattle.laws_waits.specs.Stuck as stuck;
ghost use Rattle.fk_turns.specs.Whys.Causes as causes;

use crate::whys::stages::first_stage;
use fk_calls::is_user;
use fk_changes::readers::{Caller, above};
use fk_links::connecting_to;
use fk_model::limits::LAST_USER_SLOT;
use fk_model::{Body, Stage, Talk, Thread, Who};
use fk_store::Store;

/// What a thread that can't move waits for: the space of the outermost hold above it; itself, where it is stopped or neither runs nor is in a call; the
/// port of its fault; what its stage waits for; or else itself.
pub fn cause(store: &Store, who: Who) -> Who
    requires consistent { IsConsistent (world store.now) }
    requires live { IsLive store.now who }
    ensures { place_of store.now result ≡ causes.cause_at (world store.now) (place_of store.now who) }
{
    match outermost_held(store, who) {
        Some(space) => space,
        None => own_cause(store, who),
    }
}

/// What a thread waits for by itself, or else it itself.
fn own_cause(store: &Store, who: Who) -> Who
    requires consistent { IsConsistent (world store.now) }
    ensures { place_of store.now result ≡ causes.or_itself (place_of store.now who)
        (and_then (causes.thread_cause (world store.now) (place_of store.now who)) (thread_at (world store.now) (place_of store.now who))) }
{
    match cause_there(store, who) {
        Some(cause) => cause,
        None => who,
    }
}

/// What a thread waits for besides itself.
fn cause_there(store: &Store, who: Who) -> Option<Who>
    requires consistent { IsConsistent (world store.now) }
    ensures { option_map (place_of store.now) result
        ≡ and_then (causes.thread_cause (world store.now) (place_of store.now who)) (thread_at (world store.now) (place_of store.now who)) }
{
    match store.thread(who) {
        Some(thread) => thread_cause(store, who, thread),
        None => None,
    }
}

/// The space of the outermost hold above an object.
pub fn outermost_held(store: &Store, who: Who) -> Option<Who>
    requires live { IsLive store.now who }
    ensures { option_map (place_of store.now) result ≡ causes.outermost_held (world store.now) (path store.now who.space) }
{
    if store.is_any_held() {
        outermost_above(store, who)
    } else {
        None
    }
}

/// The same, by a walk up to the root.
fn outermost_above(store: &Store, who: Who) -> Option<Who>
    requires live { IsLive store.now who }
    ensures { option_map (place_of store.now) result ≡ causes.outermost_held (world store.now) (path store.now who.space) }
{
    let mut found = None;
    let mut at = who;
    while let Some(space) = above(store, at) {
        found = held_or(store, space, found);
        at = space;
    }
    found
}

/// A space, where it is held, or else what was found beneath it.
fn held_or(store: &Store, space: Who, found: Option<Who>) -> Option<Who>
    ensures { result ≡ if stuck.is_held (world store.now) (place_of store.now space) then Some space else found }
{
    if is_held(store, space) {
        Some(space)
    } else {
        found
    }
}

/// A space is held.
fn is_held(store: &Store, space: Who) -> bool
    ensures { result ≡ stuck.is_held (world store.now) (place_of store.now space) }
{
    match store.at(space) {
        Some(
            Body::Space {
                holder: Some(_),
                ..
            },
        ) => true,
        _ => false,
    }
}

/// The same of this thread.
fn thread_cause(store: &Store, who: Who, thread: &Thread) -> Option<Who>
    requires consistent { IsConsistent (world store.now) }
    requires space { IsSpace store.now who.space }
    ensures { option_map (place_of store.now) result
        ≡ causes.thread_cause (world store.now) (place_of store.now who) (thread_by (path store.now) thread.now) }
{
    if is_at_rest(thread) {
        return None;
    }
    match thread.fault {
        Some(fault) => Some(fault.port),
        None => call_cause(store, who, thread),
    }
}

/// A thread is stopped, or neither runs nor is in a call.
fn is_at_rest(thread: &Thread) -> bool
    ensures { (p : ℕ → Path) → result ≡ causes.is_at_rest (thread_by p thread.now) }
{
    thread.stops != 0 || !is_user(thread.mode)
}

/// What the call of a thread waits for, if it is in one.
fn call_cause(store: &Store, who: Who, thread: &Thread) -> Option<Who>
    requires consistent { IsConsistent (world store.now) }
    requires space { IsSpace store.now who.space }
    ensures { option_map (place_of store.now) result
        ≡ and_then (causes.stage_cause (world store.now) (place_of store.now who) (thread_by (path store.now) thread.now))
        (talks.first_stage (thread_by (path store.now) thread.now).mode) }
{
    match first_stage(thread) {
        Some(stage) => stage_cause(store, who, thread, stage),
        None => None,
    }
}

/// What a stage waits for.
fn stage_cause(store: &Store, who: Who, thread: &Thread, stage: Stage) -> Option<Who>
    requires consistent { IsConsistent (world store.now) }
    requires space { IsSpace store.now who.space }
    ensures { option_map (place_of store.now) result
        ≡ causes.stage_cause (world store.now) (place_of store.now who) (thread_by (path store.now) thread.now) stage }
{
    match stage {
        Stage::MutexLock { m } => named(who.space, m),
        Stage::CondAsleep { c, .. } => named(who.space, c),
        Stage::Wait { set } => named(who.space, set),
        Stage::Connect { .. } => connecting_to(store, who, thread),
        Stage::SpaceHold { s, x } => space_named(store, who, s, x),
        Stage::FaultDone => store.faulter_of(who),
        Stage::ClientSend { .. }
        | Stage::ClientReceive { .. }
        | Stage::ClientOver
        | Stage::ClientOverRef { .. }
        | Stage::ClientReceiveRef { .. } => port_of(thread.talk),
        Stage::ServerSend { .. }
        | Stage::ServerReceive { .. }
        | Stage::ServerOver
        | Stage::ServerOverRef { .. }
        | Stage::ServerReceiveRef { .. } => served_port(store, who),
        _ => None,
    }
}

/// What stands in a slot that a user can name.
pub fn named(space: u32, slot: u64) -> Option<Who>
    ensures { (p : ℕ → Path) → option_map (place p) result ≡ causes.named (p space) slot }
{
    if slot > LAST_USER_SLOT {
        return None;
    }
    Some(Who {
        space,
        slot: slot as u8,
    })
}

/// The same, of a space that a user names.
fn space_named(store: &Store, who: Who, s: u64, slot: u64) -> Option<Who>
    requires space { IsSpace store.now who.space }
    ensures { option_map (place_of store.now) result
        ≡ and_then (λ space. causes.named space slot) (if_read (space_argument (world store.now) (user_at (place_of store.now who)) s)) }
{
    let caller = Caller {
        who,
        is_porter: false,
    };
    match fk_changes::readers::place(store, caller, s) {
        Ok(space) => named(space, slot),
        Err(_) => None,
    }
}

/// The port of a talk.
fn port_of(talk: Option<Talk>) -> Option<Who>
    ensures { (p : ℕ → Path) → option_map (place p) result ≡ causes.port_of (option_map (talk_by p) talk) }
{
    match talk {
        Some(talk) => Some(talk.port),
        None => None,
    }
}

/// The port of the talk that a thread serves.
fn served_port(store: &Store, who: Who) -> Option<Who>
    requires consistent { IsConsistent (world store.now) }
    ensures { option_map (place_of store.now) result ≡ causes.served_port (world store.now) (place_of store.now who) }
{
    match store.client_of(who) {
        Some(client) => talk_port(store, client),
        None => None,
    }
}

/// The port of a thread's talk.
fn talk_port(store: &Store, client: Who) -> Option<Who>
    ensures { option_map (place_of store.now) result ≡ causes.port_of (talk_at (world store.now) (place_of store.now client)) }
{
    match store.thread(client) {
        Some(thread) => port_of(thread.talk),
        None => None,
    }
}
