//! Who waits at its Receive for the other end of its talk.
ghost use Rattle.std.specs.Prelude.{◌≡◌, ◌∷◌, [], ℕ, None, Some, true, false, IfSome, IsSome};
ghost use Rattle.std.specs.Bool.{OnTrue};
ghost use Rattle.fk_model.specs.Calls.{todo_of};
ghost use Rattle.fk_model.specs.Holds.{decider};
ghost use Rattle.fk_model.specs.Places.{Path};
ghost use Rattle.fk_model.specs.Searches as searches;
ghost use Rattle.fk_model.specs.Searches.{thread_at};
ghost use Rattle.fk_model.specs.Talks as talks;
ghost use Rattle.fk_model.specs.Valid.{IsValid};
ghost use Rattle.fk_store.specs.Store.Bodies.{thread_by};
ghost use Rattle.fk_store.specs.Store.Paths.{path, place};
ghost use Rattle.fk_store.specs.Store.World.{world};
ghost use Rattle.laws_waits.specs.Stuck as stuck;
ghost use Rattle.laws_waits.specs.Stuck.{receive_stage};
ghost use Rattle.fk_turns.specs.Whys.Causes.{cause_at};
ghost use Rattle.fk_turns.specs.Whys.Hearings.{IsRoomy, IsTalkOn};
ghost use Rattle.laws_moves.specs.Users.Stood.{is_users_at};
ghost use Rattle.fk_turns.specs.Whys.Whys.{IsLoudly};

use crate::whys::whys::is_resting;
use fk_model::call::{CLIENT_RECEIVE, SERVER_RECEIVE};
use fk_model::{Mode, Talk, Thread, Turn, Who};
use fk_store::{Reach, Store};

/// A Receive, with its side, its address and its room.
#[derive(Clone, Copy)]
pub struct Hearing {
    pub side: Turn,
    pub into: u64,
    pub room: u64,
}

/// The port of the talk in which the thread in a slot waits at its Receive, while nothing is held. No move of it is ready then, and the port is its cause.
pub fn heard_at(store: &Store, who: Who) -> Option<Who>
    requires valid { IsValid (world store.now) }
    ensures why { IfSome result (λ port. IsLoudly (world store.now) (place (path store.now) who)) }
    ensures cause { IfSome result (λ port. place (path store.now) port ≡ cause_at (world store.now) (place (path store.now) who)) }
    ensures user { IsSome result → is_users_at (world store.now) (place (path store.now) who) ≡ true }
{
    if store.is_any_held() {
        return None;
    }
    match store.thread(who) {
        Some(thread) => heard_by(store, who, thread),
        None => None,
    }
}

/// The same of this thread.
#[inline(always)]
fn heard_by(store: &Store, who: Who, thread: &Thread) -> Option<Who>
    requires valid { IsValid (world store.now) }
    requires unheld { (q : Path) → decider (world store.now) q ≡ None }
    requires there { Some (thread_by (path store.now) thread.now) ≡ thread_at (world store.now) (place (path store.now) who) }
    ensures why { IfSome result (λ port. IsLoudly (world store.now) (place (path store.now) who)) }
    ensures cause { IfSome result (λ port. place (path store.now) port ≡ cause_at (world store.now) (place (path store.now) who)) }
    ensures user { IsSome result → is_users_at (world store.now) (place (path store.now) who) ≡ true }
{
    if is_resting(thread) {
        return None;
    }
    match receive_of(thread) {
        Some(hearing) => heard_in(store, who, thread, hearing),
        None => None,
    }
}

/// The Receive at which a thread is, without a reference.
#[inline(always)]
fn receive_of(thread: &Thread) -> Option<Hearing>
    ensures { (p : ℕ → Path) → IfSome result
        (λ h. talks.first_stage (thread_by p thread.now).mode ≡ Some (receive_stage h.side h.into h.room None)) }
{
    match thread.mode {
        Mode::Calling => receive_named(&thread.regs),
        Mode::Running | Mode::Halted(_) | Mode::Native => None,
    }
}

/// The Receive that registers name, if they name one.
#[tactic(auto, unfolding(fk_model::specs::Calls::todo_of))]
#[inline(always)]
fn receive_named(registers: &[u64; 16]) -> Option<Hearing>
    ensures { IfSome result (λ h. todo_of registers.now ≡ Some (receive_stage h.side h.into h.room None ∷ [])) }
{
    let into = registers[4];
    let room = registers[5];
    match registers[0] {
        CLIENT_RECEIVE => Some(Hearing {
            side: Turn::Client,
            into,
            room,
        }),
        SERVER_RECEIVE => Some(Hearing {
            side: Turn::Server,
            into,
            room,
        }),
        _ => None,
    }
}

/// The same at this Receive of it.
#[inline(always)]
fn heard_in(store: &Store, who: Who, thread: &Thread, hearing: Hearing) -> Option<Who>
    requires valid { IsValid (world store.now) }
    requires unheld { (q : Path) → decider (world store.now) q ≡ None }
    requires there { Some (thread_by (path store.now) thread.now) ≡ thread_at (world store.now) (place (path store.now) who) }
    requires awake { stuck.is_resting (thread_by (path store.now) thread.now) ≡ false }
    requires stage { talks.first_stage (thread_by (path store.now) thread.now).mode ≡ Some (receive_stage hearing.side hearing.into hearing.room None) }
    ensures why { IfSome result (λ port. IsLoudly (world store.now) (place (path store.now) who)) }
    ensures cause { IfSome result (λ port. place (path store.now) port ≡ cause_at (world store.now) (place (path store.now) who)) }
{
    match talk_on(store, who, thread, hearing.side) {
        Some(talk) => {
            if !is_others_turn(hearing.side, talk.turn) {
                return None;
            }
            if !is_roomy(store, who.space, hearing.into, hearing.room) {
                return None;
            }
            Some(talk.port)
        }
        None => None,
    }
}

/// The talk in which a thread acts on a side.
#[inline(always)]
fn talk_on(store: &Store, who: Who, thread: &Thread, side: Turn) -> Option<Talk>
    requires valid { IsValid (world store.now) }
    requires there { Some (thread_by (path store.now) thread.now) ≡ thread_at (world store.now) (place (path store.now) who) }
    ensures { IfSome result (IsTalkOn (world store.now) (path store.now) (place (path store.now) who) (thread_by (path store.now) thread.now) side) }
{
    match side {
        Turn::Client => own_talk(store, who, thread),
        Turn::Server => served_talk(store, who, thread),
    }
}

/// As its client.
#[inline(always)]
fn own_talk(store: &Store, who: Who, thread: &Thread) -> Option<Talk>
    requires there { Some (thread_by (path store.now) thread.now) ≡ thread_at (world store.now) (place (path store.now) who) }
    ensures { IfSome result
        (IsTalkOn (world store.now) (path store.now) (place (path store.now) who) (thread_by (path store.now) thread.now) Turn.Client) }
{
    match thread.talk {
        Some(talk) => Some(talk),
        None => None,
    }
}

/// As its server.
#[inline(always)]
fn served_talk(store: &Store, who: Who, thread: &Thread) -> Option<Talk>
    requires valid { IsValid (world store.now) }
    ensures { IfSome result
        (IsTalkOn (world store.now) (path store.now) (place (path store.now) who) (thread_by (path store.now) thread.now) Turn.Server) }
{
    match store.client_of(who) {
        Some(client) => talk_of_client(store, who, thread, client),
        None => None,
    }
}

/// With this client.
#[inline(always)]
fn talk_of_client(store: &Store, who: Who, thread: &Thread, client: Who) -> Option<Talk>
    requires served { Some (place (path store.now) client) ≡ searches.client_of (world store.now) (place (path store.now) who) }
    ensures { IfSome result
        (IsTalkOn (world store.now) (path store.now) (place (path store.now) who) (thread_by (path store.now) thread.now) Turn.Server) }
{
    match store.thread(client) {
        Some(other) => match other.talk {
            Some(talk) => Some(talk),
            None => None,
        },
        None => None,
    }
}

/// It is the turn of the other side.
#[inline(always)]
fn is_others_turn(side: Turn, turn: Turn) -> bool
    ensures { result ≡ talks.same_side turn (talks.other_side side) }
{
    match (side, turn) {
        (Turn::Client, Turn::Server) | (Turn::Server, Turn::Client) => true,
        (Turn::Client, Turn::Client) | (Turn::Server, Turn::Server) => false,
    }
}

/// A Receive has no room left, or its page is there.
#[inline(always)]
fn is_roomy(store: &Store, space: u32, into: u64, room: u64) -> bool
    ensures { OnTrue result (IsRoomy (world store.now) (path store.now space) into room) }
{
    if room == 0 {
        return true;
    }
    match store.reach_word(space, into, true) {
        Reach::Home { .. } => true,
        Reach::Missing { .. } | Reach::Bad => false,
    }
}
