//! Whom a wait takes.
ghost use Rattle.std.specs.Prelude.{◌≡◌, Some, IfSome, IfNone, IsSome};
ghost use Rattle.fk_model.specs.declared.moves.Ask.TheVariants as asks;
ghost use Rattle.fk_model.specs.Places.{Path};
ghost use Rattle.fk_model.specs.Valid.{IsValid};
ghost use Rattle.fk_store.specs.Store.World.{world, place_of};
ghost use Rattle.fk_turns.specs.Picks.Judgements.{IsReadyMove};
ghost use Rattle.fk_turns.specs.Picks.Stands.{IsPicked};
ghost use Rattle.fk_turns.specs.declared.picks.moves.Picker.TheVariants as pickers;
ghost use Rattle.fk_turns.specs.Next.Waiting.{IsMoveReady};

use fk_calls::{Picks, may_pick};
use fk_links::is_member;
use fk_model::call::{WAIT, WAIT_RECEIVE};
use fk_model::{Ask, Move, Who};
use fk_store::Store;
use fk_waits::turns::Turns;

/// A move of the user in a slot that is ready. A wait takes who is queued first at a port of its set, if that one may be taken.
pub fn likely_move(turns: &Turns, store: &Store, who: Who) -> Option<Move>
    requires valid { IsValid (world store.now) }
    ensures ready { IfSome result (λ m. IsReadyMove store.now m asks.Run) }
    ensures who { IfSome result (λ m. m.who ≡ who) }
    ensures up { IsSome result → IsMoveReady (world store.now) (place_of store.now who) }
    ensures none { IfNone result (IsMoveReady (world store.now) (place_of store.now who) → ⊥) }
{
    // Most objects are no thread that may move, and a judgement is large.
    if !fk_calls::may_move(store, who) {
        return None;
    }
    let m = Move { who, pick: None };
    if fk_calls::ready(store, &m, &Ask::Run) {
        return Some(m);
    }
    likely_pick(turns, store, who)
}

/// A move of it that is ready and picks somebody.
fn likely_pick(turns: &Turns, store: &Store, who: Who) -> Option<Move>
    requires valid { IsValid (world store.now) }
    ensures ready { IfSome result (λ m. IsReadyMove store.now m asks.Run) }
    ensures who { IfSome result (λ m. m.who ≡ who) }
    ensures none { IfNone result ((q : Path) → IsPicked store.now (pickers.User who) q → ⊥) }
{
    match takes_first(turns, store, who) {
        Some(m) => Some(m),
        None => crate::picks::ready_pick(store, who),
    }
}

/// The same of who is queued first at a port of a set, where it waits on one.
fn takes_first(turns: &Turns, store: &Store, who: Who) -> Option<Move>
    requires valid { IsValid (world store.now) }
    ensures ready { IfSome result (λ m. IsReadyMove store.now m asks.Run) }
    ensures who { IfSome result (λ m. m.who ≡ who) }
{
    match may_pick(store, who) {
        Picks::Candidates { set } => takes_first_of(turns, store, who, set),
        Picks::Nobody | Picks::Sleepers { .. } => None,
    }
}

/// The same of this set.
fn takes_first_of(turns: &Turns, store: &Store, who: Who, set: u64) -> Option<Move>
    requires valid { IsValid (world store.now) }
    ensures ready { IfSome result (λ m. IsReadyMove store.now m asks.Run) }
    ensures who { IfSome result (λ m. m.who ≡ who) }
{
    let mut from: u16 = 0;
    while let Some(slot) = store.next_in(who.space, from) {
        let port = Who {
            space: who.space,
            slot,
        };
        if let Some(m) = takes_first_at(turns, store, who, set, port) {
            return Some(m);
        }
        from = u16::from(slot) + 1;
    }
    None
}

/// The same at the port in a slot, if that is in the set.
fn takes_first_at(turns: &Turns, store: &Store, who: Who, set: u64, port: Who) -> Option<Move>
    requires valid { IsValid (world store.now) }
    ensures ready { IfSome result (λ m. IsReadyMove store.now m asks.Run) }
    ensures who { IfSome result (λ m. m.who ≡ who) }
{
    if !is_member(store, set, port) {
        return None;
    }
    match turns.waits().first(port) {
        Some(other) => takes(store, who, other),
        None => None,
    }
}

/// Who is queued first at a port of the set on which the user in a slot waits, if it is at a wait. It is a hint: nothing is said of it.
pub fn first_to_take(turns: &Turns, store: &Store, who: Who) -> Option<Who> {
    // Mostly nobody is queued anywhere.
    if turns.waits().len() == 0 {
        return None;
    }
    let thread = store.thread(who)?;
    if !begins_with_wait(thread.regs[0]) {
        return None;
    }
    let set = thread.regs[1];
    let mut from: u16 = 0;
    while let Some(slot) = store.next_in(who.space, from) {
        let port = Who {
            space: who.space,
            slot,
        };
        if let Some(other) = first_at_member(turns, store, set, port) {
            return Some(other);
        }
        from = u16::from(slot) + 1;
    }
    None
}

/// A call begins with a wait.
fn begins_with_wait(code: u64) -> bool {
    code == WAIT || code == WAIT_RECEIVE
}

/// Who is queued first at a port, if that is in a set.
fn first_at_member(turns: &Turns, store: &Store, set: u64, port: Who) -> Option<Who> {
    if is_member(store, set, port) {
        turns.waits().first(port)
    } else {
        None
    }
}

/// The move that takes somebody, if it is ready.
fn takes(store: &Store, who: Who, other: Who) -> Option<Move>
    requires valid { IsValid (world store.now) }
    ensures ready { IfSome result (λ m. IsReadyMove store.now m asks.Run) }
    ensures who { IfSome result (λ m. m.who ≡ who) }
{
    let m = Move {
        who,
        pick: Some(other),
    };
    if fk_calls::ready(store, &m, &Ask::Run) {
        return Some(m);
    }
    None
}
