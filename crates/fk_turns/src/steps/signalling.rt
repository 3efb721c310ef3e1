//! Signals that are made by one look, and the lists after them: who is woken is looked at once, and nobody else is.
ghost use Rattle.std.specs.Prelude.{◌≡◌, true, None, IfNone, IfSome, IsSome};
ghost use Rattle.std.specs.Bool.{OnFalse};
ghost use Rattle.fk_model.specs.declared.moves.Ask.TheVariants as asks;
ghost use Rattle.fk_model.specs.Valid.{IsValid};
ghost use Rattle.fk_store.specs.Store.World.{world};
ghost use Rattle.fk_turns.specs.Moved.Kept.{is_user_at, AreKept};
ghost use Rattle.fk_turns.specs.Next.Judgements.{IsEnded, IsReadyMove, IsStepTo};
ghost use Rattle.fk_turns.specs.Next.Runs.{is_under_way_at};
ghost use Rattle.fk_turns.specs.Next.Signals.{picking};
ghost use Rattle.fk_turns.specs.Next.Waiting.{standing, IsPlaced};
ghost use Rattle.fk_turns.specs.Steps.Beside.{ComesBeside};
ghost use Rattle.fk_turns.specs.Steps.Steps.{IsPut};

use crate::moved::settle_at;
use crate::steps::going::go_last_unless;
use crate::whys::at_locked;
use fk_model::{Said, Who};
use fk_store::Store;
use fk_waits::turns::Turns;

/// Makes the signal of the user in a slot, where it is at one, by which whoever is queued first at the condition is woken; and whom it wakes. Wherever it
/// declines all stays as it is: so it does while anything is held, or somebody is marked whom any change may free. Who stays needn't go last.
#[inline(never)]
pub fn signal(store: &mut Store, turns: &mut Turns, who: Who, stays: bool) -> Option<Who>
    requires valid { IsValid (world store.old) }
    requires kept { AreKept store.old turns.old.waits turns.old.marks }
    ensures made { IfSome result (λ other. IsReadyMove store.old (picking who other) asks.Run
        × IsStepTo store.old (picking who other) asks.Run store.new Said.Nothing) }
    ensures ended { IsSome result → IsEnded store.old store.new None }
    ensures same { IfNone result (store.new ≡ store.old) }
    ensures valid { IsValid (world store.new) }
    ensures kept { AreKept store.new turns.new.waits turns.new.marks }
    ensures placed { IfSome result (λ other. OnFalse stays (IsPut store.old (picking who other) asks.Run store.new (standing turns.new.waits))) }
    ensures still { IfNone result (standing turns.new.waits ≡ standing turns.old.waits) }
{
    if store.is_any_held() {
        return None;
    }
    if !turns.marks_nobody() {
        return None;
    }
    let Some(cond) = fk_calls::signal_of(store, who) else {
        return None;
    };
    let Some(slot) = first_at(turns, who.space, cond) else {
        return None;
    };
    let other = Who {
        space: who.space,
        slot,
    };
    store.names();
    if !fk_calls::signal(store, who, cond, slot) {
        return None;
    }
    // And so they do in the world that the signal leaves.
    store.names();
    after_waking(turns, store, who, other, stays);
    Some(other)
}

/// The slot of who is queued first at a condition.
fn first_at(turns: &Turns, space: u32, cond: u64) -> Option<u8> {
    let Ok(slot) = u8::try_from(cond) else {
        return None;
    };
    let first = turns.waits().first(Who { space, slot })?;
    Some(first.slot)
}

/// The lists after a signal: who was woken is ready, or is queued at its mutex, and who signalled goes last, unless it stays.
#[inline(always)]
fn after_waking(turns: &mut Turns, store: &Store, mover: Who, other: Who, stays: bool)
    requires valid { IsValid (world store.now) }
    requires comes { ComesBeside store.now mover other turns.old.waits turns.old.marks }
    requires on { is_under_way_at store.now mover ≡ true }
    ensures kept { AreKept store.now turns.new.waits turns.new.marks }
    ensures placed { OnFalse stays (IsPlaced store.now (standing turns.new.waits) mover) }
{
    rise(turns, store, mover, other);
    rest_locked(turns, store, other);
    go_last_unless(turns, store, mover, stays);
}

/// A thread that another's move has changed is ready, and nobody else is looked at.
#[inline(always)]
pub fn rise(turns: &mut Turns, store: &Store, mover: Who, other: Who)
    requires comes { ComesBeside store.now mover other turns.old.waits turns.old.marks }
    requires user { is_user_at store.now mover ≡ true }
    ensures kept { AreKept store.now turns.new.waits turns.new.marks }
{
    turns.rise(other);
}

/// A thread that locks a mutex which is locked is queued there.
#[inline(always)]
fn rest_locked(turns: &mut Turns, store: &Store, who: Who)
    requires valid { IsValid (world store.now) }
    requires kept { AreKept store.now turns.old.waits turns.old.marks }
    requires user { is_user_at store.now who ≡ true }
    ensures kept { AreKept store.now turns.new.waits turns.new.marks }
{
    store.names();
    match at_locked(store, who) {
        Some(mutex) => settle_at(turns, store, who, Some(mutex)),
        None => {}
    }
}
