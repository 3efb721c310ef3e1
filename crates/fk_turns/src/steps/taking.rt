//! Waits that take whoever is queued first at a port of their set, and the lists after them.
ghost use Rattle.std.specs.Prelude.{◌≡◌, None, Some, IfNone, IfSome, IsSome};
ghost use Rattle.std.specs.Bool.{OnTrue, OnFalse};
ghost use Rattle.fk_model.specs.declared.moves.Ask.TheVariants as asks;
ghost use Rattle.fk_model.specs.Valid.{IsValid};
ghost use Rattle.fk_store.specs.Store.World.{world};
ghost use Rattle.fk_turns.specs.Moved.Kept.{AreKept};
ghost use Rattle.fk_turns.specs.Next.Judgements.{IsEnded, IsReadyMove, IsStepTo};
ghost use Rattle.fk_turns.specs.Next.Signals.{picking};
ghost use Rattle.fk_turns.specs.Next.Waiting.{standing};
ghost use Rattle.fk_turns.specs.Steps.Steps.{IsPut};

use crate::next::first_to_take;
use crate::steps::room::seat_for;
use crate::steps::signalling::signal;
use crate::steps::steps::after_plain_if;
use fk_model::{Said, Who};
use fk_plans::wakes::Touched;
use fk_store::Store;
use fk_waits::turns::Turns;

/// Makes the signal or the wait of the user in a slot, where it is at one, with whoever is queued first at the condition or at a port of the set; and whom
/// it picks. Wherever it declines all stays as it is. Who stays and signals needn't go last.
pub fn pick(store: &mut Store, turns: &mut Turns, who: Who, stays: bool) -> Option<Who>
    requires valid { IsValid (world store.old) }
    requires kept { AreKept store.old turns.old.waits turns.old.marks }
    ensures made { IfSome result (λ other. IsReadyMove store.old (picking who other) asks.Run
        × IsStepTo store.old (picking who other) asks.Run store.new Said.Nothing) }
    ensures ended { IsSome result → IsEnded store.old store.new None }
    ensures same { IfNone result (store.new ≡ store.old) }
    ensures valid { IsValid (world store.new) }
    ensures kept { AreKept store.new turns.new.waits turns.new.marks }
    ensures placed { IfSome result (λ other. OnFalse stays (IsPut store.old (picking who other) asks.Run store.new (standing turns.new.waits))) }
    ensures still { IfNone result (standing turns.new.waits ≡ standing turns.old.waits) }
{
    match first_to_take(turns, store, who) {
        Some(other) => take_first(store, turns, who, other),
        None => signal(store, turns, who, stays),
    }
}

/// The same of a wait, by which this one is taken.
#[inline(never)]
fn take_first(store: &mut Store, turns: &mut Turns, who: Who, other: Who) -> Option<Who>
    requires valid { IsValid (world store.old) }
    requires kept { AreKept store.old turns.old.waits turns.old.marks }
    ensures made { IfSome result (λ other. IsReadyMove store.old (picking who other) asks.Run
        × IsStepTo store.old (picking who other) asks.Run store.new Said.Nothing) }
    ensures ended { IsSome result → IsEnded store.old store.new None }
    ensures same { IfNone result (store.new ≡ store.old) }
    ensures valid { IsValid (world store.new) }
    ensures kept { AreKept store.new turns.new.waits turns.new.marks }
    ensures placed { IfSome result (λ other. IsPut store.old (picking who other) asks.Run store.new (standing turns.new.waits)) }
    ensures still { IfNone result (standing turns.new.waits ≡ standing turns.old.waits) }
{
    if take(store, turns, who, other) {
        Some(other)
    } else {
        None
    }
}

/// The same; and whether it is made.
fn take(store: &mut Store, turns: &mut Turns, who: Who, other: Who) -> bool
    requires valid { IsValid (world store.old) }
    requires kept { AreKept store.old turns.old.waits turns.old.marks }
    ensures made { OnTrue result (IsReadyMove store.old (picking who other) asks.Run
        × IsStepTo store.old (picking who other) asks.Run store.new Said.Nothing) }
    ensures ended { OnTrue result (IsEnded store.old store.new None) }
    ensures same { OnFalse result (store.new ≡ store.old) }
    ensures valid { IsValid (world store.new) }
    ensures kept { AreKept store.new turns.new.waits turns.new.marks }
    ensures placed { OnTrue result (IsPut store.old (picking who other) asks.Run store.new (standing turns.new.waits)) }
    ensures still { OnFalse result (standing turns.new.waits ≡ standing turns.old.waits) }
{
    if !seat_for(turns, store, who) {
        return false;
    }
    store.names();
    let mut touched = Touched::Any;
    let made = fk_calls::take_up(store, who, Some(other), &mut touched);
    // And so they do in the world that the wait leaves.
    store.names();
    after_plain_if(turns, store, made, who, &touched, false);
    made
}
