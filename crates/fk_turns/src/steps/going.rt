//! Stages that are made by one look, and the lists after them: what a stage did and what its thread is at then say where that one stands and who is looked
//! at, so that nobody is judged again.
ghost use Rattle.std.specs.Prelude.{◌≡◌, true, None};
ghost use Rattle.std.specs.Bool.{OnTrue, OnFalse};
ghost use Rattle.fk_model.specs.declared.moves.Ask.TheVariants as asks;
ghost use Rattle.fk_model.specs.Valid.{IsValid};
ghost use Rattle.fk_store.specs.Store.World.{world, place_of};
ghost use Rattle.fk_turns.specs.Moved.Kept.{is_user_at, AreKept};
ghost use Rattle.fk_turns.specs.Next.Goings.{run_of, IsSleeper, IsThen};
ghost use Rattle.fk_turns.specs.Next.Judgements.{IsEnded, IsReadyMove, IsStepTo};
ghost use Rattle.fk_turns.specs.Next.Runs.{is_under_way_at};
ghost use Rattle.fk_turns.specs.Next.Waiting.{standing, IsMoveReady, IsPlaced};
ghost use Rattle.fk_turns.specs.Steps.Classes.{is_made, ComesMildly};
ghost use Rattle.fk_turns.specs.Steps.Steps.{IsPut};

use crate::moved::settle_still;
use crate::next::put;
use crate::steps::plain::turns_on;
use crate::steps::steps::proceed_stage;
use crate::steps::talking::after_talk;
use crate::whys::asleep_at;
use fk_calls::{Then, Went, What};
use fk_model::{Said, Who};
use fk_store::Store;
use fk_waits::turns::Turns;

/// What came of a look at the user in a slot.
#[derive(Clone, Copy)]
pub enum Gone {
    /// Nothing was made: whether a move of it is ready the general way tells.
    Not,
    /// Nothing was made: no move of it is ready.
    Waits,
    /// A move was made.
    Made,
}

/// Makes the next stage of the user in a slot, where that is made by one look or tells nothing, and keeps the lists. Who stays needn't go last: where a
/// stage that is made by one look leaves it in its turn, or one that tells nothing touches nobody else, it stands where it stood.
#[inline(never)]
pub fn go_stage(store: &mut Store, turns: &mut Turns, who: Who, stays: bool) -> Gone
    requires valid { IsValid (world store.old) }
    requires kept { AreKept store.old turns.old.waits turns.old.marks }
    ensures made { OnTrue (is_made result) (IsReadyMove store.old (run_of who) asks.Run × IsStepTo store.old (run_of who) asks.Run store.new Said.Nothing) }
    ensures ended { OnTrue (is_made result) (IsEnded store.old store.new None) }
    ensures waits { result ≡ Gone.Waits → IsMoveReady (world store.old) (place_of store.old who) → ⊥ }
    ensures same { OnFalse (is_made result) (store.new ≡ store.old) }
    ensures valid { IsValid (world store.new) }
    ensures kept { AreKept store.new turns.new.waits turns.new.marks }
    ensures placed { OnFalse stays (OnTrue (is_made result) (IsPut store.old (run_of who) asks.Run store.new (standing turns.new.waits))) }
    ensures still { OnFalse (is_made result) (standing turns.new.waits ≡ standing turns.old.waits) }
{
    match go(store, turns, who, stays) {
        Gone::Not => go_silently(store, turns, who, stays),
        Gone::Waits => Gone::Waits,
        Gone::Made => Gone::Made,
    }
}

/// The same of a thread in the call with this code, which is a hint: nobody looks for one look's stage in a call on objects.
#[inline(always)]
pub fn go_call(store: &mut Store, turns: &mut Turns, who: Who, code: u64, stays: bool) -> Gone
    requires valid { IsValid (world store.old) }
    requires kept { AreKept store.old turns.old.waits turns.old.marks }
    ensures made { OnTrue (is_made result) (IsReadyMove store.old (run_of who) asks.Run × IsStepTo store.old (run_of who) asks.Run store.new Said.Nothing) }
    ensures ended { OnTrue (is_made result) (IsEnded store.old store.new None) }
    ensures waits { result ≡ Gone.Waits → IsMoveReady (world store.old) (place_of store.old who) → ⊥ }
    ensures same { OnFalse (is_made result) (store.new ≡ store.old) }
    ensures valid { IsValid (world store.new) }
    ensures kept { AreKept store.new turns.new.waits turns.new.marks }
    ensures placed { OnFalse stays (OnTrue (is_made result) (IsPut store.old (run_of who) asks.Run store.new (standing turns.new.waits))) }
    ensures still { OnFalse (is_made result) (standing turns.new.waits ≡ standing turns.old.waits) }
{
    if fk_calls::is_on_objects(code) {
        return go_silently(store, turns, who, stays);
    }
    go_stage(store, turns, who, stays)
}

/// The same of a stage that tells nothing, which is judged.
fn go_silently(store: &mut Store, turns: &mut Turns, who: Who, stays: bool) -> Gone
    requires valid { IsValid (world store.old) }
    requires kept { AreKept store.old turns.old.waits turns.old.marks }
    ensures made { OnTrue (is_made result) (IsReadyMove store.old (run_of who) asks.Run × IsStepTo store.old (run_of who) asks.Run store.new Said.Nothing) }
    ensures ended { OnTrue (is_made result) (IsEnded store.old store.new None) }
    ensures waits { result ≡ Gone.Waits → IsMoveReady (world store.old) (place_of store.old who) → ⊥ }
    ensures same { OnFalse (is_made result) (store.new ≡ store.old) }
    ensures valid { IsValid (world store.new) }
    ensures kept { AreKept store.new turns.new.waits turns.new.marks }
    ensures placed { OnFalse stays (OnTrue (is_made result) (IsPut store.old (run_of who) asks.Run store.new (standing turns.new.waits))) }
    ensures still { OnFalse (is_made result) (standing turns.new.waits ≡ standing turns.old.waits) }
{
    if proceed_stage(store, turns, who, stays) {
        return Gone::Made;
    }
    Gone::Not
}

/// The same of a stage that is made by one look. It declines while anything is held, or somebody is marked whom any change may free.
fn go(store: &mut Store, turns: &mut Turns, who: Who, stays: bool) -> Gone
    requires valid { IsValid (world store.old) }
    requires kept { AreKept store.old turns.old.waits turns.old.marks }
    ensures made { OnTrue (is_made result) (IsReadyMove store.old (run_of who) asks.Run × IsStepTo store.old (run_of who) asks.Run store.new Said.Nothing) }
    ensures ended { OnTrue (is_made result) (IsEnded store.old store.new None) }
    ensures waits { result ≡ Gone.Waits → IsMoveReady (world store.old) (place_of store.old who) → ⊥ }
    ensures same { OnFalse (is_made result) (store.new ≡ store.old) }
    ensures valid { IsValid (world store.new) }
    ensures kept { AreKept store.new turns.new.waits turns.new.marks }
    ensures placed { OnFalse stays (OnTrue (is_made result) (IsPut store.old (run_of who) asks.Run store.new (standing turns.new.waits))) }
    ensures still { OnFalse (is_made result) (standing turns.new.waits ≡ standing turns.old.waits) }
{
    if store.is_any_held() {
        return Gone::Not;
    }
    if !turns.marks_nobody() {
        return Gone::Not;
    }
    store.names();
    let went = fk_calls::go(store, who);
    // And so they do in the world that the stage leaves.
    store.names();
    match went {
        Went::Not => Gone::Not,
        Went::Waits => Gone::Waits,
        Went::Made { what, at } => {
            after_class(turns, store, who, what, at, stays);
            Gone::Made
        }
        Went::Talked { by } => {
            after_talk(turns, store, who, by, stays);
            Gone::Made
        }
    }
}

/// The lists after a stage that did this, after which its thread is there: first whom it may have freed is looked at again, and then the thread goes to its
/// place.
#[inline(always)]
fn after_class(turns: &mut Turns, store: &Store, mover: Who, what: What, at: Then, stays: bool)
    requires valid { IsValid (world store.now) }
    requires comes { ComesMildly store.now mover what turns.old.waits turns.old.marks }
    requires at { IsThen store.now mover at }
    ensures kept { AreKept store.now turns.new.waits turns.new.marks }
    ensures placed { OnFalse stays (IsPlaced store.now (standing turns.new.waits) mover) }
{
    rouse_by(turns, store, mover, what);
    match at {
        Then::Runs => go_last_unless(turns, store, mover, stays),
        Then::Asleep => go_to_sleep(turns, store, mover),
    }
}

/// Whom a stage that did this may have freed is ready. The thread that made it stands where it stood.
#[inline(always)]
fn rouse_by(turns: &mut Turns, store: &Store, mover: Who, what: What)
    requires comes { ComesMildly store.now mover what turns.old.waits turns.old.marks }
    requires user { is_user_at store.now mover ≡ true }
    ensures kept { AreKept store.now turns.new.waits turns.new.marks }
{
    match what {
        What::Locks { .. } => {}
        What::Unlocks { mutex } => turns.rouse_at(mutex),
        What::Sleeps { mutex, .. } => turns.rouse_at(mutex),
    }
}

/// A thread that runs goes from first to last, unless it stays.
#[inline(always)]
pub fn go_last_unless(turns: &mut Turns, store: &Store, mover: Who, stays: bool)
    requires valid { IsValid (world store.now) }
    requires kept { AreKept store.now turns.old.waits turns.old.marks }
    requires on { is_under_way_at store.now mover ≡ true }
    ensures kept { AreKept store.now turns.new.waits turns.new.marks }
    ensures placed { OnFalse stays (IsPlaced store.now (standing turns.new.waits) mover) }
{
    if !stays {
        go_last(turns, store, mover);
    }
}

/// A thread that runs goes from first to last.
#[inline(always)]
fn go_last(turns: &mut Turns, store: &Store, mover: Who)
    requires valid { IsValid (world store.now) }
    requires kept { AreKept store.now turns.old.waits turns.old.marks }
    requires on { is_under_way_at store.now mover ≡ true }
    ensures kept { AreKept store.now turns.new.waits turns.new.marks }
    ensures placed { IsPlaced store.now (standing turns.new.waits) mover }
{
    if turns_on(turns, store, mover) {
        return;
    }
    put(turns, store, mover);
}

/// A thread that sleeps is queued at its condition.
#[inline(always)]
fn go_to_sleep(turns: &mut Turns, store: &Store, mover: Who)
    requires valid { IsValid (world store.now) }
    requires kept { AreKept store.now turns.old.waits turns.old.marks }
    requires asleep { IsSleeper store.now mover }
    ensures kept { AreKept store.now turns.new.waits turns.new.marks }
    ensures placed { IsPlaced store.now (standing turns.new.waits) mover }
{
    let cond = asleep_at(store, mover);
    settle_still(turns, store, mover, cond);
}
