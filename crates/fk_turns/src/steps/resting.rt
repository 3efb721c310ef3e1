//! The lists after a stage that tells nothing. Whoever needn't go last, and touched nobody else, stands where it stood.
ghost use Rattle.std.specs.Prelude.{◌≡◌, [], true, false};
ghost use Rattle.std.specs.Bool.{OnTrue, OnFalse};
ghost use Rattle.fk_model.specs.Valid.{IsValid};
ghost use Rattle.fk_store.specs.Store.World.{world};
ghost use Rattle.fk_waits.specs.Waits.Lists.{is_queued};
ghost use Rattle.fk_turns.specs.Moved.Kept.{is_user_at, AreKept};
ghost use Rattle.fk_turns.specs.Moved.Moved.{now_named};
ghost use Rattle.fk_turns.specs.Next.Waiting.{standing, ComesAfter, IsPlaced};
ghost use Rattle.fk_turns.specs.Steps.Steps.{touches_only, IsCalm};

use crate::moved::is_user;
use crate::steps::plain::{after_plain, is_calm, touches_only};
use fk_model::Who;
use fk_plans::wakes::Touched;
use fk_store::Store;
use fk_waits::turns::Turns;

/// The lists after a stage, if it was made, of a thread that wasn't queued.
#[inline(never)]
pub fn after_silent_if(
    turns: &mut Turns,
    store: &Store,
    made: bool,
    mover: Who,
    touched: &Touched,
    stays: bool,
)
    requires valid { IsValid (world store.now) }
    requires comes { OnTrue made (ComesAfter store.now mover touched.now turns.old.waits turns.old.marks) }
    requires free { OnTrue made (is_queued mover turns.old.waits.queued ≡ false) }
    requires kept { OnFalse made (AreKept store.now turns.old.waits turns.old.marks) }
    ensures kept { AreKept store.now turns.new.waits turns.new.marks }
    ensures placed { OnTrue made (OnFalse stays (is_user_at store.now (now_named mover touched.now) ≡ true
        → IsPlaced store.now (standing turns.new.waits) (now_named mover touched.now))) }
    ensures still { OnFalse made (standing turns.new.waits ≡ standing turns.old.waits) }
{
    if made {
        after_silent(turns, store, mover, touched, stays);
    }
}

/// The lists after a stage of a thread that wasn't queued.
#[inline(always)]
fn after_silent(turns: &mut Turns, store: &Store, mover: Who, touched: &Touched, stays: bool)
    requires valid { IsValid (world store.now) }
    requires comes { ComesAfter store.now mover touched.now turns.old.waits turns.old.marks }
    requires free { is_queued mover turns.old.waits.queued ≡ false }
    ensures kept { AreKept store.now turns.new.waits turns.new.marks }
    ensures placed { OnFalse stays (is_user_at store.now (now_named mover touched.now) ≡ true
        → IsPlaced store.now (standing turns.new.waits) (now_named mover touched.now)) }
{
    if rests(turns, store, mover, touched, stays) {
        return;
    }
    after_plain(turns, store, mover, touched, false);
}

/// Who moved stays where it stands: it touched nobody else, and nobody is queued or marked whom any change may free.
#[inline(always)]
fn rests(turns: &Turns, store: &Store, mover: Who, touched: &Touched, stays: bool) -> bool
    ensures stays { OnTrue result (stays ≡ true) }
    ensures alone { OnTrue result (touches_only mover touched.now ≡ true) }
    ensures calm { OnTrue result (IsCalm turns.now.waits turns.now.marks) }
    ensures none { OnTrue result (turns.now.marks.ready ≡ []) }
    ensures user { OnTrue result (is_user_at store.now mover ≡ true) }
{
    if !stays {
        return false;
    }
    if !touches_only(mover, touched) {
        return false;
    }
    if !is_calm(turns) {
        return false;
    }
    if !turns.marks_nobody() {
        return false;
    }
    is_user(store, mover)
}
