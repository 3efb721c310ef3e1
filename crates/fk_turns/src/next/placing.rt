//! Where who moved stands.
ghost use Rattle.std.specs.Prelude.{◌≡◌, true, IfSome, IfNone, IsSome};
ghost use Rattle.fk_model.specs.declared.moves.Ask.TheVariants as asks;
ghost use Rattle.fk_model.specs.Valid.{IsValid};
ghost use Rattle.fk_store.specs.Store.World.{world, place_of};
ghost use Rattle.fk_turns.specs.Picks.Judgements.{IsReadyMove};
ghost use Rattle.fk_turns.specs.Moved.Kept.{is_user_at, AreKept};
ghost use Rattle.fk_turns.specs.Moved.Moved.{now_named};
ghost use Rattle.fk_turns.specs.Next.Waiting.{standing, ComesAfter, IsMoveReady, IsPlaced};

use crate::moved::{is_user, moved, settle_at};
use crate::next::looking::move_of;
use fk_model::{Ask, Move, Who};
use fk_plans::wakes::Touched;
use fk_store::Store;
use fk_waits::turns::Turns;

/// The lists after a move that touched this: who moved stands last of the ready where a move of it is ready, and else last of the queued. There was room for
/// what is made.
pub fn after(turns: &mut Turns, store: &Store, mover: Who, touched: &Touched)
    requires valid { IsValid (world store.now) }
    requires comes { ComesAfter store.now mover touched.now turns.old.waits turns.old.marks }
    ensures kept { AreKept store.now turns.new.waits turns.new.marks }
    ensures placed { is_user_at store.now (now_named mover touched.now) ≡ true
        → IsPlaced store.now (standing turns.new.waits) (now_named mover touched.now) }
{
    moved(turns, store, mover, touched);
    put(turns, store, name_now(mover, touched));
}

/// The name of who moved, after a move that touched this.
fn name_now(mover: Who, touched: &Touched) -> Who
    ensures { result ≡ now_named mover touched.now }
{
    match *touched {
        Touched::Moves { object, slot } => {
            if object == mover {
                return Who {
                    space: object.space,
                    slot,
                };
            }
            mover
        }
        Touched::Few { .. } | Touched::Makes { .. } | Touched::Any | Touched::Dies { .. } => mover,
    }
}

/// A user's thread stands last of the ready where a move of it is ready, and else last of the queued.
pub fn put(turns: &mut Turns, store: &Store, who: Who)
    requires valid { IsValid (world store.now) }
    requires kept { AreKept store.now turns.old.waits turns.old.marks }
    ensures kept { AreKept store.now turns.new.waits turns.new.marks }
    ensures placed { is_user_at store.now who ≡ true → IsPlaced store.now (standing turns.new.waits) who }
{
    if !is_user(store, who) {
        return;
    }
    match move_of(turns, store, who) {
        Ok(_) => turns.wake(who),
        Err(mutex) => settle_at(turns, store, who, mutex),
    }
}

/// A move of the user in a slot that is ready. It picks somebody where its stage asks for that.
pub fn ready_move(store: &Store, who: Who) -> Option<Move>
    requires valid { IsValid (world store.now) }
    ensures ready { IfSome result (λ m. IsReadyMove store.now m asks.Run) }
    ensures who { IfSome result (λ m. m.who ≡ who) }
    ensures up { IsSome result → IsMoveReady (world store.now) (place_of store.now who) }
    ensures none { IfNone result (IsMoveReady (world store.now) (place_of store.now who) → ⊥) }
{
    // Most objects are no thread that may move, and a judgement is large.
    if !fk_calls::may_move(store, who) {
        return None;
    }
    let m = Move { who, pick: None };
    if fk_calls::ready(store, &m, &Ask::Run) {
        return Some(m);
    }
    crate::picks::ready_pick(store, who)
}
