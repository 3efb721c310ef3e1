//! Who can't move.
ghost use Rattle.std.specs.Prelude.{◌≡◌, true, Option, IfSome};
ghost use Rattle.fk_model.specs.declared.moves.Ask.TheVariants as asks;
ghost use Rattle.fk_model.specs.Moves.{IsReady};
ghost use Rattle.fk_model.specs.Places.{Path};
ghost use Rattle.fk_model.specs.Valid.{IsValid};
ghost use Rattle.fk_store.specs.Store.Paths.{path};
ghost use Rattle.fk_store.specs.Store.World.{world, place_of};
ghost use Rattle.fk_turns.specs.Whys.Causes.{cause_at};
ghost use Rattle.fk_turns.specs.Whys.Whys.{IsAt, IsLoudly, IsStill, IsWhy};
ghost use Rattle.fk_turns.specs.Moved.Kept.{is_user_at, AreKept};
ghost use Rattle.fk_turns.specs.Moved.Settled as settled;
ghost use Rattle.fk_turns.specs.Moved.Settled.{IsSettled};

use crate::whys::{Why, cause, reason};
use fk_model::Who;
use fk_store::Store;
use fk_waits::turns::{Mark, Turns};

/// A user's thread of which no move is ready is queued at what it waits for, last of all.
#[tactic(auto, using(crate::proofs::InMoved::Settled::user_live))]
pub fn settle(turns: &mut Turns, store: &Store, who: Who)
    requires valid { IsValid (world store.now) }
    requires kept { AreKept store.now turns.old.waits turns.old.marks }
    requires user { is_user_at store.now who ≡ true }
    requires unready { (pick : Option Path) → IsReady (world store.now) (place_of store.now who) pick asks.Run → ⊥ }
    ensures kept { AreKept store.now turns.new.waits turns.new.marks }
    ensures settled { IsSettled store.now who turns.old.waits turns.new.waits }
{
    let cause = cause(store, who);
    let why = reason(store, who);
    settle_for(turns, store, who, cause, why);
}

/// The same, where the locked mutex may be told at which it waits.
pub fn settle_at(turns: &mut Turns, store: &Store, who: Who, mutex: Option<Who>)
    requires valid { IsValid (world store.now) }
    requires kept { AreKept store.now turns.old.waits turns.old.marks }
    requires user { is_user_at store.now who ≡ true }
    requires unready { (pick : Option Path) → IsReady (world store.now) (place_of store.now who) pick asks.Run → ⊥ }
    requires why { IfSome mutex (λ key. IsAt (world store.now) (place_of store.now who) (place_of store.now key)) }
    requires cause { IfSome mutex (λ key. place_of store.now key ≡ cause_at (world store.now) (place_of store.now who)) }
    ensures kept { AreKept store.now turns.new.waits turns.new.marks }
    ensures settled { IsSettled store.now who turns.old.waits turns.new.waits }
{
    match mutex {
        Some(key) => settle_for(turns, store, who, key, Why::At { key }),
        None => settle(turns, store, who),
    }
}

/// The same at this cause, where any move of another may end why no move of it is ready.
pub fn settle_loud(turns: &mut Turns, store: &Store, who: Who, cause: Who)
    requires valid { IsValid (world store.now) }
    requires kept { AreKept store.now turns.old.waits turns.old.marks }
    requires user { is_user_at store.now who ≡ true }
    requires why { IsLoudly (world store.now) (place_of store.now who) }
    requires cause { place_of store.now cause ≡ cause_at (world store.now) (place_of store.now who) }
    ensures kept { AreKept store.now turns.new.waits turns.new.marks }
    ensures settled { IsSettled store.now who turns.old.waits turns.new.waits }
    ensures unready { (pick : Option Path) → IsReady (world store.now) (place_of store.now who) pick asks.Run → ⊥ }
{
    store.names();
    settle_for(turns, store, who, cause, Why::Loud);
}

/// The same, where what it waits for may be told, and nothing else but what touches itself ends that.
pub fn settle_still(turns: &mut Turns, store: &Store, who: Who, cause: Option<Who>)
    requires valid { IsValid (world store.now) }
    requires kept { AreKept store.now turns.old.waits turns.old.marks }
    requires user { is_user_at store.now who ≡ true }
    requires unready { (pick : Option Path) → IsReady (world store.now) (place_of store.now who) pick asks.Run → ⊥ }
    requires why { IfSome cause (λ key. IsStill (world store.now) (place_of store.now who)) }
    requires cause { IfSome cause (λ key. place_of store.now key ≡ cause_at (world store.now) (place_of store.now who)) }
    ensures kept { AreKept store.now turns.new.waits turns.new.marks }
    ensures settled { IsSettled store.now who turns.old.waits turns.new.waits }
{
    match cause {
        Some(key) => settle_for(turns, store, who, key, Why::Still),
        None => settle(turns, store, who),
    }
}

/// The same at this cause, where it is known why no move of it is ready.
fn settle_for(turns: &mut Turns, store: &Store, who: Who, cause: Who, why: Why)
    requires kept { AreKept store.now turns.old.waits turns.old.marks }
    requires user { is_user_at store.now who ≡ true }
    requires unready { (pick : Option Path) → IsReady (world store.now) (place_of store.now who) pick asks.Run → ⊥ }
    requires why { IsWhy (world store.now) (path store.now) (place_of store.now who) why }
    requires cause { place_of store.now cause ≡ cause_at (world store.now) (place_of store.now who) }
    ensures kept { AreKept store.now turns.new.waits turns.new.marks }
    ensures settled { IsSettled store.now who turns.old.waits turns.new.waits }
{
    let mark = mark_of(why);
    turns.park(who, cause, mark);
}

/// How a thread is marked.
fn mark_of(why: Why) -> Mark
    ensures { result ≡ settled.mark_of why }
{
    match why {
        Why::Still => Mark::Own,
        Why::At { key } => Mark::At { key },
        Why::Loud => Mark::Loud,
        Why::Barred => Mark::Any,
    }
}
