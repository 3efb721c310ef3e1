//! Whether a user can move.
ghost use Rattle.std.specs.Prelude.{◌≡◌, IfOk, IfErr, IfSome, OnOk, OnErr};
ghost use Rattle.fk_model.specs.declared.moves.Ask.TheVariants as asks;
ghost use Rattle.fk_model.specs.Valid.{IsValid};
ghost use Rattle.fk_store.specs.Store.World.{world, place_of};
ghost use Rattle.fk_turns.specs.Picks.Judgements.{IsReadyMove};
ghost use Rattle.fk_turns.specs.Whys.Causes.{cause_at};
ghost use Rattle.fk_turns.specs.Whys.Whys.{IsAt};
ghost use Rattle.fk_turns.specs.Next.Waiting.{IsMoveReady};

use crate::next::taking::likely_move;
use crate::whys::at_locked;
use fk_model::{Move, Who};
use fk_store::Store;
use fk_waits::turns::Turns;

/// A move of the user in a slot that is ready. Where none is, the locked mutex may be told at which it waits.
///
/// # Errors
///
/// No move of it is ready. It is queued at the locked mutex, if there is one.
pub fn move_of(turns: &Turns, store: &Store, who: Who) -> Result<Move, Option<Who>>
    requires valid { IsValid (world store.now) }
    ensures ready { IfOk result (λ m. IsReadyMove store.now m asks.Run) }
    ensures who { IfOk result (λ m. m.who ≡ who) }
    ensures up { OnOk result (IsMoveReady (world store.now) (place_of store.now who)) }
    ensures why { IfErr result (λ mutex. IfSome mutex (λ key. IsAt (world store.now) (place_of store.now who) (place_of store.now key))) }
    ensures cause { IfErr result (λ mutex. IfSome mutex (λ key. place_of store.now key ≡ cause_at (world store.now) (place_of store.now who))) }
    ensures none { OnErr result (IsMoveReady (world store.now) (place_of store.now who) → ⊥) }
{
    store.names();
    // Most that are looked at in vain are at a mutex, which needs no judgement.
    match at_locked(store, who) {
        Some(mutex) => Err(Some(mutex)),
        None => judged(turns, store, who),
    }
}

/// The same by a judgement.
fn judged(turns: &Turns, store: &Store, who: Who) -> Result<Move, Option<Who>>
    requires valid { IsValid (world store.now) }
    ensures ready { IfOk result (λ m. IsReadyMove store.now m asks.Run) }
    ensures who { IfOk result (λ m. m.who ≡ who) }
    ensures up { OnOk result (IsMoveReady (world store.now) (place_of store.now who)) }
    ensures why { IfErr result (λ mutex. IfSome mutex (λ key. IsAt (world store.now) (place_of store.now who) (place_of store.now key))) }
    ensures cause { IfErr result (λ mutex. IfSome mutex (λ key. place_of store.now key ≡ cause_at (world store.now) (place_of store.now who))) }
    ensures none { OnErr result (IsMoveReady (world store.now) (place_of store.now who) → ⊥) }
{
    match likely_move(turns, store, who) {
        Some(m) => Ok(m),
        None => Err(None),
    }
}
