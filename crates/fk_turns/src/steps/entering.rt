//! The call that a running thread enters, and the lists after it.
ghost use Rattle.std.specs.Prelude.{◌≡◌, true, None};
ghost use Rattle.std.specs.Bool.{OnTrue, OnFalse};
ghost use Rattle.fk_model.specs.declared.moves.Ask.TheVariants as asks;
ghost use Rattle.fk_model.specs.Searches.{thread_at};
ghost use Rattle.fk_model.specs.Valid.{IsValid};
ghost use Rattle.fk_plans.specs.Plans.Effects.{is_running};
ghost use Rattle.fk_store.specs.Store.World.{world, place_of};
ghost use Rattle.fk_turns.specs.Next.Judgements.{IsEnded, IsReadyMove, IsStepTo};
ghost use Rattle.fk_turns.specs.Moved.Kept.{AreKept};
ghost use Rattle.fk_turns.specs.Next.Waiting.{standing};

use crate::steps::plain::after_entry;
use fk_model::{Said, Who};
use fk_store::Store;
use fk_waits::turns::Turns;

/// Enters the call at which the user in a slot is, where it runs and that is ready, and keeps the lists: it stands where it stood, unless others are to be
/// looked at. Else all stays as it is.
pub fn enter(store: &mut Store, turns: &mut Turns, who: Who) -> bool
    requires valid { IsValid (world store.old) }
    requires kept { AreKept store.old turns.old.waits turns.old.marks }
    ensures made { OnTrue result (IsReadyMove store.old (record { who = who; pick = None }) asks.Run
        × IsStepTo store.old (record { who = who; pick = None }) asks.Run store.new Said.Nothing) }
    ensures ended { OnTrue result (IsEnded store.old store.new None) }
    ensures ran { OnTrue result (is_running (thread_at (world store.old) (place_of store.old who)) ≡ true) }
    ensures same { OnFalse result (store.new ≡ store.old) }
    ensures valid { IsValid (world store.new) }
    ensures kept { AreKept store.new turns.new.waits turns.new.marks }
    ensures still { OnFalse result (standing turns.new.waits ≡ standing turns.old.waits) }
{
    store.names();
    let entered = fk_calls::enter(store, who);
    // And so they do in the world that it leaves.
    store.names();
    if !entered {
        return false;
    }
    after_entry(turns, store, who);
    true
}
