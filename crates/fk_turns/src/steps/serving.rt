//! Acts of native servers that are made by one look, and the lists after them.
ghost use Rattle.std.specs.Prelude.{◌≡◌, ◌≤◌, IfNone, IfSome, None, Some, length};
ghost use Rattle.std.specs.Bool.{OnTrue, OnFalse};
ghost use Rattle.fk_model.specs.declared.moves.Ask.TheVariants as asks;
ghost use Rattle.fk_model.specs.declared.moves.Said.TheVariants as says;
ghost use Rattle.fk_model.specs.declared.names.Who as whos_of;
ghost use Rattle.fk_model.specs.Valid.{IsValid};
ghost use Rattle.fk_store.specs.Store.World.{world};
ghost use Rattle.fk_turns.specs.Moved.Kept.{AreKept};
ghost use Rattle.fk_turns.specs.Next.Acted.{HasActed, HasGiven};
ghost use Rattle.fk_turns.specs.Next.Waiting.{standing, ComesAfter};
ghost use Rattle.fk_plans.specs.declared.wakes.touching.Touched.TheVariants.{Few};

use crate::steps::plain::after_plain;
use fk_calls::acts;
use fk_model::Who;
use fk_plans::wakes::Touched;
use fk_store::Store;
use fk_waits::turns::Turns;

/// Gives words of a port's native server to its client, where that is ready and the client has room, and tells how many; else all stays as it is, and
/// whether the act is ready the general way tells.
#[inline(never)]
pub fn give(store: &mut Store, turns: &mut Turns, port: Who, words: &[u64]) -> Option<u8>
    requires valid { IsValid (world store.old) }
    requires kept { AreKept store.old turns.old.waits turns.old.marks }
    requires few { length words.now ≤ 64 }
    ensures gave { IfSome result (λ count. (client : whos_of.Who) × HasGiven store.old store.new port client words.now count) }
    ensures same { IfNone result (store.new ≡ store.old) }
    ensures valid { IsValid (world store.new) }
    ensures kept { AreKept store.new turns.new.waits turns.new.marks }
    ensures still { IfNone result (standing turns.new.waits ≡ standing turns.old.waits) }
{
    store.names();
    let gave = acts::give(store, port, words);
    // And so they do in the world that the act leaves.
    store.names();
    match gave {
        Some(gave) => {
            after_act(turns, store, port, gave.client);
            Some(gave.count)
        }
        None => None,
    }
}

/// Hands the turn of a port's native server to its client, where that is ready; and whether it did. Else all stays as it is.
#[inline(never)]
pub fn pass(store: &mut Store, turns: &mut Turns, port: Who) -> bool
    requires valid { IsValid (world store.old) }
    requires kept { AreKept store.old turns.old.waits turns.old.marks }
    ensures passed { OnTrue result ((client : whos_of.Who) × HasActed store.old store.new port client asks.Over (says.Over port)) }
    ensures same { OnFalse result (store.new ≡ store.old) }
    ensures valid { IsValid (world store.new) }
    ensures kept { AreKept store.new turns.new.waits turns.new.marks }
    ensures still { OnFalse result (standing turns.new.waits ≡ standing turns.old.waits) }
{
    store.names();
    let passed = acts::pass(store, port);
    // And so they do in the world that the act leaves.
    store.names();
    match passed {
        Some(client) => {
            after_act(turns, store, port, client);
            true
        }
        None => false,
    }
}

/// The lists after an act of a port's server for a client.
fn after_act(turns: &mut Turns, store: &Store, port: Who, client: Who)
    requires valid { IsValid (world store.now) }
    requires comes { ComesAfter store.now port (Few (Some client) None None) turns.old.waits turns.old.marks }
    ensures kept { AreKept store.now turns.new.waits turns.new.marks }
{
    let touched = Touched::Few {
        first: Some(client),
        second: None,
        third: None,
    };
    after_plain(turns, store, port, &touched, false);
}
