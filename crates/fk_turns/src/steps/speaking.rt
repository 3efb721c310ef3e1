//! A client's Send or Over to a native server by one look, and the lists after it.
ghost use Rattle.std.specs.Prelude.{◌≡◌, false, None, Some, IfNone, IfSome, IsSome};
ghost use Rattle.fk_calls.specs.declared.calls.speaking.Spoken.TheVariants as spokens;
ghost use Rattle.fk_model.specs.declared.moves.Ask.TheVariants as asks;
ghost use Rattle.fk_model.specs.Places.{Path};
ghost use Rattle.fk_model.specs.Valid.{IsValid};
ghost use Rattle.fk_store.specs.Store.World.{world, place_of};
ghost use Rattle.fk_turns.specs.Moved.Kept.{AreKept};
ghost use Rattle.fk_turns.specs.Next.Goings.{run_of};
ghost use Rattle.fk_turns.specs.Next.Judgements.{IsEnded, IsHeardBy, IsReadyMove, IsStepTo};
ghost use Rattle.fk_turns.specs.Next.Speaking.{said_of, HasSpokenWords};
ghost use Rattle.fk_turns.specs.Next.Waiting.{standing, ComesAfter};
ghost use Rattle.fk_turns.specs.Steps.Speeches.{ComesSpoken};
ghost use Rattle.fk_plans.specs.declared.wakes.touching.Touched.TheVariants.{Few};

use crate::next::after;
use crate::steps::talking::{rest_talker, serves_nobody};
use fk_calls::Spoken;
use fk_model::Who;
use fk_plans::wakes::Touched;
use fk_store::Store;
use fk_waits::turns::Turns;

/// Makes the next stage of the user in a slot, where that is a Send or an Over to a native server, and keeps the lists. Who made it needn't go last. It declines
/// while anything is held, or somebody is marked whom any change may free; then all stays as it is.
#[inline(never)]
pub fn speak(store: &mut Store, turns: &mut Turns, who: Who) -> Option<Spoken>
    requires valid { IsValid (world store.old) }
    requires kept { AreKept store.old turns.old.waits turns.old.marks }
    ensures made { IfSome result (λ spoken. IsReadyMove store.old (run_of who) asks.Run × IsStepTo store.old (run_of who) asks.Run store.new
        (said_of store.new spoken)) }
    ensures ended { IsSome result → IsEnded store.old store.new None }
    ensures heard { IfSome result (λ spoken. IsHeardBy store.old store.new (said_of store.new spoken)) }
    ensures there { IfSome result (HasSpokenWords store.new) }
    ensures same { IfNone result (store.new ≡ store.old) }
    ensures valid { IsValid (world store.new) }
    ensures kept { AreKept store.new turns.new.waits turns.new.marks }
    ensures still { IfNone result (standing turns.new.waits ≡ standing turns.old.waits) }
{
    if store.is_any_held() {
        return None;
    }
    if !turns.marks_nobody() {
        return None;
    }
    store.names();
    let spoke = fk_calls::speak(store, who);
    // And so they do in the world that the stage leaves.
    store.names();
    match spoke {
        Some(spoken) => {
            after_speech(turns, store, who, spoken);
            Some(spoken)
        }
        None => None,
    }
}

/// The lists after it. By words nobody else may move that couldn't, nor by the turn, where nobody waits for who handed it over.
#[inline(always)]
fn after_speech(turns: &mut Turns, store: &Store, mover: Who, spoken: Spoken)
    requires valid { IsValid (world store.now) }
    requires comes { ComesSpoken store.now mover spoken turns.old.waits turns.old.marks }
    ensures { AreKept store.now turns.new.waits turns.new.marks }
{
    match spoken {
        Spoken::Words(_) => {}
        Spoken::Over { port } => after_yield(turns, store, mover, port),
    }
}

/// The lists after a turn that went to the native server of a port.
#[inline(always)]
fn after_yield(turns: &mut Turns, store: &Store, mover: Who, port: Who)
    requires valid { IsValid (world store.now) }
    requires comes { ComesSpoken store.now mover (spokens.Over port) turns.old.waits turns.old.marks }
    ensures { AreKept store.now turns.new.waits turns.new.marks }
{
    if !serves_nobody(store, mover) {
        after_own(turns, store, mover);
        return;
    }
    rest_talker(turns, store, mover);
}

/// The same as after any move that touches its own thread alone.
#[inline(never)]
fn after_own(turns: &mut Turns, store: &Store, mover: Who)
    requires valid { IsValid (world store.now) }
    requires comes { ComesAfter store.now mover (Few (Some mover) None None) turns.old.waits turns.old.marks }
    ensures { AreKept store.now turns.new.waits turns.new.marks }
{
    let touched = Touched::Few {
        first: Some(mover),
        second: None,
        third: None,
    };
    after(turns, store, mover, &touched);
}
