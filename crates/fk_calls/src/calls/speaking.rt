//! A client's Send or Over to a native server by one look: words stay in their page, where the server reads them.
ghost use Rattle.std.specs.Prelude.{◌≡◌, true, None, IfNone, IfSome, IsSome};
ghost use Rattle.fk_model.specs.declared.moves.Ask.TheVariants as asks;
ghost use Rattle.fk_model.specs.Holds.{decider};
ghost use Rattle.fk_model.specs.Places.{Path};
ghost use Rattle.fk_model.specs.Valid.{IsValid};
ghost use Rattle.fk_model.specs.World.{apply, apply_all};
ghost use Rattle.fk_model.specs.World.Change.{Alter};
ghost use Rattle.fk_model.specs.World.Edit.{CountMoved};
ghost use Rattle.fk_changes.specs.Threads.Shifted.{IsLow};
ghost use Rattle.fk_store.specs.Store.Paths.{path, place};
ghost use Rattle.fk_store.specs.Store.Threads.{is_free_at};
ghost use Rattle.fk_store.specs.Store.World.{world};
ghost use Rattle.fk_calls.specs.Calls.Goings.{run_of, IsAtOrderly};
ghost use Rattle.fk_calls.specs.Calls.Judgements.{IsEnded, IsHeardBy, IsReadyMove, IsStepTo, TellsTouched};
ghost use Rattle.fk_calls.specs.Calls.Speaking.{said_of, told_changes, touched_by, yielded_changes, HasSpeech, HasSpokenWords, SpokeTo};

use crate::acts::moves::own_path;
use crate::calls::going::stage_here;
use fk_changes::readers::Caller;
use fk_changes::threads::{Answers, advance, count_moved, finish};
use fk_model::{Stage, Turn, Who};
use fk_plans::Words;
use fk_store::Store;
use fk_transfer::{Telling, speaking, yielding};

/// What a native server is told by a stage of its client.
#[derive(Clone, Copy)]
pub enum Spoken {
    /// These words of a page.
    Words(Words),
    /// That the turn is its own.
    Over { port: Who },
}

/// Makes the next stage of the user in a slot, where that is a Send or an Over to a native server and is ready, and tells what its server hears. Nothing is
/// held. Wherever it declines all stays as it is.
pub fn speak(store: &mut Store, who: Who) -> Option<Spoken>
    requires valid { IsValid (world store.old) }
    requires unheld { (q : Path) → decider (world store.old) q ≡ None }
    ensures made { IfSome result (λ spoken. IsReadyMove store.old (run_of who) asks.Run × IsStepTo store.old (run_of who) asks.Run store.new
        (said_of store.new spoken)) }
    ensures ended { IsSome result → IsEnded store.old store.new None }
    ensures heard { IfSome result (λ spoken. IsHeardBy store.old store.new (said_of store.new spoken)) }
    ensures there { IfSome result (HasSpokenWords store.new) }
    ensures touched { IfSome result (λ spoken. TellsTouched store.old (run_of who) asks.Run (touched_by who spoken)) }
    ensures row { IfSome result (HasSpeech store.old who) }
    ensures same { IfNone result (store.new ≡ store.old) }
{
    speak_at(store, who)
}

/// The same, with all that it comes to in one clause.
#[inline(always)]
fn speak_at(store: &mut Store, who: Who) -> Option<Spoken>
    requires valid { IsValid (world store.old) }
    requires unheld { (q : Path) → decider (world store.old) q ≡ None }
    ensures { SpokeTo store.old store.new who result }
{
    let Some(stage) = stage_here(store, who) else {
        return None;
    };
    match stage {
        Stage::ClientSend { addr, count } => tell(store, who, addr, count),
        Stage::ClientOver => hand(store, who),
        _ => None,
    }
}

/// Sends words of a page.
#[inline(always)]
fn tell(store: &mut Store, who: Who, address: u64, count: u64) -> Option<Spoken>
    requires valid { IsValid (world store.old) }
    requires unheld { (q : Path) → decider (world store.old) q ≡ None }
    requires free { is_free_at (world store.old) (place (path store.old) who) ≡ true }
    requires at { IsAtOrderly (world store.old) (place (path store.old) who) (Stage.ClientSend address count) }
    ensures { SpokeTo store.old store.new who result }
{
    store.names();
    let caller = Caller {
        who,
        is_porter: false,
    };
    let Some(told) = speaking(store, caller, address, count) else {
        return None;
    };
    own_path(store, told.words.port);
    tells(store, who, &told);
    Some(Spoken::Words(told.words))
}

/// So many words have moved, and with the last of them the stage is done.
#[inline(always)]
fn tells(store: &mut Store, who: Who, told: &Telling)
    requires low { IsLow (apply (Alter (place (path store.old) who) (CountMoved told.now.words.count)) (world store.old)) (place (path store.old) who)
        told.now.words.count }
    ensures world { world store.new ≡ apply_all (told_changes (place (path store.old) who) told.now.words.count told.now.last) (world store.old) }
    ensures paths { path store.new ≡ path store.old }
{
    count_moved(store, who, told.words.count);
    advance(store, who, u64::from(told.words.count));
    if told.last {
        finish(store, who, Answers::Nothing);
    }
}

/// Hands over the turn.
#[inline(always)]
fn hand(store: &mut Store, who: Who) -> Option<Spoken>
    requires valid { IsValid (world store.old) }
    requires unheld { (q : Path) → decider (world store.old) q ≡ None }
    requires free { is_free_at (world store.old) (place (path store.old) who) ≡ true }
    requires at { IsAtOrderly (world store.old) (place (path store.old) who) Stage.ClientOver }
    ensures { SpokeTo store.old store.new who result }
{
    store.names();
    let caller = Caller {
        who,
        is_porter: false,
    };
    let Some(port) = yielding(store, caller) else {
        return None;
    };
    own_path(store, port);
    yields(store, who);
    Some(Spoken::Over { port })
}

/// The turn of a client is the server's, and the stage is done that handed it over.
#[inline(always)]
fn yields(store: &mut Store, who: Who)
    ensures world { world store.new ≡ apply_all (yielded_changes (place (path store.old) who)) (world store.old) }
    ensures paths { path store.new ≡ path store.old }
{
    store.pass_turn(who, Turn::Server);
    finish(store, who, Answers::Nothing);
}
