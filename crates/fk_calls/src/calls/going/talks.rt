//! Stages of talks in which a thread meets another: words that go from page to page, and a turn that is handed on.
ghost use Rattle.std.specs.Prelude.{◌≡◌, [], true, None};
ghost use Rattle.std.specs.Bool.{OnTrue};
ghost use Rattle.fk_model.specs.declared.moves.Ask.TheVariants as asks;
ghost use Rattle.fk_model.specs.Holds.{decider};
ghost use Rattle.fk_model.specs.Places.{Path};
ghost use Rattle.fk_model.specs.Valid.{IsValid};
ghost use Rattle.fk_model.specs.World.{apply};
ghost use Rattle.fk_model.specs.World.Change.{Alter};
ghost use Rattle.fk_model.specs.World.Edit.{Finish, PassTurn};
ghost use Rattle.fk_changes.specs.Threads.Answers.{came_answers};
ghost use Rattle.fk_store.specs.Store.Paths.{path, place};
ghost use Rattle.fk_store.specs.Store.Threads.{is_free_at};
ghost use Rattle.fk_store.specs.Store.World.{world};
ghost use Rattle.fk_calls.specs.Calls.Goings.{over_on, receive_on, run_of, sending, IsAtOrderly, WentTo};
ghost use Rattle.fk_calls.specs.Calls.Judgements.{IsReadyMove};

use crate::calls::going::{Talked, Went};
use fk_changes::readers::Caller;
use fk_changes::threads::{Answers, answered, finish};
use fk_model::{Turn, Who};
use fk_plans::move_words;
use fk_store::Store;
use fk_transfer::{Passage, awaits, handing, moving};

/// Sends words to a thread that receives them.
#[inline(always)]
pub fn send(store: &mut Store, who: Who, side: Turn, address: u64, count: u64) -> Went
    requires valid { IsValid (world store.old) }
    requires unheld { (q : Path) → decider (world store.old) q ≡ None }
    requires free { is_free_at (world store.old) (place (path store.old) who) ≡ true }
    requires at { IsAtOrderly (world store.old) (place (path store.old) who) (sending side address count) }
    ensures { WentTo store.old store.new who result }
{
    store.names();
    let caller = Caller {
        who,
        is_porter: false,
    };
    let Some(words) = moving(store, caller, side, address, count) else {
        return Went::Not;
    };
    move_words(store, caller, &words);
    Went::Talked {
        by: Talked::Sends {
            client: words.client,
            receiver: words.receiver,
            sender: words.sender,
        },
    }
}

/// Hands the turn to a thread that is at its Receive.
#[inline(always)]
pub fn over(store: &mut Store, who: Who, side: Turn) -> Went
    requires valid { IsValid (world store.old) }
    requires unheld { (q : Path) → decider (world store.old) q ≡ None }
    requires free { is_free_at (world store.old) (place (path store.old) who) ≡ true }
    requires at { IsAtOrderly (world store.old) (place (path store.old) who) (over_on side) }
    ensures { WentTo store.old store.new who result }
{
    store.names();
    let caller = Caller {
        who,
        is_porter: false,
    };
    let Some(handed) = handing(store, caller, side) else {
        return Went::Not;
    };
    hands(store, who, &handed);
    Went::Talked {
        by: Talked::Passes {
            client: handed.client,
            receiver: handed.receiver,
        },
    }
}

/// The Receive of a thread is done, the turn passes to it, and the stage of the thread is done that hands it over.
#[inline(always)]
fn hands(store: &mut Store, who: Who, handed: &Passage)
    ensures { world store.new ≡ apply (Alter (place (path store.old) who) (Finish []))
        (apply (Alter (place (path store.old) handed.now.client) (PassTurn handed.now.turn))
        (apply (Alter (place (path store.old) handed.now.receiver) (Finish (came_answers handed.now.came))) (world store.old))) }
{
    finish(store, handed.receiver, answered(handed.came));
    store.pass_turn(handed.client, handed.turn);
    finish(store, who, Answers::Nothing);
}

/// Whether words go from a thread to one that receives them.
#[inline(always)]
pub fn may_send(store: &Store, who: Who, side: Turn, address: u64, count: u64) -> bool
    requires valid { IsValid (world store.now) }
    requires unheld { (q : Path) → decider (world store.now) q ≡ None }
    requires free { is_free_at (world store.now) (place (path store.now) who) ≡ true }
    requires at { IsAtOrderly (world store.now) (place (path store.now) who) (sending side address count) }
    ensures { OnTrue result (IsReadyMove store.now (run_of who) asks.Run) }
{
    let caller = Caller {
        who,
        is_porter: false,
    };
    moving(store, caller, side, address, count).is_some()
}

/// Whether a turn goes from a thread to one that is at its Receive.
#[inline(always)]
pub fn may_pass(store: &Store, who: Who, side: Turn) -> bool
    requires valid { IsValid (world store.now) }
    requires unheld { (q : Path) → decider (world store.now) q ≡ None }
    requires free { is_free_at (world store.now) (place (path store.now) who) ≡ true }
    requires at { IsAtOrderly (world store.now) (place (path store.now) who) (over_on side) }
    ensures { OnTrue result (IsReadyMove store.now (run_of who) asks.Run) }
{
    let caller = Caller {
        who,
        is_porter: false,
    };
    handing(store, caller, side).is_some()
}

/// Of a Receive the thread makes nothing: it waits for the other end, or the general way tells why it needn't.
#[inline(always)]
pub fn receive(store: &Store, who: Who, side: Turn, into: u64, room: u64) -> Went
    requires valid { IsValid (world store.now) }
    requires free { is_free_at (world store.now) (place (path store.now) who) ≡ true }
    requires at { IsAtOrderly (world store.now) (place (path store.now) who) (receive_on side into room) }
    ensures { WentTo store.now store.now who result }
{
    let caller = Caller {
        who,
        is_porter: false,
    };
    if awaits(store, caller, side, into, room) {
        return Went::Waits;
    }
    Went::Not
}
