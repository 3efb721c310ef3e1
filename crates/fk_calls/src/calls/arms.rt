//! Stages on states, pages and faults, each made by a function of its own, in which its row alone stands, so that no verdict is handed on.
ghost use Rattle.std.specs.Prelude.{◌≡◌, true, None};
ghost use Rattle.std.specs.Bool.{OnTrue, OnFalse};
ghost use Rattle.fk_model.specs.declared.moves.Ask.TheVariants as asks;
ghost use Rattle.fk_model.specs.declared.moves.Said.TheVariants as says;
ghost use Rattle.fk_model.specs.Valid.{IsValid};
ghost use Rattle.fk_store.specs.Store.Paths.{path, place};
ghost use Rattle.fk_store.specs.Store.Threads.{is_free_at};
ghost use Rattle.fk_store.specs.Store.World.{world, IsSpace};
ghost use Rattle.fk_calls.specs.Calls.Doings.{IsAtStage};
ghost use Rattle.fk_calls.specs.Calls.Judgements.{IsEnded, IsReadyMove, IsStepTo, TellsTouched};

use crate::calls::rows;
use crate::calls::silent::make_verdict;
use fk_changes::readers::Caller;
use fk_changes::threads::Answers;
use fk_model::{Stage, Who};
use fk_plans::wakes::Touched;
use fk_plans::{Deed, Plan, Verdict};
use fk_store::Store;

/// Makes the stage of a free user that shows the state of an object.
#[inline(never)]
pub fn make_show(
    store: &mut Store,
    who: Who,
    s: u64,
    x: u64,
    addr: u64,
    touched: &mut Touched,
) -> bool
    requires valid { IsValid (world store.old) }
    requires free { is_free_at (world store.old) (place (path store.old) who) ≡ true }
    requires space { IsSpace store.old who.space }
    requires at { IsAtStage (world store.old) (place (path store.old) who) (Stage.GetState s x addr) }
    ensures made { OnTrue result (IsReadyMove store.old (record { who = who; pick = None }) asks.Run
        × IsStepTo store.old (record { who = who; pick = None }) asks.Run store.new says.Nothing) }
    ensures ended { OnTrue result (IsEnded store.old store.new None) }
    ensures touched { OnTrue result (TellsTouched store.old (record { who = who; pick = None }) asks.Run touched.new) }
    ensures same { OnFalse result (store.new ≡ store.old) }
{
    let caller = Caller {
        who,
        is_porter: false,
    };
    let stage = Stage::GetState { s, x, addr };
    match rows::judged(store, caller, &[], &stage, None) {
        Ok(Verdict::Done(Plan::One(Deed::Records { object, to, at }), Answers::Nothing)) => {
            let plan = Plan::One(Deed::Records { object, to, at });
            let verdict = Verdict::Done(plan, Answers::Nothing);
            make_verdict(store, who, &stage, &verdict, touched)
        }
        _ => false,
    }
}

/// Makes the stage of a free user that gives a space a page.
#[inline(never)]
pub fn make_give(
    store: &mut Store,
    who: Who,
    s: u64,
    page: u64,
    addr: u64,
    touched: &mut Touched,
) -> bool
    requires valid { IsValid (world store.old) }
    requires free { is_free_at (world store.old) (place (path store.old) who) ≡ true }
    requires space { IsSpace store.old who.space }
    requires at { IsAtStage (world store.old) (place (path store.old) who) (Stage.PageGive s page addr) }
    ensures made { OnTrue result (IsReadyMove store.old (record { who = who; pick = None }) asks.Run
        × IsStepTo store.old (record { who = who; pick = None }) asks.Run store.new says.Nothing) }
    ensures ended { OnTrue result (IsEnded store.old store.new None) }
    ensures touched { OnTrue result (TellsTouched store.old (record { who = who; pick = None }) asks.Run touched.new) }
    ensures same { OnFalse result (store.new ≡ store.old) }
{
    let caller = Caller {
        who,
        is_porter: false,
    };
    let stage = Stage::PageGive { s, page, addr };
    match rows::judged(store, caller, &[], &stage, None) {
        Ok(
            Verdict::Done(
                Plan::Gives {
                    space,
                    page,
                    source,
                },
                Answers::Nothing,
            ),
        ) => {
            let plan = Plan::Gives {
                space,
                page,
                source,
            };
            let verdict = Verdict::Done(plan, Answers::Nothing);
            make_verdict(store, who, &stage, &verdict, touched)
        }
        _ => false,
    }
}

/// Makes the stage of a free user that takes a page of a space.
#[inline(never)]
pub fn make_take(
    store: &mut Store,
    who: Who,
    s: u64,
    page: u64,
    addr: u64,
    touched: &mut Touched,
) -> bool
    requires valid { IsValid (world store.old) }
    requires free { is_free_at (world store.old) (place (path store.old) who) ≡ true }
    requires space { IsSpace store.old who.space }
    requires at { IsAtStage (world store.old) (place (path store.old) who) (Stage.PageTake s page addr) }
    ensures made { OnTrue result (IsReadyMove store.old (record { who = who; pick = None }) asks.Run
        × IsStepTo store.old (record { who = who; pick = None }) asks.Run store.new says.Nothing) }
    ensures ended { OnTrue result (IsEnded store.old store.new None) }
    ensures touched { OnTrue result (TellsTouched store.old (record { who = who; pick = None }) asks.Run touched.new) }
    ensures same { OnFalse result (store.new ≡ store.old) }
{
    let caller = Caller {
        who,
        is_porter: false,
    };
    let stage = Stage::PageTake { s, page, addr };
    match rows::judged(store, caller, &[], &stage, None) {
        Ok(
            Verdict::Done(
                Plan::Two(Deed::Copies { from, to }, Deed::Drops { space, page }),
                Answers::Nothing,
            ),
        ) => {
            let plan = Plan::Two(Deed::Copies { from, to }, Deed::Drops { space, page });
            let verdict = Verdict::Done(plan, Answers::Nothing);
            make_verdict(store, who, &stage, &verdict, touched)
        }
        _ => false,
    }
}

/// Makes the stage of a free user that ends the fault which it has taken.
#[inline(never)]
pub fn make_end(store: &mut Store, who: Who, touched: &mut Touched) -> bool
    requires valid { IsValid (world store.old) }
    requires free { is_free_at (world store.old) (place (path store.old) who) ≡ true }
    requires space { IsSpace store.old who.space }
    requires at { IsAtStage (world store.old) (place (path store.old) who) Stage.FaultDone }
    ensures made { OnTrue result (IsReadyMove store.old (record { who = who; pick = None }) asks.Run
        × IsStepTo store.old (record { who = who; pick = None }) asks.Run store.new says.Nothing) }
    ensures ended { OnTrue result (IsEnded store.old store.new None) }
    ensures touched { OnTrue result (TellsTouched store.old (record { who = who; pick = None }) asks.Run touched.new) }
    ensures same { OnFalse result (store.new ≡ store.old) }
{
    let caller = Caller {
        who,
        is_porter: false,
    };
    let stage = Stage::FaultDone;
    match rows::judged(store, caller, &[], &stage, None) {
        Ok(Verdict::Done(Plan::One(Deed::Frees { thread }), Answers::Nothing)) => {
            let plan = Plan::One(Deed::Frees { thread });
            let verdict = Verdict::Done(plan, Answers::Nothing);
            make_verdict(store, who, &stage, &verdict, touched)
        }
        _ => false,
    }
}
