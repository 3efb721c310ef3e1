//! Stages of users that take somebody, and faults that instructions raise, made without room for what moves tell: by none of them is anybody told anything.
ghost use Rattle.std.specs.Prelude.{◌≡◌, [], true, false, None};
ghost use Rattle.std.specs.Bool.{OnTrue, OnFalse};
ghost use Rattle.fk_model.specs.declared.moves.Ask.TheVariants as asks;
ghost use Rattle.fk_model.specs.declared.moves.Said.TheVariants as says;
ghost use Rattle.fk_model.specs.Moves.{allowed_row, closed, stepped};
ghost use Rattle.fk_model.specs.Outcomes.Said.{Nothing};
ghost use Rattle.fk_model.specs.Valid.{IsValid};
ghost use Rattle.fk_store.specs.Store.Moves.{picked_by};
ghost use Rattle.fk_store.specs.Store.Paths.{path, place};
ghost use Rattle.fk_store.specs.Store.Threads.{is_free_at};
ghost use Rattle.fk_store.specs.Store.World.{world, IsLive, IsSpace};
ghost use Rattle.fk_plans.specs.Wakes.Touches.{is_making};
ghost use Rattle.fk_plans.specs.Plans.Plans.{caller_by};
ghost use Rattle.fk_plans.specs.Plans.Verdicts.{outcome_by, IsSureVerdict, IsVerdict};
ghost use Rattle.fk_calls.specs.Calls.Doings.{IsAtStage};
ghost use Rattle.fk_calls.specs.Calls.Judgements.{IsEnded, IsJudged, IsReadyMove, IsStepTo, TellsTouched};
ghost use Rattle.fk_calls.specs.Calls.Rows.{takes_memory};

use crate::calls::rows;
use crate::calls::silent::{finish_silently, stage_of};
use fk_changes::readers::Caller;
use fk_changes::threads::{Four, end_well};
use fk_model::{Stage, Who};
use fk_plans::endings::ended_by;
use fk_plans::wakes::{Touched, touched_by_move};
use fk_plans::{Plan, Verdict, carry_all, is_ready};
use fk_store::Store;

/// Makes the next stage of the user in a slot with this pick, where that tells nobody of anything and is ready, and answers whether it did. Else, and
/// wherever it declines, all stays as it is: whether the move is ready then `attempt` tells.
pub fn take_up(store: &mut Store, who: Who, pick: Option<Who>, touched: &mut Touched) -> bool
    requires valid { IsValid (world store.old) }
    ensures made { OnTrue result (IsReadyMove store.old (record { who = who; pick = pick }) asks.Run
        × IsStepTo store.old (record { who = who; pick = pick }) asks.Run store.new says.Nothing) }
    ensures ended { OnTrue result (IsEnded store.old store.new None) }
    ensures touched { OnTrue result (TellsTouched store.old (record { who = who; pick = pick }) asks.Run touched.new) }
    ensures same { OnFalse result (store.new ≡ store.old) }
{
    match stage_of(store, who) {
        Some(stage) => take_stage(store, who, pick, &stage, touched),
        None => false,
    }
}

/// Makes this stage of a free user, the first of its call, with this pick, where that tells nobody of anything and is ready, and answers whether it
/// did.
#[inline(never)]
fn take_stage(
    store: &mut Store,
    who: Who,
    pick: Option<Who>,
    stage: &Stage,
    touched: &mut Touched,
) -> bool
    requires valid { IsValid (world store.old) }
    requires free { is_free_at (world store.old) (place (path store.old) who) ≡ true }
    requires space { IsSpace store.old who.space }
    requires at { IsAtStage (world store.old) (place (path store.old) who) stage.now }
    ensures made { OnTrue result (IsReadyMove store.old (record { who = who; pick = pick }) asks.Run
        × IsStepTo store.old (record { who = who; pick = pick }) asks.Run store.new says.Nothing) }
    ensures ended { OnTrue result (IsEnded store.old store.new None) }
    ensures touched { OnTrue result (TellsTouched store.old (record { who = who; pick = pick }) asks.Run touched.new) }
    ensures same { OnFalse result (store.new ≡ store.old) }
{
    let caller = Caller {
        who,
        is_porter: false,
    };
    match rows::judged(store, caller, &[], stage, pick) {
        Ok(verdict) => take_verdict(store, who, pick, stage, &verdict, touched),
        Err(_) => false,
    }
}

/// Makes a stage that is judged so, with this pick, where it is ready, and answers whether it did.
#[inline(always)]
fn take_verdict(
    store: &mut Store,
    who: Who,
    pick: Option<Who>,
    stage: &Stage,
    verdict: &Verdict,
    touched: &mut Touched,
) -> bool
    requires valid { IsValid (world store.old) }
    requires free { is_free_at (world store.old) (place (path store.old) who) ≡ true }
    requires space { IsSpace store.old who.space }
    requires at { IsAtStage (world store.old) (place (path store.old) who) stage.now }
    requires row { let c = caller_by (path store.old) (record { who = who; is_porter = false }) [] in
        outcome_by (world store.old) (path store.old) c verdict.now
        ≡ allowed_row (world store.old) c (picked_by (path store.old) pick) stage.now }
    requires fits { IsVerdict store.old (record { who = who; is_porter = false }) verdict.now }
    requires sure { takes_memory false stage.now ≡ false → IsSureVerdict verdict.now }
    ensures made { OnTrue result (IsReadyMove store.old (record { who = who; pick = pick }) asks.Run
        × IsStepTo store.old (record { who = who; pick = pick }) asks.Run store.new says.Nothing) }
    ensures ended { OnTrue result (IsEnded store.old store.new None) }
    ensures touched { OnTrue result (TellsTouched store.old (record { who = who; pick = pick }) asks.Run touched.new) }
    ensures same { OnFalse result (store.new ≡ store.old) }
{
    let caller = Caller {
        who,
        is_porter: false,
    };
    if !is_ready(store, caller, rows::chooses(stage), pick, verdict) {
        return false;
    }
    match ended_by(store, caller, verdict) {
        None => {
            *touched = touched_by_move(verdict);
            carry_taking(store, caller, verdict)
        }
        Some(_) => false,
    }
}

/// Carries out a verdict on a user's stage, where it tells nothing, and answers whether it did. For want of memory it doesn't.
#[inline(always)]
fn carry_taking(store: &mut Store, caller: Caller, verdict: &Verdict) -> bool
    requires user { caller.is_porter ≡ false }
    requires live { IsLive store.old caller.who }
    requires fits { IsVerdict store.old caller verdict.now }
    ensures step { OnTrue result (let c = caller_by (path store.old) caller [] in
        stepped (world store.old) (closed c (outcome_by (world store.old) (path store.old) c verdict.now))
        ≡ record { world = world store.new; said = Nothing }) }
    ensures same { OnFalse result (store.new ≡ store.old) }
{
    match verdict {
        Verdict::Done(plan, answers) => finish_silently(store, caller, plan, *answers),
        Verdict::Ends(plan, answers) => end_silently(store, caller, plan, *answers),
        _ => false,
    }
}

/// Does all of a plan, and then the caller's whole call ends well.
#[inline(always)]
fn end_silently(store: &mut Store, caller: Caller, plan: &Plan, answers: Four) -> bool
    requires user { caller.is_porter ≡ false }
    requires live { IsLive store.old caller.who }
    requires fits { IsVerdict store.old caller (Verdict.Ends plan.now answers) }
    ensures step { OnTrue result (let c = caller_by (path store.old) caller [] in
        stepped (world store.old) (closed c (outcome_by (world store.old) (path store.old) c (Verdict.Ends plan.now answers)))
        ≡ record { world = world store.new; said = Nothing }) }
    ensures same { OnFalse result (store.new ≡ store.old) }
{
    // A copy is handed on, so that the verdict needn't stand in memory.
    let copy = *plan;
    match carry_all(store, caller, &[], &copy) {
        Ok(()) => {
            end_well(store, caller.who, answers);
            true
        }
        Err(_) => false,
    }
}

/// Raises the fault of an instruction that is judged so, and answers whether it did.
#[inline(always)]
pub fn raise_judged(store: &mut Store, who: Who, verdict: &Verdict, touched: &mut Touched) -> bool
    requires valid { IsValid (world store.old) }
    requires judged { IsJudged store.old (record { who = who; pick = None }) asks.Run
        (record { caller = record { who = who; is_porter = false }; chooses = false; verdict = verdict.now }) }
    ensures made { OnTrue result (IsReadyMove store.old (record { who = who; pick = None }) asks.Run
        × IsStepTo store.old (record { who = who; pick = None }) asks.Run store.new says.Nothing) }
    ensures ended { OnTrue result (IsEnded store.old store.new None) }
    ensures touched { OnTrue result (TellsTouched store.old (record { who = who; pick = None }) asks.Run touched.new) }
    ensures few { OnTrue result (is_making touched.new ≡ false) }
    ensures same { OnFalse result (store.new ≡ store.old) }
{
    let caller = Caller {
        who,
        is_porter: false,
    };
    if !is_ready(store, caller, false, None, verdict) {
        return false;
    }
    store.names();
    match verdict {
        Verdict::Faults { page, write, port } => {
            *touched = touched_by_move(verdict);
            store.raise(who, *page, *write, *port);
            true
        }
        _ => false,
    }
}
