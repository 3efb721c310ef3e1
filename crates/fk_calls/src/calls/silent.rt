//! Stages of users by which nobody is told anything and no native server loses its client, made without room for what moves tell. Most
//! calls on objects, spaces and pages are so.
ghost use Rattle.std.specs.Prelude.{◌≡◌, [], true, false, None, IsSome, IfSome};
ghost use Rattle.std.specs.Bool.{OnTrue, OnFalse};
ghost use Rattle.fk_model.specs.declared.moves.Ask.TheVariants as asks;
ghost use Rattle.fk_model.specs.declared.moves.Said.TheVariants as says;
ghost use Rattle.fk_model.specs.Moves.{allowed_row, closed, stepped};
ghost use Rattle.fk_model.specs.ObjectRows.{told_with};
ghost use Rattle.fk_model.specs.Outcomes.Said.{Nothing};
ghost use Rattle.fk_model.specs.Places.{same_path};
ghost use Rattle.fk_model.specs.Valid.{IsValid};
ghost use Rattle.fk_store.specs.Store.Moves.{picked_by};
ghost use Rattle.fk_store.specs.Store.Paths.{path, place};
ghost use Rattle.fk_store.specs.Store.Threads.{is_free_at};
ghost use Rattle.fk_store.specs.Store.World.{world, IsLive, IsSpace};
ghost use Rattle.fk_plans.specs.Plans.Destroys.{destroyed, IsDying};
ghost use Rattle.fk_plans.specs.Plans.Plans.{caller_by};
ghost use Rattle.fk_plans.specs.Plans.Renames.{renames, IsMoving};
ghost use Rattle.fk_plans.specs.Plans.Verdicts.{outcome_by, IsSureVerdict, IsVerdict};
ghost use Rattle.fk_calls.specs.Calls.Doings.{IsAtStage};
ghost use Rattle.fk_calls.specs.Calls.Judgements.{IsEnded, IsReadyMove, IsStepTo, TellsTouched};
ghost use Rattle.fk_calls.specs.Calls.Rows.{takes_memory};

use crate::calls::arms::{make_end, make_give, make_show, make_take};
use crate::calls::codes::is_on_objects;
use crate::calls::doing::{Doing, next_of};
use crate::calls::judging::free_user;
use crate::calls::rows;
use fk_changes::deaths::told_port;
use fk_changes::readers::Caller;
use fk_changes::threads::{Answers, finish};
use fk_model::{Stage, Who};
use fk_plans::endings::ended_by;
use fk_plans::wakes::{Touched, touched_by_move};
use fk_plans::{Plan, Verdict, carry_all, is_ready};
use fk_store::Store;

/// Makes the next stage of the user in a slot, where that is such a one and ready, and answers whether it did. Else, and wherever it declines, all stays
/// as it is: whether the move is ready then `attempt` tells.
pub fn stage(store: &mut Store, who: Who, touched: &mut Touched) -> bool
    requires valid { IsValid (world store.old) }
    ensures made { OnTrue result (IsReadyMove store.old (record { who = who; pick = None }) asks.Run
        × IsStepTo store.old (record { who = who; pick = None }) asks.Run store.new says.Nothing) }
    ensures ended { OnTrue result (IsEnded store.old store.new None) }
    ensures touched { OnTrue result (TellsTouched store.old (record { who = who; pick = None }) asks.Run touched.new) }
    ensures same { OnFalse result (store.new ≡ store.old) }
{
    // Nobody else is judged for it.
    match silent_stage(store, who) {
        Some(stage) => make_stage(store, who, &stage, touched),
        None => false,
    }
}

/// The next stage of the free user in a slot, where that may be such a one.
#[inline(always)]
fn silent_stage(store: &Store, who: Who) -> Option<Stage>
    ensures free { IsSome result → is_free_at (world store.now) (place (path store.now) who) ≡ true }
    ensures space { IsSome result → IsSpace store.now who.space }
    ensures at { IfSome result (λ stage. IsAtStage (world store.now) (place (path store.now) who) stage) }
{
    let thread = free_user(store, who)?;
    if !is_on_objects(thread.regs[0]) {
        return None;
    }
    match next_of(thread) {
        Doing::Stage(stage) => Some(stage),
        Doing::Instruction | Doing::Nothing => None,
    }
}

/// The next stage of the free user in a slot, if it is at one.
#[inline(always)]
pub fn stage_of(store: &Store, who: Who) -> Option<Stage>
    ensures free { IsSome result → is_free_at (world store.now) (place (path store.now) who) ≡ true }
    ensures space { IsSome result → IsSpace store.now who.space }
    ensures at { IfSome result (λ stage. IsAtStage (world store.now) (place (path store.now) who) stage) }
{
    let thread = free_user(store, who)?;
    match next_of(thread) {
        Doing::Stage(stage) => Some(stage),
        Doing::Instruction | Doing::Nothing => None,
    }
}

/// Makes this stage of a free user, the first of its call. What is made, destroyed, shown, given and taken has functions of its own, in which only its row
/// stands, so that no verdict is handed on.
#[inline(always)]
fn make_stage(store: &mut Store, who: Who, stage: &Stage, touched: &mut Touched) -> bool
    requires valid { IsValid (world store.old) }
    requires free { is_free_at (world store.old) (place (path store.old) who) ≡ true }
    requires space { IsSpace store.old who.space }
    requires at { IsAtStage (world store.old) (place (path store.old) who) stage.now }
    ensures made { OnTrue result (IsReadyMove store.old (record { who = who; pick = None }) asks.Run
        × IsStepTo store.old (record { who = who; pick = None }) asks.Run store.new says.Nothing) }
    ensures ended { OnTrue result (IsEnded store.old store.new None) }
    ensures touched { OnTrue result (TellsTouched store.old (record { who = who; pick = None }) asks.Run touched.new) }
    ensures same { OnFalse result (store.new ≡ store.old) }
{
    match *stage {
        Stage::Create { s, x, kind } => make_create(store, who, s, x, kind, touched),
        Stage::Destroy { s, x } => make_destroy(store, who, s, x, touched),
        Stage::GetState { s, x, addr } => make_show(store, who, s, x, addr, touched),
        Stage::PageGive { s, page, addr } => make_give(store, who, s, page, addr, touched),
        Stage::PageTake { s, page, addr } => make_take(store, who, s, page, addr, touched),
        Stage::FaultDone => make_end(store, who, touched),
        _ => make_other(store, who, stage, touched),
    }
}

/// Makes the stage of a free user that makes an object.
#[inline(never)]
fn make_create(
    store: &mut Store,
    who: Who,
    s: u64,
    x: u64,
    kind: u64,
    touched: &mut Touched,
) -> bool
    requires valid { IsValid (world store.old) }
    requires free { is_free_at (world store.old) (place (path store.old) who) ≡ true }
    requires space { IsSpace store.old who.space }
    requires at { IsAtStage (world store.old) (place (path store.old) who) (Stage.Create s x kind) }
    ensures made { OnTrue result (IsReadyMove store.old (record { who = who; pick = None }) asks.Run
        × IsStepTo store.old (record { who = who; pick = None }) asks.Run store.new says.Nothing) }
    ensures ended { OnTrue result (IsEnded store.old store.new None) }
    ensures touched { OnTrue result (TellsTouched store.old (record { who = who; pick = None }) asks.Run touched.new) }
    ensures same { OnFalse result (store.new ≡ store.old) }
{
    let caller = Caller {
        who,
        is_porter: false,
    };
    let stage = Stage::Create { s, x, kind };
    match rows::judged(store, caller, &[], &stage, None) {
        Ok(Verdict::Done(Plan::Makes { object, kind }, Answers::Nothing)) => {
            let verdict = Verdict::Done(Plan::Makes { object, kind }, Answers::Nothing);
            make_verdict(store, who, &stage, &verdict, touched)
        }
        _ => false,
    }
}

/// Makes the stage of a free user that destroys an object.
#[inline(never)]
fn make_destroy(store: &mut Store, who: Who, s: u64, x: u64, touched: &mut Touched) -> bool
    requires valid { IsValid (world store.old) }
    requires free { is_free_at (world store.old) (place (path store.old) who) ≡ true }
    requires space { IsSpace store.old who.space }
    requires at { IsAtStage (world store.old) (place (path store.old) who) (Stage.Destroy s x) }
    ensures made { OnTrue result (IsReadyMove store.old (record { who = who; pick = None }) asks.Run
        × IsStepTo store.old (record { who = who; pick = None }) asks.Run store.new says.Nothing) }
    ensures ended { OnTrue result (IsEnded store.old store.new None) }
    ensures touched { OnTrue result (TellsTouched store.old (record { who = who; pick = None }) asks.Run touched.new) }
    ensures same { OnFalse result (store.new ≡ store.old) }
{
    let caller = Caller {
        who,
        is_porter: false,
    };
    let stage = Stage::Destroy { s, x };
    match rows::judged(store, caller, &[], &stage, None) {
        Ok(Verdict::Destroys { object, last }) => {
            make_verdict(
                store,
                who,
                &stage,
                &Verdict::Destroys { object, last },
                touched,
            )
        }
        _ => false,
    }
}

/// Makes any stage of a free user.
#[inline(never)]
fn make_other(store: &mut Store, who: Who, stage: &Stage, touched: &mut Touched) -> bool
    requires valid { IsValid (world store.old) }
    requires free { is_free_at (world store.old) (place (path store.old) who) ≡ true }
    requires space { IsSpace store.old who.space }
    requires at { IsAtStage (world store.old) (place (path store.old) who) stage.now }
    ensures made { OnTrue result (IsReadyMove store.old (record { who = who; pick = None }) asks.Run
        × IsStepTo store.old (record { who = who; pick = None }) asks.Run store.new says.Nothing) }
    ensures ended { OnTrue result (IsEnded store.old store.new None) }
    ensures touched { OnTrue result (TellsTouched store.old (record { who = who; pick = None }) asks.Run touched.new) }
    ensures same { OnFalse result (store.new ≡ store.old) }
{
    let caller = Caller {
        who,
        is_porter: false,
    };
    match rows::judged(store, caller, &[], stage, None) {
        Ok(verdict) => make_verdict(store, who, stage, &verdict, touched),
        Err(_) => false,
    }
}

/// Makes this stage of a free user, the first of its call, which is judged so.
#[inline(always)]
pub fn make_verdict(
    store: &mut Store,
    who: Who,
    stage: &Stage,
    verdict: &Verdict,
    touched: &mut Touched,
) -> bool
    requires valid { IsValid (world store.old) }
    requires free { is_free_at (world store.old) (place (path store.old) who) ≡ true }
    requires space { IsSpace store.old who.space }
    requires at { IsAtStage (world store.old) (place (path store.old) who) stage.now }
    requires row { let c = caller_by (path store.old) (record { who = who; is_porter = false }) [] in
        outcome_by (world store.old) (path store.old) c verdict.now
        ≡ allowed_row (world store.old) c (picked_by (path store.old) None) stage.now }
    requires fits { IsVerdict store.old (record { who = who; is_porter = false }) verdict.now }
    requires sure { takes_memory false stage.now ≡ false → IsSureVerdict verdict.now }
    ensures made { OnTrue result (IsReadyMove store.old (record { who = who; pick = None }) asks.Run
        × IsStepTo store.old (record { who = who; pick = None }) asks.Run store.new says.Nothing) }
    ensures ended { OnTrue result (IsEnded store.old store.new None) }
    ensures touched { OnTrue result (TellsTouched store.old (record { who = who; pick = None }) asks.Run touched.new) }
    ensures same { OnFalse result (store.new ≡ store.old) }
{
    let caller = Caller {
        who,
        is_porter: false,
    };
    if !is_ready(store, caller, rows::chooses(stage), None, verdict) {
        return false;
    }
    match ended_by(store, caller, verdict) {
        None => {
            *touched = touched_by_move(verdict);
            carry_silently(store, caller, verdict)
        }
        Some(_) => false,
    }
}

/// Carries out a verdict on a user's stage, where it tells nothing, and answers whether it did. For want of memory it doesn't.
#[inline(always)]
fn carry_silently(store: &mut Store, caller: Caller, verdict: &Verdict) -> bool
    requires user { caller.is_porter ≡ false }
    requires live { IsLive store.old caller.who }
    requires fits { IsVerdict store.old caller verdict.now }
    ensures step { OnTrue result (let c = caller_by (path store.old) caller [] in
        stepped (world store.old) (closed c (outcome_by (world store.old) (path store.old) c verdict.now))
        ≡ record { world = world store.new; said = Nothing }) }
    ensures same { OnFalse result (store.new ≡ store.old) }
{
    match verdict {
        Verdict::Done(plan, answers) => finish_silently(store, caller, plan, *answers),
        Verdict::Destroys { object, last } => destroy_silently(store, caller, *object, *last),
        Verdict::Renames { object, slot } => {
            rename_silently(store, caller, *object, *slot);
            true
        }
        _ => false,
    }
}

/// Does all of a plan, and then the caller's stage is done.
#[inline(always)]
pub fn finish_silently(store: &mut Store, caller: Caller, plan: &Plan, answers: Answers) -> bool
    requires user { caller.is_porter ≡ false }
    requires live { IsLive store.old caller.who }
    requires fits { IsVerdict store.old caller (Verdict.Done plan.now answers) }
    ensures step { OnTrue result (let c = caller_by (path store.old) caller [] in
        stepped (world store.old) (closed c (outcome_by (world store.old) (path store.old) c (Verdict.Done plan.now answers)))
        ≡ record { world = world store.new; said = Nothing }) }
    ensures same { OnFalse result (store.new ≡ store.old) }
{
    // A copy is handed on, so that the verdict needn't stand in memory.
    let copy = *plan;
    match carry_all(store, caller, &[], &copy) {
        Ok(()) => {
            finish(store, caller.who, answers);
            true
        }
        Err(_) => false,
    }
}

/// Destroys an object, where no native server is told of it.
#[inline(always)]
fn destroy_silently(store: &mut Store, caller: Caller, object: Who, last: bool) -> bool
    requires user { caller.is_porter ≡ false }
    requires live { IsLive store.old caller.who }
    requires fits { IsDying store.old object }
    ensures step { OnTrue result (let c = caller_by (path store.old) caller [] in
        stepped (world store.old) (closed c (destroyed (world store.old) c (place (path store.old) object) last))
        ≡ record { world = world store.new; said = Nothing }) }
    ensures same { OnFalse result (store.new ≡ store.old) }
{
    match told_port(store, object) {
        None => {
            destroy_untold(store, caller, object, last);
            true
        }
        Some(_) => false,
    }
}

/// Destroys an object of which no native server is told, and then the caller's stage may be done.
#[inline(always)]
fn destroy_untold(store: &mut Store, caller: Caller, object: Who, last: bool)
    requires user { caller.is_porter ≡ false }
    requires live { IsLive store.old caller.who }
    requires fits { IsDying store.old object }
    requires untold { told_with (world store.old) (place (path store.old) object) ((world store.old).body (place (path store.old) object)) ≡ Nothing }
    ensures step { let c = caller_by (path store.old) caller [] in
        stepped (world store.old) (closed c (destroyed (world store.old) c (place (path store.old) object) last))
        ≡ record { world = world store.new; said = Nothing } }
{
    fk_changes::deaths::destroy(store, object);
    if last {
        finish(store, caller.who, Answers::Nothing);
    }
}

/// Whether a name is that of an object that is there.
fn is_named(store: &Store, who: Who, object: Who) -> bool
    requires live { IsLive store.now object }
    ensures { result ≡ same_path (place (path store.now) who) (place (path store.now) object) }
{
    store.at(object).is_some() && who == object
}

/// Gives an object another slot, and the caller's stage is done. A thread that renames itself is done in its new slot.
fn rename_silently(store: &mut Store, caller: Caller, object: Who, slot: u8)
    requires user { caller.is_porter ≡ false }
    requires live { IsLive store.old caller.who }
    requires fits { IsMoving store.old object slot }
    ensures step { let c = caller_by (path store.old) caller [] in
        stepped (world store.old) (closed c (renames c (place (path store.old) object) slot))
        ≡ record { world = world store.new; said = Nothing } }
{
    let is_itself = is_named(store, caller.who, object);
    store.move_to(object, slot);
    let space = object.space;
    let me = if is_itself {
        Who { space, slot }
    } else {
        caller.who
    };
    finish(store, me, Answers::Nothing);
}
