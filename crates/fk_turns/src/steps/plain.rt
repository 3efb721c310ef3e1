//! Moves after which only who moved is looked at, and most often not even that.
ghost use Rattle.std.specs.Prelude.{◌≡◌, ◌||◌, ◌&&◌, ℕ, [], true, false, None, not};
ghost use Rattle.std.specs.Bool.{OnTrue, OnFalse};
ghost use Rattle.fk_model.specs.Valid.{IsValid};
ghost use Rattle.fk_model.specs.Places.{Path};
ghost use Rattle.laws_waits.specs.Touching as touching;
ghost use Rattle.fk_store.specs.Store.Bodies.{thread_by};
ghost use Rattle.fk_store.specs.Store.Names.{at};
ghost use Rattle.fk_store.specs.Store.World.{world, place_of};
ghost use Rattle.fk_waits.specs.Turns.Turns.{all_marks, loud_cause, IsFreed, IsSound};
ghost use Rattle.fk_model.specs.declared.names.Who as whos_of;
ghost use Rattle.fk_waits.specs.Waits.Lists.{is_in, is_queued, stands};
ghost use Rattle.fk_waits.specs.Causes.Names as names_of;
ghost use Rattle.fk_turns.specs.Moved.Kept.{is_user_at, AreKept};
ghost use Rattle.fk_turns.specs.Moved.Moved.{is_it, now_named};
ghost use Rattle.fk_turns.specs.Next.Runs.{is_under_way_at};
ghost use Rattle.fk_turns.specs.Next.Waiting.{standing, ComesAfter, IsMoveReady, IsPlaced};
ghost use Rattle.fk_turns.specs.Steps.Steps as steps_of;
ghost use Rattle.fk_turns.specs.Moved.Told.{goes_quietly, goes_quietly_at, runs_on_at};
ghost use Rattle.fk_turns.specs.Steps.Steps.{touches_only, AreApart, AreRousedAt, AreUnknown, ComesByPorter, IsApartAt};
ghost use Rattle.fk_turns.specs.Steps.Steps.{IsCalm, IsGentle, IsOneApart, IsQuietFrom, IsTurned, MayBeQuiet};

use crate::next::after;
use crate::whys::first_stage;
use fk_calls::ready;
use fk_model::call::{
    self, CLIENT_OVER, CLIENT_OVER_RECEIVE, CLIENT_SEND, CLIENT_SEND_OVER_RECEIVE,
};
use fk_model::{Ask, Mode, Move, Peer, Stage, Thread, Who};
use fk_plans::wakes::Touched;
use fk_store::Store;
use fk_waits::turns::Turns;

/// The lists after a move. Where that touched nobody else, who moved goes on and nothing is held, and it was an instruction, or nobody is queued whom any
/// move may free, who moved goes from first to last, and nobody is looked at.
#[inline(always)]
pub fn after_plain(turns: &mut Turns, store: &Store, mover: Who, touched: &Touched, ran: bool)
    requires valid { IsValid (world store.now) }
    requires quiet { MayBeQuiet store.now mover ran touched.now turns.old.waits turns.old.marks }
    requires comes { ComesAfter store.now mover touched.now turns.old.waits turns.old.marks }
    ensures kept { AreKept store.now turns.new.waits turns.new.marks }
    ensures placed { is_user_at store.now (now_named mover touched.now) ≡ true
        → IsPlaced store.now (standing turns.new.waits) (now_named mover touched.now) }
{
    if is_quick(turns, store, mover, touched, ran) {
        return;
    }
    if is_apart(turns, store, mover, touched) {
        return;
    }
    after(turns, store, mover, touched);
}

/// The lists after an instruction after which the thread runs on. Where nothing is held, and nobody is queued whom any change may free, it goes from first to
/// last, and nobody is looked at.
#[inline(always)]
pub fn after_on(turns: &mut Turns, store: &Store, mover: Who)
    requires valid { IsValid (world store.now) }
    requires quiet { IsQuietFrom store.now mover turns.old.waits turns.old.marks }
    requires comes { ComesAfter store.now mover (Touched.Few None None None) turns.old.waits turns.old.marks }
    requires on { is_under_way_at store.now mover ≡ true }
    ensures kept { AreKept store.now turns.new.waits turns.new.marks }
    ensures placed { is_user_at store.now mover ≡ true → IsPlaced store.now (standing turns.new.waits) mover }
{
    if turns_on(turns, store, mover) {
        return;
    }
    after_off(turns, store, mover);
}

/// Who moved can move, and went from first to last, and nobody else need be looked at; or all is as it was.
#[inline(always)]
pub fn turns_on(turns: &mut Turns, store: &Store, mover: Who) -> bool
    requires valid { IsValid (world store.now) }
    requires on { is_under_way_at store.now mover ≡ true }
    requires sound { IsSound turns.old.waits turns.old.marks }
    ensures sound { IsSound turns.new.waits turns.new.marks }
    ensures turned { OnTrue result (IsTurned mover turns.old.waits turns.old.marks turns.new.waits turns.new.marks) }
    ensures up { OnTrue result (IsMoveReady (world store.now) (place_of store.now mover)) }
    ensures waits { OnFalse result (turns.new.waits ≡ turns.old.waits) }
    ensures marks { OnFalse result (turns.new.marks ≡ turns.old.marks) }
{
    if !can_go_on(store, mover) {
        return false;
    }
    turns.turn(mover)
}

/// A thread that is under way can move: while nothing is held that needs no look.
#[inline(always)]
fn can_go_on(store: &Store, who: Who) -> bool
    requires valid { IsValid (world store.now) }
    requires on { is_under_way_at store.now who ≡ true }
    ensures { OnTrue result (IsMoveReady (world store.now) (place_of store.now who)) }
{
    if store.is_any_held() {
        return can_move(store, who);
    }
    true
}

/// A move of the user in a slot is ready, which picks nobody.
fn can_move(store: &Store, who: Who) -> bool
    requires valid { IsValid (world store.now) }
    ensures { OnTrue result (IsMoveReady (world store.now) (place_of store.now who)) }
{
    ready(store, &Move { who, pick: None }, &Ask::Run)
}

/// The lists after any other instruction.
#[inline(never)]
pub fn after_off(turns: &mut Turns, store: &Store, mover: Who)
    requires valid { IsValid (world store.now) }
    requires comes { ComesAfter store.now mover (Touched.Few None None None) turns.old.waits turns.old.marks }
    ensures kept { AreKept store.now turns.new.waits turns.new.marks }
    ensures placed { is_user_at store.now mover ≡ true → IsPlaced store.now (standing turns.new.waits) mover }
{
    let touched = Touched::Few {
        first: None,
        second: None,
        third: None,
    };
    after_plain(turns, store, mover, &touched, false);
}

/// The lists after an instruction after which the thread runs on and needn't go last. Where nobody is queued whom any change may free, it stands where it
/// stood, and nothing is written.
#[inline(always)]
pub fn after_stay(turns: &mut Turns, store: &Store, mover: Who)
    requires valid { IsValid (world store.now) }
    requires quiet { IsQuietFrom store.now mover turns.old.waits turns.old.marks }
    requires comes { ComesAfter store.now mover (Touched.Few None None None) turns.old.waits turns.old.marks }
    requires on { is_under_way_at store.now mover ≡ true }
    ensures kept { AreKept store.now turns.new.waits turns.new.marks }
{
    if turns.marks_nobody() {
        return;
    }
    after_off(turns, store, mover);
}

/// The lists after any other instruction, whose thread needn't go last. Where that came to a call of which nobody else waits to see the first stage, and nobody
/// is queued whom any change may free, it stands where it stood, and nothing is written.
#[inline(always)]
pub fn after_entry(turns: &mut Turns, store: &Store, mover: Who)
    requires valid { IsValid (world store.now) }
    requires quiet { goes_quietly_at store.now mover ≡ true → IsQuietFrom store.now mover turns.old.waits turns.old.marks }
    requires comes { ComesAfter store.now mover (Touched.Few None None None) turns.old.waits turns.old.marks }
    ensures kept { AreKept store.now turns.new.waits turns.new.marks }
{
    if is_entered(turns, store, mover) {
        return;
    }
    after_off(turns, store, mover);
}

/// A thread is at a stage that nobody else waits to see, and nobody is marked whom any change may free.
#[inline(always)]
fn is_entered(turns: &Turns, store: &Store, who: Who) -> bool
    ensures none { OnTrue result (turns.now.marks.ready ≡ []) }
    ensures quiet { OnTrue result (goes_quietly_at store.now who ≡ true) }
{
    if !turns.marks_nobody() {
        return false;
    }
    match store.thread(who) {
        Some(thread) => enters_quietly(thread),
        None => false,
    }
}

/// It has no fault, and is at such a stage.
#[inline(always)]
fn enters_quietly(thread: &Thread) -> bool
    ensures { (p : ℕ → Path) → OnTrue result (goes_quietly (thread_by p thread.now) ≡ true) }
{
    if thread.fault.is_some() {
        return false;
    }
    match first_stage(thread) {
        Some(stage) => !is_reachable_stage(&stage),
        None => false,
    }
}

/// A stage at which another thread may reach its thread: a Receive of either side, or a Connect.
#[inline(always)]
fn is_reachable_stage(stage: &Stage) -> bool
    ensures { result ≡ touching.is_reachable_stage stage.now }
{
    match stage {
        Stage::ClientReceive { .. }
        | Stage::ServerReceive { .. }
        | Stage::ClientReceiveRef { .. }
        | Stage::ServerReceiveRef { .. }
        | Stage::Connect { .. } => true,
        _ => false,
    }
}

/// The lists after a move whose thread needn't go last. Where that was an instruction, the thread runs on and nothing is held, who moved stands where it
/// stood, and nothing is written.
#[inline(always)]
pub fn after_still(turns: &mut Turns, store: &Store, mover: Who, touched: &Touched, ran: bool)
    requires valid { IsValid (world store.now) }
    requires quiet { MayBeQuiet store.now mover ran touched.now turns.old.waits turns.old.marks }
    requires comes { ComesAfter store.now mover touched.now turns.old.waits turns.old.marks }
    ensures kept { AreKept store.now turns.new.waits turns.new.marks }
{
    if may_stay(turns, store, mover, touched, ran) {
        return;
    }
    after(turns, store, mover, touched);
}

/// The lists after a porter's call. Where nothing that it touched stood or is a user's thread now, only whom it may have freed is looked at.
#[inline(always)]
pub fn after_call(turns: &mut Turns, store: &Store, mover: Who, touched: &Touched)
    requires valid { IsValid (world store.now) }
    requires comes { ComesByPorter store.now mover touched.now turns.old.waits turns.old.marks }
    ensures kept { AreKept store.now turns.new.waits turns.new.marks }
    ensures placed { is_user_at store.now (now_named mover touched.now) ≡ true
        → IsPlaced store.now (standing turns.new.waits) (now_named mover touched.now) }
{
    if !are_unknown(turns, store, touched) {
        after(turns, store, mover, touched);
        return;
    }
    if is_none_queued(turns) {
        return;
    }
    after_unknown(turns, store, mover, touched);
}

/// The same where nothing that it touched stood.
#[inline(never)]
fn after_unknown(turns: &mut Turns, store: &Store, mover: Who, touched: &Touched)
    requires valid { IsValid (world store.now) }
    requires comes { ComesByPorter store.now mover touched.now turns.old.waits turns.old.marks }
    requires unknown { AreUnknown store.now touched.now turns.old.waits }
    ensures kept { AreKept store.now turns.new.waits turns.new.marks }
    ensures placed { is_user_at store.now (now_named mover touched.now) ≡ true
        → IsPlaced store.now (standing turns.new.waits) (now_named mover touched.now) }
{
    match *touched {
        Touched::Few {
            first,
            second,
            third,
        } => rouse_few(turns, first, second, third),
        Touched::Makes { object } => rouse_few(turns, Some(object), None, None),
        Touched::Any | Touched::Dies { .. } | Touched::Moves { .. } => {
            after(turns, store, mover, touched);
        }
    }
}

/// Whom these may free is ready, and whom any move may.
fn rouse_few(turns: &mut Turns, first: Option<Who>, second: Option<Who>, third: Option<Who>)
    requires sound { IsSound turns.old.waits turns.old.marks }
    ensures sound { IsSound turns.new.waits turns.new.marks }
    ensures roused { AreRousedAt (λ x. is_it first x || (is_it second x || is_it third x))
        turns.old.waits turns.old.marks turns.new.waits turns.new.marks }
    ensures gone { (x : whos_of.Who) → is_in x turns.old.marks.ready ≡ true → is_queued x turns.new.waits.queued ≡ false }
    ensures loud { IsFreed loud_cause (all_marks turns.old.waits turns.old.marks) turns.new.waits }
{
    turns.rouse_marked();
    rouse_one(turns, first);
    rouse_one(turns, second);
    rouse_one(turns, third);
}

/// Whom this may free is ready, if it is one.
fn rouse_one(turns: &mut Turns, name: Option<Who>)
    requires sound { IsSound turns.old.waits turns.old.marks }
    ensures sound { IsSound turns.new.waits turns.new.marks }
    ensures roused { AreRousedAt (is_it name) turns.old.waits turns.old.marks turns.new.waits turns.new.marks }
{
    match name {
        Some(who) => turns.rouse_at(who),
        None => {}
    }
}

/// Nothing that was touched stood, and what it put somewhere is no user's thread.
fn are_unknown(turns: &Turns, store: &Store, touched: &Touched) -> bool
    ensures { OnTrue result (AreUnknown store.now touched.now turns.now.waits) }
{
    match *touched {
        Touched::Few {
            first,
            second,
            third,
        } => are_few_unknown(turns, first, second, third),
        Touched::Makes { object } => is_apart_at(turns, store, object),
        Touched::Any => true,
        Touched::Dies { object } => is_unknown(turns, object),
        Touched::Moves { object, slot } => is_shifted_apart(turns, store, object, slot),
    }
}

/// None of these stood.
fn are_few_unknown(
    turns: &Turns,
    first: Option<Who>,
    second: Option<Who>,
    third: Option<Who>,
) -> bool
    ensures first { OnTrue result ((x : whos_of.Who) → is_it first x ≡ true → stands x turns.now.waits ≡ false) }
    ensures second { OnTrue result ((x : whos_of.Who) → is_it second x ≡ true → stands x turns.now.waits ≡ false) }
    ensures third { OnTrue result ((x : whos_of.Who) → is_it third x ≡ true → stands x turns.now.waits ≡ false) }
{
    if !is_one_unknown(turns, first) {
        return false;
    }
    if !is_one_unknown(turns, second) {
        return false;
    }
    is_one_unknown(turns, third)
}

/// This didn't stand, if it is one.
fn is_one_unknown(turns: &Turns, name: Option<Who>) -> bool
    ensures { OnTrue result ((x : whos_of.Who) → is_it name x ≡ true → stands x turns.now.waits ≡ false) }
{
    match name {
        Some(who) => is_unknown(turns, who),
        None => true,
    }
}

/// Nobody stands by this name.
fn is_unknown(turns: &Turns, who: Who) -> bool
    ensures { OnTrue result (stands who turns.now.waits ≡ false) }
{
    if turns.knows(who) {
        return false;
    }
    true
}

/// It was an instruction of a thread that runs on, and nobody else need be looked at.
#[inline(always)]
fn may_stay(turns: &Turns, store: &Store, mover: Who, touched: &Touched, ran: bool) -> bool
    ensures ran { OnTrue result (ran ≡ true) }
    ensures alone { OnTrue result (touched.now ≡ Touched.Few None None None) }
    ensures on { OnTrue result (runs_on_at store.now mover ≡ true) }
    ensures user { OnTrue result (is_user_at store.now mover ≡ true) }
    ensures none { OnTrue result (turns.now.marks.ready ≡ []) }
{
    if !ran {
        return false;
    }
    if !touches_nobody(touched) {
        return false;
    }
    if !goes_on(store, mover, ran) {
        return false;
    }
    turns.marks_nobody()
}

/// Who moved and goes on went from first to last, and nobody else need be looked at; or all is as it was.
#[inline(always)]
fn is_quick(turns: &mut Turns, store: &Store, mover: Who, touched: &Touched, ran: bool) -> bool
    requires sound { IsSound turns.old.waits turns.old.marks }
    ensures sound { IsSound turns.new.waits turns.new.marks }
    ensures turned { OnTrue result (IsTurned mover turns.old.waits turns.old.marks turns.new.waits turns.new.marks) }
    ensures alone { OnTrue result (touches_only mover touched.now ≡ true) }
    ensures gentle { OnTrue result (IsGentle mover touched.now ran turns.old.waits turns.old.marks) }
    ensures on { OnTrue result (ran ≡ true → runs_on_at store.now mover ≡ true) }
    ensures up { OnTrue result (IsMoveReady (world store.now) (place_of store.now mover)) }
    ensures user { OnTrue result (is_user_at store.now mover ≡ true) }
    ensures waits { OnFalse result (turns.new.waits ≡ turns.old.waits) }
    ensures marks { OnFalse result (turns.new.marks ≡ turns.old.marks) }
{
    if !is_gentle(turns, mover, touched, ran) {
        return false;
    }
    if !goes_on(store, mover, ran) {
        return false;
    }
    turns.turn(mover)
}

/// Nobody is queued, and what was touched besides who moved is no user's thread and was none: then who moved and goes on went from first to last, and nobody
/// need be looked at; or all is as it was.
#[inline(always)]
fn is_apart(turns: &mut Turns, store: &Store, mover: Who, touched: &Touched) -> bool
    requires sound { IsSound turns.old.waits turns.old.marks }
    ensures sound { IsSound turns.new.waits turns.new.marks }
    ensures turned { OnTrue result (IsTurned mover turns.old.waits turns.old.marks turns.new.waits turns.new.marks) }
    ensures none { OnTrue result (turns.old.waits.queued ≡ []) }
    ensures apart { OnTrue result (AreApart store.now mover touched.now turns.old.waits) }
    ensures named { OnTrue result (now_named mover touched.now ≡ mover) }
    ensures up { OnTrue result (IsMoveReady (world store.now) (place_of store.now mover)) }
    ensures user { OnTrue result (is_user_at store.now mover ≡ true) }
    ensures waits { OnFalse result (turns.new.waits ≡ turns.old.waits) }
    ensures marks { OnFalse result (turns.new.marks ≡ turns.old.marks) }
{
    if !is_none_queued(turns) {
        return false;
    }
    if !are_apart(turns, store, mover, touched) {
        return false;
    }
    if !goes_on(store, mover, false) {
        return false;
    }
    turns.turn(mover)
}

/// What was touched besides who moved is no user's thread and was none, and who moved has its name still.
#[inline(always)]
fn are_apart(turns: &Turns, store: &Store, mover: Who, touched: &Touched) -> bool
    ensures apart { OnTrue result (AreApart store.now mover touched.now turns.now.waits) }
    ensures named { OnTrue result (now_named mover touched.now ≡ mover) }
{
    match *touched {
        Touched::Few {
            first,
            second,
            third,
        } => are_few_apart(turns, store, mover, first, second, third),
        Touched::Makes { object } => is_apart_at(turns, store, object),
        Touched::Any => true,
        Touched::Dies { object } => is_apart_at(turns, store, object),
        Touched::Moves { object, slot } => {
            if is_same(object, mover) {
                return false;
            }
            is_shifted_apart(turns, store, object, slot)
        }
    }
}

/// So it is of these.
#[inline(always)]
fn are_few_apart(
    turns: &Turns,
    store: &Store,
    mover: Who,
    first: Option<Who>,
    second: Option<Who>,
    third: Option<Who>,
) -> bool
    ensures { OnTrue result (AreApart store.now mover (Touched.Few first second third) turns.now.waits) }
{
    if !is_one_apart(turns, store, mover, first) {
        return false;
    }
    if !is_one_apart(turns, store, mover, second) {
        return false;
    }
    is_one_apart(turns, store, mover, third)
}

/// So it is of this, if it is one.
#[inline(always)]
fn is_one_apart(turns: &Turns, store: &Store, mover: Who, name: Option<Who>) -> bool
    ensures { OnTrue result (IsOneApart store.now mover name turns.now.waits) }
{
    match name {
        Some(who) => {
            if is_same(mover, who) {
                return true;
            }
            is_apart_at(turns, store, who)
        }
        None => true,
    }
}

/// So it is where an object stood and in the slot that it has now.
fn is_shifted_apart(turns: &Turns, store: &Store, object: Who, slot: u8) -> bool
    ensures from { OnTrue result (IsApartAt store.now object turns.now.waits) }
    ensures to { OnTrue result (IsApartAt store.now (at object.space slot) turns.now.waits) }
{
    let to = Who {
        space: object.space,
        slot,
    };
    if !is_apart_at(turns, store, object) {
        return false;
    }
    is_apart_at(turns, store, to)
}

/// No thread is there, and none stands by that name.
#[inline(always)]
fn is_apart_at(turns: &Turns, store: &Store, who: Who) -> bool
    ensures { OnTrue result (IsApartAt store.now who turns.now.waits) }
{
    if turns.knows(who) {
        return false;
    }
    match store.thread(who) {
        Some(_) => false,
        None => true,
    }
}

/// It touched nobody else, and was an instruction, or nobody is queued, or nobody whom any move may free.
#[inline(always)]
fn is_gentle(turns: &Turns, mover: Who, touched: &Touched, ran: bool) -> bool
    ensures alone { OnTrue result (touches_only mover touched.now ≡ true) }
    ensures gentle { OnTrue result (IsGentle mover touched.now ran turns.now.waits turns.now.marks) }
{
    if ran {
        return touches_nobody(touched);
    }
    if !touches_only(mover, touched) {
        return false;
    }
    is_calm(turns)
}

/// Nobody is queued, or nobody whom any move may free.
#[inline(always)]
pub fn is_calm(turns: &Turns) -> bool
    ensures { OnTrue result (IsCalm turns.now.waits turns.now.marks) }
{
    if is_none_queued(turns) {
        return true;
    }
    turns.is_hushed()
}

/// Nobody is queued.
#[inline(always)]
fn is_none_queued(turns: &Turns) -> bool
    ensures { OnTrue result (turns.now.waits.queued ≡ []) }
{
    turns.waits().len() == 0
}

/// A move touched nobody, besides who moved.
fn touches_nobody(touched: &Touched) -> bool
    ensures { result ≡ steps_of.touches_nobody touched.now }
{
    match touched {
        Touched::Few {
            first,
            second,
            third,
        } => first.is_none() && (second.is_none() && third.is_none()),
        Touched::Makes { .. } | Touched::Any | Touched::Dies { .. } | Touched::Moves { .. } => {
            false
        }
    }
}

/// A move touched nobody but who moved, by whatever name.
pub fn touches_only(mover: Who, touched: &Touched) -> bool
    ensures { result ≡ steps_of.touches_only mover touched.now }
{
    match *touched {
        Touched::Few {
            first,
            second,
            third,
        } => is_own(mover, first) && (is_own(mover, second) && is_own(mover, third)),
        Touched::Makes { .. } | Touched::Any | Touched::Dies { .. } | Touched::Moves { .. } => {
            false
        }
    }
}

/// A name is the mover's, or none.
fn is_own(mover: Who, name: Option<Who>) -> bool
    ensures { result ≡ steps_of.is_own mover name }
{
    match name {
        Some(who) => is_same(who, mover),
        None => true,
    }
}

/// Two names are the same.
fn is_same(one: Who, other: Who) -> bool
    ensures { result ≡ names_of.is_same one other }
{
    one == other
}

/// A user's thread runs, or after what was no instruction is in a call in which it can move, as far as is seen at once.
#[inline(always)]
fn goes_on(store: &Store, who: Who, ran: bool) -> bool
    ensures up { OnTrue result (IsMoveReady (world store.now) (place_of store.now who)) }
    ensures user { OnTrue result (is_user_at store.now who ≡ true) }
    ensures on { OnTrue result (ran ≡ true → runs_on_at store.now who ≡ true) }
{
    if is_going(store, who, ran) {
        return true;
    }
    locks_free(store, who, ran)
}

/// A user's thread runs, or after what was no instruction is in a call that waits for nobody, and nothing keeps it, as far as is seen at once.
#[inline(always)]
pub fn is_going(store: &Store, who: Who, ran: bool) -> bool
    ensures up { OnTrue result (IsMoveReady (world store.now) (place_of store.now who)) }
    ensures user { OnTrue result (is_user_at store.now who ≡ true) }
    ensures on { OnTrue result (ran ≡ true → runs_on_at store.now who ≡ true) }
{
    if store.is_any_held() {
        return false;
    }
    match store.thread(who) {
        Some(thread) => keeps_on(thread, ran),
        None => false,
    }
}

/// After what was no instruction it is at the lock of a mutex that isn't locked, while nothing is held.
fn locks_free(store: &Store, who: Who, ran: bool) -> bool
    ensures up { OnTrue result (IsMoveReady (world store.now) (place_of store.now who)) }
    ensures user { OnTrue result (is_user_at store.now who ≡ true) }
    ensures on { OnTrue result (ran ≡ true → runs_on_at store.now who ≡ true) }
{
    if ran {
        return false;
    }
    if store.is_any_held() {
        return false;
    }
    fk_calls::may_lock(store, who)
}

/// It isn't stopped and has no fault, and runs, or is in such a call.
#[inline(always)]
fn keeps_on(thread: &Thread, ran: bool) -> bool
    ensures { result ≡ steps_of.keeps_on ran thread.now }
{
    thread.stops == 0 && (thread.fault.is_none() && goes_in(thread, ran))
}

/// It runs, or is in such a call.
#[inline(always)]
fn goes_in(thread: &Thread, ran: bool) -> bool
    ensures { result ≡ steps_of.goes_in thread.now.mode (not ran && steps_of.is_busy thread.now) }
{
    match thread.mode {
        Mode::Running => true,
        Mode::Calling => !ran && is_busy(thread),
        Mode::Halted(_) => false,
        Mode::Native => false,
    }
}

/// In a call, it waits for nobody while nothing is held.
fn is_busy(thread: &Thread) -> bool
    ensures { result ≡ steps_of.is_busy thread.now }
{
    is_speaking(thread) || acts(thread.regs[0])
}

/// A call on an object, a space or a page but `space_hold`, or one that lets go.
fn acts(code: u64) -> bool
    ensures { result ≡ steps_of.acts code }
{
    matches!(
        code,
        call::CREATE
            | call::DESTROY
            | call::RENAME
            | call::SEARCH
            | call::POINT
            | call::CLEAR
            | call::LOCATE
            | call::COUNT_IN
            | call::GET_STATE
            | call::SET_STATE
            | call::GET_PTR
            | call::SET_PTR
            | call::SPACE_RELEASE
            | call::THREAD_STOP
            | call::THREAD_GO
            | call::PAGE_GIVE
            | call::PAGE_TAKE
            | call::PAGE_READ
            | call::PAGE_NEXT
            | call::MUTEX_TRYLOCK
            | call::MUTEX_UNLOCK
            | call::DISCONNECT
    )
}

/// In a call, it sends words or passes the turn to a native server.
fn is_speaking(thread: &Thread) -> bool
    ensures { result ≡ steps_of.is_speaking thread.now }
{
    match thread.talk {
        Some(talk) => speaks(thread.regs[0]) && is_service(talk.peer),
        None => false,
    }
}

/// A call begins with a client's send or over.
fn speaks(code: u64) -> bool
    ensures { result ≡ steps_of.speaks code }
{
    begins_with_send(code) || begins_with_over(code)
}

/// A call begins with a client's over.
fn begins_with_over(code: u64) -> bool
    ensures { result ≡ steps_of.begins_with_over code }
{
    code == CLIENT_OVER || code == CLIENT_OVER_RECEIVE
}

/// A call begins with a client's send.
fn begins_with_send(code: u64) -> bool
    ensures { result ≡ steps_of.begins_with_send code }
{
    code == CLIENT_SEND || code == CLIENT_SEND_OVER_RECEIVE
}

/// A native server is at the other end of a talk.
fn is_service(peer: Peer) -> bool
    ensures { result ≡ steps_of.is_service peer }
{
    match peer {
        Peer::Service => true,
        Peer::Thread(_) => false,
        Peer::Parked => false,
    }
}
