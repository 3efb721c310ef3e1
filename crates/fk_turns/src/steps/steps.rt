//! Moves, and the lists after them.
ghost use Rattle.std.specs.Prelude.{◌≡◌, true, false, None, IsOk, IsSome, IfOk, IfSome, IfNone, OnErr};
ghost use Rattle.std.specs.Bool.{OnTrue, OnFalse};
ghost use Rattle.fk_model.specs.declared.moves.Ask.TheVariants as asks;
ghost use Rattle.fk_model.specs.Valid.{IsValid};
ghost use Rattle.fk_plans.specs.Answers.Rooms.{IsRoom};
ghost use Rattle.fk_plans.specs.Plans.Hearers.{IsPadded};
ghost use Rattle.fk_store.specs.Store.World.{world, place_of};
ghost use Rattle.fk_turns.specs.Next.Judgements.{is_fit_move, may_lack, IsEnded, IsHeardBy, IsReadyMove, IsStepTo};
ghost use Rattle.fk_turns.specs.Next.Tellings as calls;
ghost use Rattle.fk_turns.specs.Next.Tried.{tried_of, IsMade, HasEnded, IsTold, IsToldPadded, IsUnready};
ghost use Rattle.fk_turns.specs.Moved.Kept.{is_user_at, AreKept};
ghost use Rattle.fk_turns.specs.Moved.Moved.{now_named};
ghost use Rattle.fk_turns.specs.Next.Waiting.{standing, ComesAfter, IsMoveReady, IsPlaced};
ghost use Rattle.fk_turns.specs.Steps.Classes.{is_made};
ghost use Rattle.fk_turns.specs.Steps.Steps.{was_made, ComesByPorter, IsPut, MayBeQuiet};

use crate::next::after;
use crate::steps::going::{Gone, go_call, go_stage};
use crate::steps::plain::{after_call, after_entry, after_off, after_on, after_plain, after_stay};
use crate::steps::resting::after_silent_if;
use crate::steps::room::{reserve_for, reserve_for_stage, seat_for};
use fk_calls::{Ran, Told};
use fk_model::{Ask, Mode, Move, NoMemory, Said, Stage, Who};
use fk_plans::wakes::Touched;
use fk_store::Store;
use fk_waits::turns::Turns;

/// Makes a move where it is ready, as `next::attempt` does, and keeps the lists: who moved is in its place.
///
/// # Errors
///
/// There is no memory for an object, a page or a thread's place in the lists, and all stays as it was.
pub fn attempt(
    store: &mut Store,
    turns: &mut Turns,
    m: &Move,
    ask: &Ask,
) -> Result<Option<Told>, NoMemory>
    requires valid { IsValid (world store.old) }
    requires fit { is_fit_move store.old m.now ask.now ≡ true }
    requires kept { AreKept store.old turns.old.waits turns.old.marks }
    ensures made { IfOk result (IsMade store.old m.now ask.now store.new) }
    ensures ended { IfOk result (HasEnded store.old store.new) }
    ensures heard { IfOk result (IsTold store.old store.new) }
    ensures padded { IfOk result IsToldPadded }
    ensures unready { IfOk result (IsUnready store.old m.now ask.now store.new) }
    ensures lacking { OnErr result (store.new ≡ store.old) }
    ensures sure { may_lack store.old m.now ask.now ≡ false → IsOk result }
    ensures valid { IsValid (world store.new) }
    ensures kept { AreKept store.new turns.new.waits turns.new.marks }
    ensures placed { OnTrue (was_made result) (IsPut store.old m.now ask.now store.new (standing turns.new.waits)) }
    ensures still { OnFalse (was_made result) (standing turns.new.waits ≡ standing turns.old.waits) }
{
    reserve_for(turns, store, m, ask)?;
    store.names();
    let mut touched = Touched::Any;
    let tried = fk_calls::attempt(store, m, ask, &mut touched);
    // And so they do in the world that the move leaves.
    store.names();
    after_plain_if(turns, store, is_made(&tried), m.who, &touched, false);
    tried
}

/// Makes a move, which is ready and fit, and gives what it tells.
///
/// # Errors
///
/// There is no memory for an object, a page or a thread's place in the lists, and all stays as it was.
pub fn take(store: &mut Store, turns: &mut Turns, m: &Move, ask: &Ask) -> Result<Said, NoMemory>
    requires valid { IsValid (world store.old) }
    requires ready { IsReadyMove store.old m.now ask.now }
    requires fit { is_fit_move store.old m.now ask.now ≡ true }
    requires kept { AreKept store.old turns.old.waits turns.old.marks }
    ensures step { IfOk result (λ said. IsStepTo store.old m.now ask.now store.new said) }
    ensures padded { IfOk result (λ said. IsPadded said) }
    ensures lacking { OnErr result (store.new ≡ store.old) }
    ensures sure { may_lack store.old m.now ask.now ≡ false → IsOk result }
    ensures valid { IsValid (world store.new) }
    ensures kept { AreKept store.new turns.new.waits turns.new.marks }
    ensures placed { IfOk result (λ said. IsPut store.old m.now ask.now store.new (standing turns.new.waits)) }
    ensures still { OnErr result (standing turns.new.waits ≡ standing turns.old.waits) }
{
    match attempt(store, turns, m, ask)? {
        Some(told) => Ok(told.said),
        None => unreachable!(),
    }
}

/// A move was made.
fn is_made(tried: &Result<Option<Told>, NoMemory>) -> bool
    ensures { result ≡ was_made tried.now }
{
    match tried {
        Ok(Some(_)) => true,
        Ok(None) | Err(_) => false,
    }
}

/// The lists after a move, if one was made.
#[inline(never)]
pub fn after_plain_if(
    turns: &mut Turns,
    store: &Store,
    made: bool,
    mover: Who,
    touched: &Touched,
    ran: bool,
)
    requires valid { IsValid (world store.now) }
    requires comes { OnTrue made (ComesAfter store.now mover touched.now turns.old.waits turns.old.marks) }
    requires quiet { OnTrue made (MayBeQuiet store.now mover ran touched.now turns.old.waits turns.old.marks) }
    requires kept { OnFalse made (AreKept store.now turns.old.waits turns.old.marks) }
    ensures kept { AreKept store.now turns.new.waits turns.new.marks }
    ensures placed { OnTrue made (is_user_at store.now (now_named mover touched.now) ≡ true
        → IsPlaced store.now (standing turns.new.waits) (now_named mover touched.now)) }
    ensures still { OnFalse made (standing turns.new.waits ≡ standing turns.old.waits) }
{
    if made {
        after_plain(turns, store, mover, touched, ran);
    }
}

/// The lists after a porter's call, if it was made.
#[inline(always)]
fn after_call_if(turns: &mut Turns, store: &Store, made: bool, mover: Who, touched: &Touched)
    requires valid { IsValid (world store.now) }
    requires comes { OnTrue made (ComesByPorter store.now mover touched.now turns.old.waits turns.old.marks) }
    requires kept { OnFalse made (AreKept store.now turns.old.waits turns.old.marks) }
    ensures kept { AreKept store.now turns.new.waits turns.new.marks }
    ensures placed { OnTrue made (is_user_at store.now (now_named mover touched.now) ≡ true
        → IsPlaced store.now (standing turns.new.waits) (now_named mover touched.now)) }
    ensures still { OnFalse made (standing turns.new.waits ≡ standing turns.old.waits) }
{
    if made {
        after_call(turns, store, mover, touched);
    }
}

/// Makes a porter's call where it is ready, as `next::call` does, and keeps the lists.
///
/// # Errors
///
/// There is no memory for an object, a page or a thread's place in the lists, and all stays as it was.
pub fn call(
    store: &mut Store,
    turns: &mut Turns,
    m: &Move,
    stage: &Stage,
    words: &[u64; 64],
    told: &mut Told,
) -> Result<bool, NoMemory>
    requires valid { IsValid (world store.old) }
    requires fit { is_fit_move store.old m.now (asks.Call stage.now words.now) ≡ true }
    requires room { IsRoom told.old.said }
    requires kept { AreKept store.old turns.old.waits turns.old.marks }
    ensures made { IfOk (tried_of result told.new) (IsMade store.old m.now (asks.Call stage.now words.now) store.new) }
    ensures ended { IfOk (tried_of result told.new) (HasEnded store.old store.new) }
    ensures heard { IfOk (tried_of result told.new) (IsTold store.old store.new) }
    ensures padded { IfOk (tried_of result told.new) IsToldPadded }
    ensures unready { IfOk (tried_of result told.new) (IsUnready store.old m.now (asks.Call stage.now words.now) store.new) }
    ensures lacking { OnErr (tried_of result told.new) (store.new ≡ store.old) }
    ensures sure { may_lack store.old m.now (asks.Call stage.now words.now) ≡ false → IsOk (tried_of result told.new) }
    ensures valid { IsValid (world store.new) }
    ensures kept { AreKept store.new turns.new.waits turns.new.marks }
    ensures placed { OnTrue (was_made (tried_of result told.new)) (IsPut store.old m.now (asks.Call stage.now words.now) store.new (standing turns.new.waits)) }
    ensures still { OnFalse (was_made (tried_of result told.new)) (standing turns.new.waits ≡ standing turns.old.waits) }
{
    reserve_for_stage(turns, stage)?;
    store.names();
    let mut touched = Touched::Any;
    let made = fk_calls::call(store, m, stage, words, told, &mut touched);
    // And so they do in the world that the move leaves.
    store.names();
    after_call_if(turns, store, is_done(&made), m.who, &touched);
    made
}

/// A call was made.
fn is_done(made: &Result<bool, NoMemory>) -> bool
    ensures { (told : calls.Told) → result ≡ was_made (tried_of made.now told) }
{
    match made {
        Ok(done) => *done,
        Err(_) => false,
    }
}

/// Makes the next instruction of the user in a slot, or raises its fault, or makes the next stage of its call where that is made by one look or tells
/// nothing, and keeps the lists.
pub fn proceed(store: &mut Store, turns: &mut Turns, who: Who) -> Gone
    requires valid { IsValid (world store.old) }
    requires kept { AreKept store.old turns.old.waits turns.old.marks }
    ensures made { OnTrue (is_made result) (IsReadyMove store.old (record { who = who; pick = None }) asks.Run
        × IsStepTo store.old (record { who = who; pick = None }) asks.Run store.new Said.Nothing) }
    ensures ended { OnTrue (is_made result) (IsEnded store.old store.new None) }
    ensures waits { result ≡ Gone.Waits → IsMoveReady (world store.old) (place_of store.old who) → ⊥ }
    ensures same { OnFalse (is_made result) (store.new ≡ store.old) }
    ensures valid { IsValid (world store.new) }
    ensures kept { AreKept store.new turns.new.waits turns.new.marks }
    ensures placed { OnTrue (is_made result) (IsPut store.old (record { who = who; pick = None }) asks.Run store.new (standing turns.new.waits)) }
    ensures still { OnFalse (is_made result) (standing turns.new.waits ≡ standing turns.old.waits) }
{
    store.names();
    let mut touched = Touched::Any;
    let ran = fk_calls::run(store, who, &mut touched);
    // And so they do in the world that it leaves.
    store.names();
    match ran {
        Ran::On => {
            after_on(turns, store, who);
            Gone::Made
        }
        Ran::Off => {
            after_off(turns, store, who);
            Gone::Made
        }
        Ran::Raised => {
            after(turns, store, who, &touched);
            Gone::Made
        }
        Ran::Not => go_stage(store, turns, who, false),
    }
}

/// The same of the user that has moved last. An instruction, or a stage that is made by one look and leaves it in its turn, leaves it where it stands among
/// the ready, so that the lists aren't written: who moves on and on isn't to be put last each time.
pub fn proceed_on(store: &mut Store, turns: &mut Turns, who: Who) -> Gone
    requires valid { IsValid (world store.old) }
    requires kept { AreKept store.old turns.old.waits turns.old.marks }
    ensures made { OnTrue (is_made result) (IsReadyMove store.old (record { who = who; pick = None }) asks.Run
        × IsStepTo store.old (record { who = who; pick = None }) asks.Run store.new Said.Nothing) }
    ensures ended { OnTrue (is_made result) (IsEnded store.old store.new None) }
    ensures waits { result ≡ Gone.Waits → IsMoveReady (world store.old) (place_of store.old who) → ⊥ }
    ensures same { OnFalse (is_made result) (store.new ≡ store.old) }
    ensures valid { IsValid (world store.new) }
    ensures kept { AreKept store.new turns.new.waits turns.new.marks }
    ensures still { OnFalse (is_made result) (standing turns.new.waits ≡ standing turns.old.waits) }
{
    if let Some(code) = call_of(store, who) {
        return go_call(store, turns, who, code, true);
    }
    store.names();
    let mut touched = Touched::Any;
    let ran = fk_calls::run(store, who, &mut touched);
    // And so they do in the world that it leaves.
    store.names();
    match ran {
        Ran::On => {
            after_stay(turns, store, who);
            Gone::Made
        }
        Ran::Off => {
            after_entry(turns, store, who);
            Gone::Made
        }
        Ran::Raised => {
            after(turns, store, who, &touched);
            Gone::Made
        }
        Ran::Not => go_stage(store, turns, who, true),
    }
}

/// The code of the call in which a thread is, so that it makes no instruction. It is a hint: nothing is said of it.
#[inline(always)]
fn call_of(store: &Store, who: Who) -> Option<u64> {
    match store.thread(who) {
        Some(thread) => match thread.mode {
            Mode::Calling => Some(thread.regs[0]),
            Mode::Running | Mode::Halted(_) | Mode::Native => None,
        },
        None => None,
    }
}

/// Makes the next stage of the user in a slot, where that tells nothing, and keeps the lists. Who stays needn't go last.
#[inline(never)]
pub fn proceed_stage(store: &mut Store, turns: &mut Turns, who: Who, stays: bool) -> bool
    requires valid { IsValid (world store.old) }
    requires kept { AreKept store.old turns.old.waits turns.old.marks }
    ensures made { OnTrue result (IsReadyMove store.old (record { who = who; pick = None }) asks.Run
        × IsStepTo store.old (record { who = who; pick = None }) asks.Run store.new Said.Nothing) }
    ensures ended { OnTrue result (IsEnded store.old store.new None) }
    ensures same { OnFalse result (store.new ≡ store.old) }
    ensures valid { IsValid (world store.new) }
    ensures kept { AreKept store.new turns.new.waits turns.new.marks }
    ensures placed { OnFalse stays (OnTrue result (IsPut store.old (record { who = who; pick = None }) asks.Run store.new (standing turns.new.waits))) }
    ensures still { OnFalse result (standing turns.new.waits ≡ standing turns.old.waits) }
{
    if !seat_for(turns, store, who) {
        return false;
    }
    store.names();
    let mut touched = Touched::Any;
    let made = fk_calls::stage(store, who, &mut touched);
    // And so they do in the world that the move leaves.
    store.names();
    after_silent_if(turns, store, made, who, &touched, stays);
    made
}
