//! Moves by one look: what a thread is at is matched once, its row is made where it stands, and it is told what the thread is at then. Stages of mutexes
//! and waits on conditions are made so, and in `talks` the Sends and Overs that meet a thread.
ghost use Rattle.std.specs.Prelude.{◌≡◌, ◌≤◌, true, false, [], ◌∷◌, Some, None, IsSome, IfSome};
ghost use Rattle.std.specs.Bool.{OnTrue, OnFalse};
ghost use Rattle.fk_model.specs.declared.moves.Ask.TheVariants as asks;
ghost use Rattle.fk_model.specs.declared.moves.Said.TheVariants as says;
ghost use Rattle.fk_model.specs.Calls.{todo_of};
ghost use Rattle.fk_model.specs.Holds.{decider};
ghost use Rattle.fk_model.specs.Places.{Path};
ghost use Rattle.fk_model.specs.Valid.{IsValid};
ghost use Rattle.fk_model.specs.World.{apply};
ghost use Rattle.fk_model.specs.World.Change.{Alter};
ghost use Rattle.fk_model.specs.World.Edit.{Finish, Replace, SetLocked};
ghost use Rattle.fk_store.specs.Store.Paths.{path, place};
ghost use Rattle.fk_store.specs.Store.Threads.{is_free_at, todo_at};
ghost use Rattle.fk_store.specs.Store.World.{world};
ghost use Rattle.fk_calls.specs.Calls.Doings.{first_of};
ghost use Rattle.fk_calls.specs.Calls.Goings.{is_lock, run_of, touched_by, touched_in, was_made, HasRow, HasTalkRow, IfMade, IfTalked, IsAnyReady};
ghost use Rattle.fk_calls.specs.Calls.Goings.{IsAtOrderly, IsThen, WentTo};
ghost use Rattle.fk_calls.specs.Calls.Rows.{IsFirst};
ghost use Rattle.fk_calls.specs.Calls.Judgements.{IsEnded, IsReadyMove, IsStepTo, TellsTouched};

mod talks;

use crate::calls::going::talks::{may_pass, may_send, over, receive, send};
use crate::calls::judging::free_user;
use fk_changes::readers::{Caller, cond_in, mutex_in};
use fk_changes::threads::{Answers, fall_asleep, finish};
use fk_model::call::{
    CLIENT_OVER, CLIENT_OVER_RECEIVE, CLIENT_RECEIVE, CLIENT_SEND, CLIENT_SEND_OVER_RECEIVE,
    COND_WAIT, MUTEX_LOCK, MUTEX_TRYLOCK, MUTEX_UNLOCK, SERVER_OVER, SERVER_OVER_RECEIVE,
    SERVER_RECEIVE, SERVER_SEND, SERVER_SEND_OVER_RECEIVE,
};
use fk_model::{Mode, Stage, Turn, Who};
use fk_store::Store;

/// What a thread is at, once a stage of it was made.
#[derive(Clone, Copy)]
pub enum Then {
    /// It runs, isn't stopped and has no fault.
    Runs,
    /// It sleeps on a condition, until it is woken.
    Asleep,
}

/// What a stage did besides.
#[derive(Clone, Copy)]
pub enum What {
    /// It locked a mutex.
    Locks { mutex: Who },
    /// It unlocked one. Who waits for it may move.
    Unlocks { mutex: Who },
    /// It unlocked one, which it locks again once it is woken at a condition.
    Sleeps { cond: u64, mutex: Who },
}

/// What a stage did in a talk with a thread.
#[derive(Clone, Copy)]
pub enum Talked {
    /// Words went from the sender to the receiver, which is at its Receive still.
    Sends {
        client: Who,
        receiver: Who,
        sender: Who,
    },
    /// The receiver has the turn, and its Receive is done.
    Passes {
        client: Who,
        receiver: Who,
    },
}

/// What came of a look at a thread.
#[derive(Clone, Copy)]
pub enum Went {
    /// Nothing was made: whether a move of the thread is ready the general way tells.
    Not,
    /// Nothing was made: no move of the thread is ready.
    Waits,
    /// Its next stage was made, and this is what the thread is at then.
    Made { what: What, at: Then },
    /// Its next stage was made, in a talk. What the thread is at then is for a look to tell.
    Talked { by: Talked },
}

/// Makes the next stage of the user in a slot by one look at it, where that is a stage that is made here, and tells what it did and what the thread is at
/// then. Nothing is held. Wherever it declines all stays as it is.
pub fn go(store: &mut Store, who: Who) -> Went
    requires valid { IsValid (world store.old) }
    requires unheld { (q : Path) → decider (world store.old) q ≡ None }
    ensures made { OnTrue (was_made result) (IsReadyMove store.old (run_of who) asks.Run × IsStepTo store.old (run_of who) asks.Run store.new says.Nothing) }
    ensures ended { OnTrue (was_made result) (IsEnded store.old store.new None) }
    ensures touched { IfMade result (λ what at. TellsTouched store.old (run_of who) asks.Run (touched_by what)) }
    ensures row { IfMade result (λ what at. HasRow store.old who what) }
    ensures at { IfMade result (λ what at. IsThen store.new who at) }
    ensures tells { IfTalked result (λ by. TellsTouched store.old (run_of who) asks.Run (touched_in by)) }
    ensures talked { IfTalked result (HasTalkRow store.old who) }
    ensures waits { result ≡ Went.Waits → IsAnyReady (world store.old) (place (path store.old) who) → ⊥ }
    ensures same { OnFalse (was_made result) (store.new ≡ store.old) }
{
    go_at(store, who)
}

/// Makes the next stage of the user in a slot by one look at it, with all that it comes to in one clause.
#[inline(always)]
fn go_at(store: &mut Store, who: Who) -> Went
    requires valid { IsValid (world store.old) }
    requires unheld { (q : Path) → decider (world store.old) q ≡ None }
    ensures { WentTo store.old store.new who result }
{
    let Some(stage) = stage_here(store, who) else {
        return Went::Not;
    };
    match stage {
        Stage::MutexLock { m } => lock(store, who, m),
        Stage::MutexTrylock { m } => try_lock(store, who, m),
        Stage::MutexUnlock { m } => unlock(store, who, m),
        Stage::ClientSend { addr, count } => send(store, who, Turn::Client, addr, count),
        Stage::ServerSend { addr, count } => send(store, who, Turn::Server, addr, count),
        Stage::ClientOver => over(store, who, Turn::Client),
        Stage::ServerOver => over(store, who, Turn::Server),
        Stage::ClientReceive { addr, room } => receive(store, who, Turn::Client, addr, room),
        Stage::ServerReceive { addr, room } => receive(store, who, Turn::Server, addr, room),
        Stage::CondWait { c, m } => sleep(store, who, c, m),
        _ => Went::Not,
    }
}

/// Whether the user in a slot is at the lock of a mutex that isn't locked: then it can move. Nothing is held.
pub fn may_lock(store: &Store, who: Who) -> bool
    requires unheld { (q : Path) → decider (world store.now) q ≡ None }
    ensures free { OnTrue result (is_free_at (world store.now) (place (path store.now) who) ≡ true) }
    ensures ready { OnTrue result (IsReadyMove store.now (run_of who) asks.Run) }
{
    match stage_here(store, who) {
        Some(stage) => is_unlocked(store, who, stage),
        None => false,
    }
}

/// Whether the user in a slot is at a Send or an Over that meets a thread: then it can move. Nothing is held.
pub fn may_talk(store: &Store, who: Who) -> bool
    requires valid { IsValid (world store.now) }
    requires unheld { (q : Path) → decider (world store.now) q ≡ None }
    ensures { OnTrue result (IsReadyMove store.now (run_of who) asks.Run) }
{
    match stage_here(store, who) {
        Some(stage) => meets(store, who, stage),
        None => false,
    }
}

/// Whether the user in a slot meets a thread by this stage, a Send or an Over of it.
#[inline(always)]
fn meets(store: &Store, who: Who, stage: Stage) -> bool
    requires valid { IsValid (world store.now) }
    requires unheld { (q : Path) → decider (world store.now) q ≡ None }
    requires free { is_free_at (world store.now) (place (path store.now) who) ≡ true }
    requires at { IsAtOrderly (world store.now) (place (path store.now) who) stage }
    ensures { OnTrue result (IsReadyMove store.now (run_of who) asks.Run) }
{
    match stage {
        Stage::ClientSend { addr, count } => may_send(store, who, Turn::Client, addr, count),
        Stage::ServerSend { addr, count } => may_send(store, who, Turn::Server, addr, count),
        Stage::ClientOver => may_pass(store, who, Turn::Client),
        Stage::ServerOver => may_pass(store, who, Turn::Server),
        _ => false,
    }
}

/// Whether the user in a slot finds the mutex open at this stage of it.
#[inline(always)]
fn is_unlocked(store: &Store, who: Who, stage: Stage) -> bool
    requires unheld { (q : Path) → decider (world store.now) q ≡ None }
    requires free { is_free_at (world store.now) (place (path store.now) who) ≡ true }
    requires alone { is_lock stage ≡ true → todo_at (world store.now) (place (path store.now) who) ≡ stage ∷ [] }
    ensures { OnTrue result (IsReadyMove store.now (run_of who) asks.Run) }
{
    match stage {
        Stage::MutexLock { m } => is_open(store, who, m),
        _ => false,
    }
}

/// Whether this mutex, which the user in a slot names, is open.
#[inline(always)]
fn is_open(store: &Store, who: Who, m: u64) -> bool
    requires unheld { (q : Path) → decider (world store.now) q ≡ None }
    requires free { is_free_at (world store.now) (place (path store.now) who) ≡ true }
    requires alone { todo_at (world store.now) (place (path store.now) who) ≡ Stage.MutexLock m ∷ [] }
    ensures { OnTrue result (IsReadyMove store.now (run_of who) asks.Run) }
{
    let caller = Caller {
        who,
        is_porter: false,
    };
    let Ok(locked) = mutex_in(store, caller, who.space, m) else {
        return false;
    };
    !locked
}

/// The stage that is made here at which the free user in a slot is, if it is at one.
#[inline(always)]
pub(crate) fn stage_here(store: &Store, who: Who) -> Option<Stage>
    ensures free { IsSome result → is_free_at (world store.now) (place (path store.now) who) ≡ true }
    ensures at { IfSome result (IsAtOrderly (world store.now) (place (path store.now) who)) }
    ensures alone { IfSome result (λ stage. is_lock stage ≡ true → todo_at (world store.now) (place (path store.now) who) ≡ stage ∷ []) }
{
    let thread = free_user(store, who)?;
    match thread.mode {
        Mode::Calling => stage_named(&thread.regs),
        Mode::Running | Mode::Halted(_) | Mode::Native => None,
    }
}

/// The first stage of the call that registers name, if that is made here.
#[tactic(auto, unfolding(fk_model::specs::Calls::todo_of))]
#[inline(always)]
fn stage_named(registers: &[u64; 16]) -> Option<Stage>
    ensures first { IfSome result (λ stage. first_of (todo_of registers.now) ≡ Some stage) }
    ensures alone { IfSome result (λ stage. is_lock stage ≡ true → todo_of registers.now ≡ Some (stage ∷ [])) }
{
    let m = registers[1];
    let addr = registers[2];
    let count = registers[3];
    match registers[0] {
        MUTEX_LOCK => Some(Stage::MutexLock { m }),
        MUTEX_TRYLOCK => Some(Stage::MutexTrylock { m }),
        MUTEX_UNLOCK => Some(Stage::MutexUnlock { m }),
        CLIENT_SEND | CLIENT_SEND_OVER_RECEIVE => Some(Stage::ClientSend { addr, count }),
        SERVER_SEND | SERVER_SEND_OVER_RECEIVE => Some(Stage::ServerSend { addr, count }),
        CLIENT_OVER | CLIENT_OVER_RECEIVE => Some(Stage::ClientOver),
        SERVER_OVER | SERVER_OVER_RECEIVE => Some(Stage::ServerOver),
        CLIENT_RECEIVE => Some(Stage::ClientReceive {
            addr: registers[4],
            room: registers[5],
        }),
        SERVER_RECEIVE => Some(Stage::ServerReceive {
            addr: registers[4],
            room: registers[5],
        }),
        COND_WAIT => Some(Stage::CondWait {
            c: m,
            m: registers[2],
        }),
        _ => None,
    }
}

/// Locks a mutex where it isn't locked, and waits where it is.
#[inline(always)]
fn lock(store: &mut Store, who: Who, m: u64) -> Went
    requires valid { IsValid (world store.old) }
    requires unheld { (q : Path) → decider (world store.old) q ≡ None }
    requires free { is_free_at (world store.old) (place (path store.old) who) ≡ true }
    requires alone { todo_at (world store.old) (place (path store.old) who) ≡ Stage.MutexLock m ∷ [] }
    ensures { WentTo store.old store.new who result }
{
    store.names();
    let caller = Caller {
        who,
        is_porter: false,
    };
    let Ok(locked) = mutex_in(store, caller, who.space, m) else {
        return Went::Not;
    };
    if locked {
        return Went::Waits;
    }
    let mutex = mutex_at(who, m);
    sets(store, who, mutex, true);
    Went::Made {
        what: What::Locks { mutex },
        at: Then::Runs,
    }
}

/// Locks a mutex where it isn't locked.
#[inline(always)]
fn try_lock(store: &mut Store, who: Who, m: u64) -> Went
    requires valid { IsValid (world store.old) }
    requires unheld { (q : Path) → decider (world store.old) q ≡ None }
    requires free { is_free_at (world store.old) (place (path store.old) who) ≡ true }
    requires alone { todo_at (world store.old) (place (path store.old) who) ≡ Stage.MutexTrylock m ∷ [] }
    ensures { WentTo store.old store.new who result }
{
    store.names();
    let caller = Caller {
        who,
        is_porter: false,
    };
    let Ok(locked) = mutex_in(store, caller, who.space, m) else {
        return Went::Not;
    };
    if locked {
        return Went::Not;
    }
    let mutex = mutex_at(who, m);
    sets(store, who, mutex, true);
    Went::Made {
        what: What::Locks { mutex },
        at: Then::Runs,
    }
}

/// Unlocks a mutex where it is locked.
#[inline(always)]
fn unlock(store: &mut Store, who: Who, m: u64) -> Went
    requires valid { IsValid (world store.old) }
    requires unheld { (q : Path) → decider (world store.old) q ≡ None }
    requires free { is_free_at (world store.old) (place (path store.old) who) ≡ true }
    requires alone { todo_at (world store.old) (place (path store.old) who) ≡ Stage.MutexUnlock m ∷ [] }
    ensures { WentTo store.old store.new who result }
{
    store.names();
    let caller = Caller {
        who,
        is_porter: false,
    };
    let Ok(locked) = mutex_in(store, caller, who.space, m) else {
        return Went::Not;
    };
    if !locked {
        return Went::Not;
    }
    let mutex = mutex_at(who, m);
    sets(store, who, mutex, false);
    Went::Made {
        what: What::Unlocks { mutex },
        at: Then::Runs,
    }
}

/// Unlocks a mutex where it is locked, and sleeps on a condition.
#[inline(always)]
fn sleep(store: &mut Store, who: Who, c: u64, m: u64) -> Went
    requires valid { IsValid (world store.old) }
    requires unheld { (q : Path) → decider (world store.old) q ≡ None }
    requires free { is_free_at (world store.old) (place (path store.old) who) ≡ true }
    requires alone { todo_at (world store.old) (place (path store.old) who) ≡ Stage.CondWait c m ∷ [] }
    ensures { WentTo store.old store.new who result }
{
    store.names();
    let caller = Caller {
        who,
        is_porter: false,
    };
    let Ok(()) = cond_in(store, caller, who.space, c) else {
        return Went::Not;
    };
    let Ok(locked) = mutex_in(store, caller, who.space, m) else {
        return Went::Not;
    };
    if !locked {
        return Went::Not;
    }
    let mutex = mutex_at(who, m);
    falls(store, who, mutex, c, m);
    Went::Made {
        what: What::Sleeps { cond: c, mutex },
        at: Then::Asleep,
    }
}

/// The name of what is in a slot of a thread's space.
#[inline(always)]
fn mutex_at(who: Who, m: u64) -> Who
    requires slot { m ≤ 255 }
    ensures { result ≡ record { space = who.space; slot = m } }
{
    Who {
        space: who.space,
        slot: m as u8,
    }
}

/// A mutex is set, and then the stage of the thread is done that sets it.
#[inline(always)]
fn sets(store: &mut Store, who: Who, mutex: Who, locked: bool)
    ensures world { world store.new ≡ apply (Alter (place (path store.old) who) (Finish []))
        (apply (Alter (place (path store.old) mutex) (SetLocked locked)) (world store.old)) }
    ensures paths { path store.new ≡ path store.old }
{
    store.set_locked(mutex, locked);
    finish(store, who, Answers::Nothing);
}

/// A mutex is unlocked, and then the thread sleeps that was about to wait on a condition.
#[inline(always)]
fn falls(store: &mut Store, who: Who, mutex: Who, c: u64, m: u64)
    requires waits { IsFirst (Stage.CondWait c m) (todo_at (world store.old) (place (path store.old) who)) }
    ensures world { world store.new ≡ apply (Alter (place (path store.old) who) (Replace (Stage.CondAsleep c m)))
        (apply (Alter (place (path store.old) mutex) (SetLocked false)) (world store.old)) }
    ensures paths { path store.new ≡ path store.old }
{
    store.set_locked(mutex, false);
    fall_asleep(store, who, c, m);
}
