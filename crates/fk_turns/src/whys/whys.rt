//! Reasons.
ghost use Rattle.std.specs.Prelude.{◌≡◌, ℕ, Option, None, Some, false, IfSome, is_some};
ghost use Rattle.std.specs.Bool.{OnTrue};
ghost use Rattle.fk_model.specs.declared.moves.Ask.TheVariants as asks;
ghost use Rattle.fk_model.specs.declared.names.Kind.TheVariants as kinds;
ghost use Rattle.fk_model.specs.Holds.{decider};
ghost use Rattle.fk_model.specs.Moves.{IsReady};
ghost use Rattle.fk_model.specs.Places.{Path};
ghost use Rattle.fk_model.specs.Searches.{talk_at, thread_at};
ghost use Rattle.fk_model.specs.Talks as talks;
ghost use Rattle.fk_model.specs.Valid.{IsValid};
ghost use Rattle.fk_store.specs.Store.Bodies.{thread_by};
ghost use Rattle.fk_store.specs.Store.Paths.{path, place};
ghost use Rattle.fk_store.specs.Store.World.{world};
ghost use Rattle.laws_waits.specs.Stuck as stuck;
ghost use Rattle.laws_waits.specs.Stuck.{IsAtStage};
ghost use Rattle.fk_turns.specs.Whys.Causes.{cause_at};
ghost use Rattle.fk_turns.specs.Whys.Whys.{is_lock_stage, IsAt, IsKnown, IsLocked, IsStill, IsThere, IsWhy};

use crate::whys::causes::{named, outermost_held};
use crate::whys::stages::first_stage;
use fk_calls::is_user;
use fk_changes::readers::{Caller, handle};
use fk_model::limits::LAST_USER_SLOT;
use fk_model::{Body, Kind, Stage, Thread, Who};
use fk_store::Store;

/// Why no move of a user thread is ready: what may end that.
#[derive(Clone, Copy)]
pub enum Why {
    /// A change of its own body, or one that takes an object from its place.
    Still,
    /// Or a change of the body of this object.
    At { key: Who },
    /// Any move of another but an instruction after which that one runs on.
    Loud,
    /// Any change.
    Barred,
}

/// Why no move of the thread in a slot is ready, whatever it picks. It holds where none is.
pub fn reason(store: &Store, who: Who) -> Why
    requires { IsValid (world store.now) }
    ensures { ((pick : Option Path) → IsReady (world store.now) (place (path store.now) who) pick asks.Run → ⊥)
        → IsWhy (world store.now) (path store.now) (place (path store.now) who) result }
{
    match store.thread(who) {
        Some(thread) => why_not(store, who, thread),
        None => Why::Barred,
    }
}

/// The locked mutex at which the thread in a slot waits, while nothing is held. No move of it is ready then, and the mutex is its cause.
pub fn at_locked(store: &Store, who: Who) -> Option<Who>
    ensures why { IfSome result (λ key. IsAt (world store.now) (place (path store.now) who) (place (path store.now) key)) }
    ensures cause { IfSome result (λ key. place (path store.now) key ≡ cause_at (world store.now) (place (path store.now) who)) }
{
    if store.is_any_held() {
        return None;
    }
    match store.thread(who) {
        Some(thread) => locked_before(store, who, thread),
        None => None,
    }
}

/// The same of this thread.
fn locked_before(store: &Store, who: Who, thread: &Thread) -> Option<Who>
    requires unheld { (q : Path) → decider (world store.now) q ≡ None }
    requires there { Some (thread_by (path store.now) thread.now) ≡ thread_at (world store.now) (place (path store.now) who) }
    ensures why { IfSome result (λ key. IsAt (world store.now) (place (path store.now) who) (place (path store.now) key)) }
    ensures cause { IfSome result (λ key. place (path store.now) key ≡ cause_at (world store.now) (place (path store.now) who)) }
{
    if is_resting(thread) {
        return None;
    }
    match first_stage(thread) {
        Some(stage) => locked_at(store, who, thread, stage),
        None => None,
    }
}

/// The same at this stage of it.
fn locked_at(store: &Store, who: Who, thread: &Thread, stage: Stage) -> Option<Who>
    requires unheld { (q : Path) → decider (world store.now) q ≡ None }
    requires there { Some (thread_by (path store.now) thread.now) ≡ thread_at (world store.now) (place (path store.now) who) }
    requires awake { stuck.is_resting (thread_by (path store.now) thread.now) ≡ false }
    requires stage { talks.first_stage (thread_by (path store.now) thread.now).mode ≡ Some stage }
    ensures why { IfSome result (λ key. IsAt (world store.now) (place (path store.now) who) (place (path store.now) key)) }
    ensures cause { IfSome result (λ key. place (path store.now) key ≡ cause_at (world store.now) (place (path store.now) who)) }
{
    match stage {
        Stage::MutexLock { m } => locked_named(store, who, thread, m),
        _ => None,
    }
}

/// The same of this mutex.
fn locked_named(store: &Store, who: Who, thread: &Thread, mutex: u64) -> Option<Who>
    requires unheld { (q : Path) → decider (world store.now) q ≡ None }
    requires there { Some (thread_by (path store.now) thread.now) ≡ thread_at (world store.now) (place (path store.now) who) }
    requires awake { stuck.is_resting (thread_by (path store.now) thread.now) ≡ false }
    requires stage { talks.first_stage (thread_by (path store.now) thread.now).mode ≡ Some (Stage.MutexLock mutex) }
    ensures why { IfSome result (λ key. IsAt (world store.now) (place (path store.now) who) (place (path store.now) key)) }
    ensures cause { IfSome result (λ key. place (path store.now) key ≡ cause_at (world store.now) (place (path store.now) who)) }
{
    match locked(store, who.space, mutex) {
        Some(slot) => Some(Who {
            space: who.space,
            slot,
        }),
        None => None,
    }
}

/// The condition on which the thread in a slot sleeps, while nothing is held. No move of it is ready then, and the condition is its cause.
pub fn asleep_at(store: &Store, who: Who) -> Option<Who>
    ensures why { IfSome result (λ key. IsStill (world store.now) (place (path store.now) who)) }
    ensures cause { IfSome result (λ key. place (path store.now) key ≡ cause_at (world store.now) (place (path store.now) who)) }
{
    if store.is_any_held() {
        return None;
    }
    match store.thread(who) {
        Some(thread) => asleep_before(store, who, thread),
        None => None,
    }
}

/// The same of this thread.
fn asleep_before(store: &Store, who: Who, thread: &Thread) -> Option<Who>
    requires unheld { (q : Path) → decider (world store.now) q ≡ None }
    requires there { Some (thread_by (path store.now) thread.now) ≡ thread_at (world store.now) (place (path store.now) who) }
    ensures why { IfSome result (λ key. IsStill (world store.now) (place (path store.now) who)) }
    ensures cause { IfSome result (λ key. place (path store.now) key ≡ cause_at (world store.now) (place (path store.now) who)) }
{
    if is_resting(thread) {
        return None;
    }
    match first_stage(thread) {
        Some(stage) => asleep_in(store, who, thread, stage),
        None => None,
    }
}

/// The same at this stage of it.
fn asleep_in(store: &Store, who: Who, thread: &Thread, stage: Stage) -> Option<Who>
    requires unheld { (q : Path) → decider (world store.now) q ≡ None }
    requires there { Some (thread_by (path store.now) thread.now) ≡ thread_at (world store.now) (place (path store.now) who) }
    requires awake { stuck.is_resting (thread_by (path store.now) thread.now) ≡ false }
    requires stage { talks.first_stage (thread_by (path store.now) thread.now).mode ≡ Some stage }
    ensures why { IfSome result (λ key. IsStill (world store.now) (place (path store.now) who)) }
    ensures cause { IfSome result (λ key. place (path store.now) key ≡ cause_at (world store.now) (place (path store.now) who)) }
{
    match stage {
        Stage::CondAsleep { c, m } => asleep_named(store, who, thread, c, m),
        _ => None,
    }
}

/// The same of this condition and this mutex.
fn asleep_named(store: &Store, who: Who, thread: &Thread, cond: u64, mutex: u64) -> Option<Who>
    requires unheld { (q : Path) → decider (world store.now) q ≡ None }
    requires there { Some (thread_by (path store.now) thread.now) ≡ thread_at (world store.now) (place (path store.now) who) }
    requires awake { stuck.is_resting (thread_by (path store.now) thread.now) ≡ false }
    requires stage { talks.first_stage (thread_by (path store.now) thread.now).mode ≡ Some (Stage.CondAsleep cond mutex) }
    ensures why { IfSome result (λ key. IsStill (world store.now) (place (path store.now) who)) }
    ensures cause { IfSome result (λ key. place (path store.now) key ≡ cause_at (world store.now) (place (path store.now) who)) }
{
    if !is_mutex(store, who.space, mutex) {
        return None;
    }
    match cond_slot(store, who.space, cond) {
        Some(slot) => Some(Who {
            space: who.space,
            slot,
        }),
        None => None,
    }
}

/// The slot of a condition of a space, if one is there.
fn cond_slot(store: &Store, space: u32, cond: u64) -> Option<u8>
    ensures slot { IfSome result (λ slot. slot ≡ cond) }
    ensures there { IfSome result (λ slot. IsThere (world store.now) (path store.now space) cond kinds.Cond) }
{
    if !is_cond(store, space, cond) {
        return None;
    }
    if cond > LAST_USER_SLOT {
        return None;
    }
    Some(cond as u8)
}

/// Why no move of this thread is ready: it rests, it lies beneath a hold, or it waits in a call.
fn why_not(store: &Store, who: Who, thread: &Thread) -> Why
    requires valid { IsValid (world store.now) }
    requires there { Some (thread_by (path store.now) thread.now) ≡ thread_at (world store.now) (place (path store.now) who) }
    ensures { IsKnown (world store.now) (path store.now) (place (path store.now) who) result }
{
    if is_resting(thread) {
        return Why::Still;
    }
    match outermost_held(store, who) {
        Some(space) => Why::At { key: space },
        None => in_call(store, who, thread),
    }
}

/// It is stopped, or has a fault, or neither runs nor is in a call.
pub fn is_resting(thread: &Thread) -> bool
    ensures { (p : ℕ → Path) → result ≡ stuck.is_resting (thread_by p thread.now) }
{
    thread.stops != 0 || has_fault(thread) || !is_user(thread.mode)
}

/// It has a fault.
fn has_fault(thread: &Thread) -> bool
    ensures { (p : ℕ → Path) → result ≡ is_some (thread_by p thread.now).fault }
{
    match thread.fault {
        Some(_) => true,
        None => false,
    }
}

/// What it waits for in a call, as far as that is known.
fn in_call(store: &Store, who: Who, thread: &Thread) -> Why
    requires valid { IsValid (world store.now) }
    requires there { Some (thread_by (path store.now) thread.now) ≡ thread_at (world store.now) (place (path store.now) who) }
    ensures { IsKnown (world store.now) (path store.now) (place (path store.now) who) result }
{
    match first_stage(thread) {
        Some(stage) => known_or(
            store,
            who,
            thread,
            stage,
            at_stage(store, who, thread, stage),
        ),
        None => Why::Barred,
    }
}

/// Where that isn't known at this stage of it, and nothing is held, there is a reason that no instruction of another ends. Who locks a mutex waits for that
/// alone, and is found there.
fn known_or(store: &Store, who: Who, thread: &Thread, stage: Stage, why: Why) -> Why
    requires valid { IsValid (world store.now) }
    requires there { Some (thread_by (path store.now) thread.now) ≡ thread_at (world store.now) (place (path store.now) who) }
    requires stage { talks.first_stage (thread_by (path store.now) thread.now).mode ≡ Some stage }
    requires known { IsKnown (world store.now) (path store.now) (place (path store.now) who) why }
    ensures { IsKnown (world store.now) (path store.now) (place (path store.now) who) result }
{
    match why {
        Why::Barred => {
            if locks(stage) {
                return Why::Barred;
            }
            if store.is_any_held() {
                return Why::Barred;
            }
            store.names();
            Why::Loud
        }
        Why::Still | Why::At { .. } | Why::Loud => why,
    }
}

/// A stage locks a mutex.
fn locks(stage: Stage) -> bool
    ensures { result ≡ is_lock_stage stage }
{
    match stage {
        Stage::MutexLock { .. } => true,
        _ => false,
    }
}

/// The same at this stage of it.
fn at_stage(store: &Store, who: Who, thread: &Thread, stage: Stage) -> Why
    requires there { Some (thread_by (path store.now) thread.now) ≡ thread_at (world store.now) (place (path store.now) who) }
    requires stage { IsAtStage (world store.now) (place (path store.now) who) stage }
    ensures { IsKnown (world store.now) (path store.now) (place (path store.now) who) result }
{
    match stage {
        Stage::MutexLock { m } => locking(store, who, m),
        Stage::CondAsleep { c, m } => sleeping(store, who, c, m),
        Stage::Connect { h } => connecting(store, who, thread, h),
        _ => Why::Barred,
    }
}

/// It is about to lock a mutex, which is locked.
fn locking(store: &Store, who: Who, mutex: u64) -> Why
    requires { IsAtStage (world store.now) (place (path store.now) who) (Stage.MutexLock mutex) }
    ensures { IsKnown (world store.now) (path store.now) (place (path store.now) who) result }
{
    match locked(store, who.space, mutex) {
        Some(slot) => Why::At {
            key: Who {
                space: who.space,
                slot,
            },
        },
        None => Why::Barred,
    }
}

/// The slot of a mutex of a space, where it is locked.
fn locked(store: &Store, space: u32, mutex: u64) -> Option<u8>
    ensures { IfSome result (λ slot. IsLocked (world store.now) (path store.now space) mutex slot) }
{
    if mutex > LAST_USER_SLOT {
        return None;
    }
    let slot = mutex as u8;
    match store.mutex(Who { space, slot }) {
        Some(true) => Some(slot),
        Some(false) | None => None,
    }
}

/// It sleeps on a condition until it is signalled.
fn sleeping(store: &Store, who: Who, cond: u64, mutex: u64) -> Why
    requires { IsAtStage (world store.now) (place (path store.now) who) (Stage.CondAsleep cond mutex) }
    ensures { IsKnown (world store.now) (path store.now) (place (path store.now) who) result }
{
    if is_cond(store, who.space, cond) && is_mutex(store, who.space, mutex) {
        return Why::Still;
    }
    Why::Barred
}

/// A condition is in a slot that a user can name.
fn is_cond(store: &Store, space: u32, cond: u64) -> bool
    ensures { OnTrue result (IsThere (world store.now) (path store.now space) cond kinds.Cond) }
{
    if cond > LAST_USER_SLOT {
        return false;
    }
    let slot = cond as u8;
    match store.at(Who { space, slot }) {
        Some(Body::Cond) => true,
        _ => false,
    }
}

/// A mutex is in a slot that a user can name.
fn is_mutex(store: &Store, space: u32, mutex: u64) -> bool
    ensures { OnTrue result (IsThere (world store.now) (path store.now space) mutex kinds.Mutex) }
{
    if mutex > LAST_USER_SLOT {
        return false;
    }
    let slot = mutex as u8;
    match store.at(Who { space, slot }) {
        Some(Body::Mutex { .. }) => true,
        _ => false,
    }
}

/// It connects to a port, and nobody has taken it yet.
fn connecting(store: &Store, who: Who, thread: &Thread, h: u64) -> Why
    requires there { Some (thread_by (path store.now) thread.now) ≡ thread_at (world store.now) (place (path store.now) who) }
    requires stage { IsAtStage (world store.now) (place (path store.now) who) (Stage.Connect h) }
    ensures { IsKnown (world store.now) (path store.now) (place (path store.now) who) result }
{
    match thread.talk {
        Some(_) => Why::Barred,
        None => connecting_by(store, who, h),
    }
}

/// The same without a talk, by a handle that leads to a port.
fn connecting_by(store: &Store, who: Who, h: u64) -> Why
    requires alone { talk_at (world store.now) (place (path store.now) who) ≡ None }
    requires stage { IsAtStage (world store.now) (place (path store.now) who) (Stage.Connect h) }
    ensures { IsKnown (world store.now) (path store.now) (place (path store.now) who) result }
{
    let Some(key) = named(who.space, h) else {
        return Why::Barred;
    };
    let caller = Caller {
        who,
        is_porter: false,
    };
    match handle(store, caller, Kind::Port, h) {
        Ok(_) => Why::At { key },
        Err(_) => Why::Barred,
    }
}
