//! Threads that sleep on a condition.
ghost use Rattle.std.specs.Prelude.{◌≡◌, ◌∷◌, [], ℕ, IfSome};
ghost use Rattle.fk_model.specs.Objects.{and_then};
ghost use Rattle.fk_model.specs.Objects.Body.{Thread_of};
ghost use Rattle.fk_model.specs.Places.{Path};
ghost use Rattle.fk_model.specs.SyncRows as rows;
ghost use Rattle.fk_model.specs.Talks.{first_stage};
ghost use Rattle.fk_model.specs.Valid.{kind_there};
ghost use Rattle.fk_model.specs.World.{apply, apply_all, edited};
ghost use Rattle.fk_model.specs.World.Change.{Alter};
ghost use Rattle.fk_model.specs.World.Edit.{Replace};
ghost use Rattle.fk_model.specs.declared.stage.Stage.TheVariants.{CondAsleep, CondWait, MutexLock};
ghost use Rattle.fk_store.specs.Store.Bodies.{mode_by, thread_by};
ghost use Rattle.fk_store.specs.Store.Paths.{path, place};
ghost use Rattle.fk_store.specs.Store.Threads.{todo_at, todo_of_mode};
ghost use Rattle.fk_store.specs.Store.WellFormed.{HasCall};
ghost use Rattle.fk_store.specs.Store.World.{world};
ghost use Rattle.fk_changes.specs.Threads.Firsts.{IsFirst};
ghost use Rattle.fk_changes.specs.Threads.Sleepers.{asleep_in, fallen, is_changed, IsAsleep};

use crate::threads::going::go_on;
use fk_model::call::{COND_ASLEEP, COND_WAIT, MUTEX_LOCK};
use fk_model::{Mode, Thread, Who};
use fk_store::Store;

/// The mutex in the registers of a sleeper.
fn asleep_in(registers: &[u64; 16], cond: u64) -> Option<u64>
    ensures { result ≡ asleep_in cond registers.now }
{
    if registers[0] == COND_ASLEEP && registers[1] == cond {
        return Some(registers[2]);
    }
    None
}

/// The mutex that a thread will lock which sleeps on a condition.
fn asleep_of(thread: &Thread, cond: u64) -> Option<u64>
    ensures mutex { (p : ℕ → Path) → result ≡ and_then (rows.mutex_after cond) (first_stage (thread_by p thread.now).mode) }
    ensures alone { IfSome result (λ mutex. todo_of_mode (mode_by thread.now.mode thread.now.regs) ≡ CondAsleep cond mutex ∷ []) }
{
    match thread.mode {
        Mode::Calling => asleep_in(&thread.regs, cond),
        Mode::Running | Mode::Halted(_) | Mode::Native => None,
    }
}

/// The mutex that the thread in a slot will lock which sleeps on a condition; nothing where nobody
/// sleeps on it there.
pub fn asleep_on(store: &Store, who: Who, cond: u64) -> Option<u64>
    ensures mutex { result ≡ rows.asleep_on cond ((world store.now).body (place (path store.now) who)) }
    ensures asleep { IfSome result (λ mutex. IsAsleep (world store.now) (place (path store.now) who) mutex) }
{
    match store.thread(who) {
        Some(thread) => asleep_of(thread, cond),
        None => None,
    }
}

/// Whether somebody in a space sleeps on a condition.
pub fn is_slept_on(store: &Store, space: u32, cond: u64) -> bool
    ensures { result ≡ is_changed (rows.sleepers (world store.now) (path store.now space) cond) }
{
    for slot in 0..256u16 {
        let who = Who {
            space,
            slot: slot as u8,
        };
        if asleep_on(store, who, cond).is_some() {
            return true;
        }
    }
    false
}

/// A thread whose call locks a mutex.
fn awake(mut thread: Thread, mutex: u64) -> Thread
    ensures edit { (p : ℕ → Path) (c : ℕ) → todo_of_mode (mode_by thread.mode thread.regs) ≡ CondAsleep c mutex ∷ [] →
        edited (Replace (MutexLock mutex)) (Thread_of (thread_by p thread)) ≡ Thread_of (thread_by p result) }
    ensures talk { result.talk ≡ thread.talk }
    ensures fault { result.fault ≡ thread.fault }
    ensures stops { result.stops ≡ thread.stops }
    ensures call { HasCall result.mode result.regs }
{
    thread.regs[0] = MUTEX_LOCK;
    thread.regs[1] = mutex;
    thread
}

/// A thread that sleeps on a condition wakes up, and locks its mutex next.
#[tactic(auto, using(fk_store::proofs::InStore::changing::ThreadLaws::kind_thread, crate::proofs::InThreads::SleeperLaws::wake_nobody))]
pub fn wake(store: &mut Store, who: Who, mutex: u64)
    requires sleeps { IsAsleep (world store.old) (place (path store.old) who) mutex }
    ensures world { world store.new ≡ apply (Alter (place (path store.old) who) (Replace (MutexLock mutex))) (world store.old) }
    ensures kinds { kind_there (world store.new) ≡ kind_there (world store.old) }
    ensures paths { path store.new ≡ path store.old }
{
    if let Some(&thread) = store.thread(who) {
        go_on(store, who, thread, awake(thread, mutex));
    }
}

/// The thread in a slot wakes up, if it sleeps on a condition.
#[tactic(auto, unfolding(fk_model::specs::World::apply_all))]
fn wake_from(store: &mut Store, who: Who, cond: u64)
    ensures world { let x = place (path store.old) who in
        world store.new ≡ apply_all (rows.woken x (rows.asleep_on cond ((world store.old).body x))) (world store.old) }
    ensures kinds { kind_there (world store.new) ≡ kind_there (world store.old) }
    ensures paths { path store.new ≡ path store.old }
{
    if let Some(mutex) = asleep_on(store, who, cond) {
        wake(store, who, mutex);
    }
}

/// Each thread of a space that sleeps on a condition wakes up, and locks its mutex next.
pub fn wake_all(store: &mut Store, space: u32, cond: u64)
    ensures world { world store.new ≡ apply_all (rows.sleepers (world store.old) (path store.old space) cond) (world store.old) }
    ensures kinds { kind_there (world store.new) ≡ kind_there (world store.old) }
    ensures paths { path store.new ≡ path store.old }
{
    for slot in 0..256u16 {
        let who = Who {
            space,
            slot: slot as u8,
        };
        wake_from(store, who, cond);
    }
}

/// The registers of a thread that waits on a condition, once it sleeps.
fn fallen(registers: [u64; 16]) -> [u64; 16]
    ensures { result ≡ fallen registers }
{
    let mut written = registers;
    if registers[0] == COND_WAIT {
        written[0] = COND_ASLEEP;
    }
    written
}

/// A thread that falls asleep where it is about to wait on a condition.
#[tactic(auto, using(crate::proofs::InThreads::Falling::fall_other))]
fn asleep(mut thread: Thread) -> Thread
    ensures edit { (p : ℕ → Path) (c m : ℕ) → IsFirst (CondWait c m) (todo_of_mode (mode_by thread.mode thread.regs)) →
        edited (Replace (CondAsleep c m)) (Thread_of (thread_by p thread)) ≡ Thread_of (thread_by p result) }
    ensures talk { result.talk ≡ thread.talk }
    ensures fault { result.fault ≡ thread.fault }
    ensures stops { result.stops ≡ thread.stops }
    ensures call { HasCall thread.mode thread.regs → HasCall result.mode result.regs }
{
    if let Mode::Calling = thread.mode {
        thread.regs = fallen(thread.regs);
    }
    thread
}

/// A thread that is about to wait on a condition falls asleep, if it is in a call.
#[tactic(auto, using(fk_store::proofs::InStore::changing::ThreadLaws::kind_thread, crate::proofs::InThreads::Falling::fall_nobody))]
pub fn fall_asleep(store: &mut Store, who: Who, cond: u64, mutex: u64)
    requires waits { IsFirst (CondWait cond mutex) (todo_at (world store.old) (place (path store.old) who)) }
    ensures world { world store.new ≡ apply (Alter (place (path store.old) who) (Replace (CondAsleep cond mutex))) (world store.old) }
    ensures kinds { kind_there (world store.new) ≡ kind_there (world store.old) }
    ensures paths { path store.new ≡ path store.old }
{
    if let Some(&thread) = store.thread(who) {
        go_on(store, who, thread, asleep(thread));
    }
}
