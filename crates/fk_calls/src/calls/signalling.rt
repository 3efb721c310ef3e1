//! Signals by one look: one who sleeps on the condition is woken where it stands, and the signal is done.
ghost use Rattle.std.specs.Prelude.{◌≡◌, [], ◌∷◌, Some, IfSome};
ghost use Rattle.std.specs.Bool.{OnTrue, OnFalse};
ghost use Rattle.fk_model.specs.Calls.{todo_of};
ghost use Rattle.fk_model.specs.Holds.{decider};
ghost use Rattle.fk_model.specs.Places.{Path};
ghost use Rattle.fk_model.specs.Valid.{IsValid};
ghost use Rattle.fk_model.specs.World.{apply};
ghost use Rattle.fk_model.specs.World.Change.{Alter};
ghost use Rattle.fk_model.specs.World.Edit.{Finish, Replace};
ghost use Rattle.fk_changes.specs.Threads.Sleepers.{IsAsleep};
ghost use Rattle.fk_store.specs.Store.Paths.{path, place};
ghost use Rattle.fk_store.specs.Store.World.{world};
ghost use Rattle.fk_calls.specs.Calls.Signals.{HasWoken, IsSignalling};

use crate::calls::judging::free_user;
use fk_changes::readers::{Caller, cond_in};
use fk_changes::threads::{Answers, asleep_on, finish, wake};
use fk_model::call::COND_SIGNAL;
use fk_model::{Mode, Stage, Who};
use fk_store::Store;

/// The condition that the free user in a slot signals, if its call is a signal.
#[inline(always)]
pub fn signal_of(store: &Store, who: Who) -> Option<u64>
    ensures { IfSome result (λ cond. IsSignalling (world store.now) (place (path store.now) who) cond) }
{
    let thread = free_user(store, who)?;
    match thread.mode {
        Mode::Calling => signal_named(&thread.regs),
        Mode::Running | Mode::Halted(_) | Mode::Native => None,
    }
}

/// The condition that registers name, if they name a signal.
#[tactic(auto, unfolding(fk_model::specs::Calls::todo_of))]
#[inline(always)]
fn signal_named(registers: &[u64; 16]) -> Option<u64>
    ensures { IfSome result (λ cond. todo_of registers.now ≡ Some (Stage.CondSignal cond ∷ [])) }
{
    match registers[0] {
        COND_SIGNAL => Some(registers[1]),
        _ => None,
    }
}

/// Makes the signal of a user, where it picks this one, which sleeps on the condition; and whether it does. Nothing is held. Wherever it declines all stays
/// as it is.
#[inline(always)]
pub fn signal(store: &mut Store, who: Who, cond: u64, slot: u8) -> bool
    requires valid { IsValid (world store.old) }
    requires unheld { (q : Path) → decider (world store.old) q ≡ None }
    requires signals { IsSignalling (world store.old) (place (path store.old) who) cond }
    ensures woken { OnTrue result (HasWoken store.old store.new who (record { space = who.space; slot = slot })) }
    ensures same { OnFalse result (store.new ≡ store.old) }
{
    store.names();
    let caller = Caller {
        who,
        is_porter: false,
    };
    let Ok(()) = cond_in(store, caller, who.space, cond) else {
        return false;
    };
    let other = Who {
        space: who.space,
        slot,
    };
    let Some(mutex) = asleep_on(store, other, cond) else {
        return false;
    };
    wakes(store, who, other, mutex);
    true
}

/// A sleeper is at the lock of its mutex, and then the stage is done of the thread that wakes it.
#[inline(always)]
fn wakes(store: &mut Store, who: Who, other: Who, mutex: u64)
    requires sleeps { IsAsleep (world store.old) (place (path store.old) other) mutex }
    ensures world { world store.new ≡ apply (Alter (place (path store.old) who) (Finish []))
        (apply (Alter (place (path store.old) other) (Replace (Stage.MutexLock mutex))) (world store.old)) }
    ensures paths { path store.new ≡ path store.old }
{
    wake(store, other, mutex);
    finish(store, who, Answers::Nothing);
}
