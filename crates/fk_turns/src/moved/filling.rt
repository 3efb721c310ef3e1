//! The first lists of a store.
ghost use Rattle.std.specs.Prelude.{◌≡◌, ◌&&◌, ◌||◌, [], IfOk, OnOk};
ghost use Rattle.fk_model.specs.declared.names.Who as names_of;
ghost use Rattle.fk_waits.specs.Causes.Names.{is_same};
ghost use Rattle.fk_waits.specs.Waits.Lists.{stands};
ghost use Rattle.fk_waits.specs.Turns.Turns.{IsSound};
ghost use Rattle.fk_turns.specs.Moved.Kept.{is_user_at, AreKept};

use crate::moved::users::is_user;
use fk_model::{NoMemory, Who};
use fk_store::Store;
use fk_waits::turns::Turns;
use std::alloc::Global;

/// The lists of a store whose user threads are all ready, or may be.
///
/// # Errors
///
/// There is no memory for them.
pub fn of(alloc: Global, store: &Store) -> Result<Turns, NoMemory>
    ensures { IfOk result (λ turns. AreKept store.now turns.waits turns.marks) }
{
    let mut turns = Turns::new(alloc)?;
    // So the lists grow once, and not with each thread.
    turns.reserve_for(users(store))?;
    let mut at = store.after(None);
    while let Some(who) = at {
        add(&mut turns, store, who)?;
        at = store.after(Some(who));
    }
    Ok(turns)
}

/// How many users' threads there are. It is a hint for how many there is to be room: nothing is said of it.
fn users(store: &Store) -> u64 {
    let mut many = 0u64;
    let mut at = store.after(None);
    while let Some(who) = at {
        if is_user(store, who) {
            many = many.wrapping_add(1);
        }
        at = store.after(Some(who));
    }
    many
}

/// A user's thread is ready.
fn add(turns: &mut Turns, store: &Store, who: Who) -> Result<(), NoMemory>
    requires sound { IsSound turns.old.waits turns.old.marks }
    requires none { turns.old.waits.queued ≡ [] }
    ensures sound { OnOk result (IsSound turns.new.waits turns.new.marks) }
    ensures none { OnOk result (turns.new.waits.queued ≡ []) }
    ensures stands { OnOk result ((other : names_of.Who) → stands other turns.new.waits
        ≡ ((is_same who other && is_user_at store.now who) || stands other turns.old.waits)) }
{
    if is_user(store, who) {
        turns.reserve()?;
        turns.wake(who);
    }
    Ok(())
}
