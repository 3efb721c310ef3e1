//! Stages of mutexes.
ghost use Rattle.std.specs.Prelude.{◌≡◌, ◌≤◌, IfOk};
ghost use Rattle.fk_model.specs.SyncRows as rows;
ghost use Rattle.fk_plans.specs.Plans.Verdicts.{Judges, IsSureVerdict};

use fk_changes::readers::{Caller, mutex_in};
use fk_changes::threads::Answers;
use fk_model::Who;
use fk_model::status::{NONE, NOTLOCKED};
use fk_plans::{Deed, Plan, Verdict};
use fk_store::Store;

/// The stage locks a mutex of the caller's space, or unlocks it, and is done.
fn sets(caller: Caller, m: u64, locked: bool) -> Verdict
    requires { m ≤ 255 }
    ensures { result ≡ Verdict.Done (Plan.One (Deed.Locks (record { space = caller.who.space; slot = m }) locked)) Answers.Nothing }
{
    let mutex = Who {
        space: caller.who.space,
        slot: m as u8,
    };
    Verdict::Done(Plan::One(Deed::Locks { mutex, locked }), Answers::Nothing)
}

/// It waits while the mutex is locked.
///
/// # Errors
///
/// The status of a refusal: the mutex (BADHANDLE, WRONGKIND).
#[tactic(auto, unfolding(fk_model::specs::SyncRows::mutex_lock))]
pub fn mutex_lock(store: &Store, caller: Caller, m: u64) -> Result<Verdict, u8>
    ensures row { Judges store.now caller result (λ w c. rows.mutex_lock w c m) }
    ensures sure { IfOk result IsSureVerdict }
{
    if mutex_in(store, caller, caller.who.space, m)? {
        return Ok(Verdict::Waits);
    }
    Ok(sets(caller, m, true))
}

/// It is refused where the mutex is locked.
///
/// # Errors
///
/// The status of the first refusal: the mutex (BADHANDLE, WRONGKIND); NONE, where it is locked.
#[tactic(auto, unfolding(fk_model::specs::SyncRows::mutex_trylock))]
pub fn mutex_trylock(store: &Store, caller: Caller, m: u64) -> Result<Verdict, u8>
    ensures row { Judges store.now caller result (λ w c. rows.mutex_trylock w c m) }
    ensures sure { IfOk result IsSureVerdict }
{
    if mutex_in(store, caller, caller.who.space, m)? {
        return Err(NONE);
    }
    Ok(sets(caller, m, true))
}

/// It is refused where the mutex isn't locked.
///
/// # Errors
///
/// The status of the first refusal: the mutex (BADHANDLE, WRONGKIND); NOTLOCKED.
#[tactic(auto, unfolding(fk_model::specs::SyncRows::mutex_unlock))]
pub fn mutex_unlock(store: &Store, caller: Caller, m: u64) -> Result<Verdict, u8>
    ensures row { Judges store.now caller result (λ w c. rows.mutex_unlock w c m) }
    ensures sure { IfOk result IsSureVerdict }
{
    if !mutex_in(store, caller, caller.who.space, m)? {
        return Err(NOTLOCKED);
    }
    Ok(sets(caller, m, false))
}
