//! Stages of conditions.
ghost use Rattle.std.specs.Prelude.{◌≡◌, ℕ, List, false, IfOk, Some, None};
ghost use Rattle.fk_model.specs.declared.stage.Stage.TheVariants.{CondWait};
ghost use Rattle.fk_model.specs.SyncRows as rows;
ghost use Rattle.fk_store.specs.Store.Moves.{picked_by};
ghost use Rattle.fk_store.specs.Store.Paths.{path, place};
ghost use Rattle.fk_store.specs.Store.Threads.{todo_at};
ghost use Rattle.fk_store.specs.Store.World.{world};
ghost use Rattle.fk_changes.specs.Threads.Firsts.{IsFirst};
ghost use Rattle.fk_plans.specs.Plans.Plans.{caller_by};
ghost use Rattle.fk_plans.specs.Plans.Verdicts.{Judges, IsSureVerdict, IsVerdict, outcome_by};

use fk_changes::readers::{Caller, cond_in, is_in, mutex_in};
use fk_changes::threads::{Answers, asleep_on, is_slept_on};
use fk_model::Who;
use fk_model::status::NOTLOCKED;
use fk_plans::{Deed, Plan, Verdict, sleeps};
use fk_store::Store;

/// It unlocks the mutex, and the caller goes on asleep.
///
/// # Errors
///
/// The status of the first refusal: the condition, then the mutex (BADHANDLE, WRONGKIND); NOTLOCKED.
#[tactic(auto, unfolding(fk_model::specs::SyncRows::cond_wait))]
pub fn cond_wait(store: &Store, caller: Caller, cond: u64, m: u64) -> Result<Verdict, u8>
    requires first { IsFirst (CondWait cond m) (todo_at (world store.now) (place (path store.now) caller.who)) }
    ensures row { Judges store.now caller result (λ w c. rows.cond_wait w c cond m) }
    ensures sure { IfOk result IsSureVerdict }
{
    cond_in(store, caller, caller.who.space, cond)?;
    if !mutex_in(store, caller, caller.who.space, m)? {
        return Err(NOTLOCKED);
    }
    Ok(sleeps(store, caller, cond, m))
}

/// A sleeper is ready only to be refused; a signal ends its sleep.
///
/// # Errors
///
/// The status of the first refusal: the condition, then the mutex (BADHANDLE, WRONGKIND).
#[tactic(auto, unfolding(fk_model::specs::SyncRows::cond_asleep))]
pub fn cond_asleep(store: &Store, caller: Caller, cond: u64, m: u64) -> Result<Verdict, u8>
    ensures row { Judges store.now caller result (λ w c. rows.cond_asleep w c cond m) }
    ensures sure { IfOk result IsSureVerdict }
{
    cond_in(store, caller, caller.who.space, cond)?;
    mutex_in(store, caller, caller.who.space, m)?;
    Ok(Verdict::Waits)
}

/// The sleeper that is picked wakes up.
fn signals(store: &Store, caller: Caller, who: Who, cond: u64) -> Verdict
    ensures row { (words : List ℕ) → outcome_by (world store.now) (path store.now) (caller_by (path store.now) caller words) result
        ≡ rows.picks_sleeper (world store.now) (caller_by (path store.now) caller words) cond (Some (place (path store.now) who)) }
    ensures fits { IsVerdict store.now caller result }
    ensures sure { IsSureVerdict result }
{
    match asleep_on(store, who, cond) {
        Some(mutex) if is_in(store, who, caller.who.space) => {
            let thread = who;
            Verdict::Done(Plan::One(Deed::Wakes { thread, mutex }), Answers::Nothing)
        }
        Some(_) | None => Verdict::Waits,
    }
}

/// Where nobody is picked, it is done if nobody sleeps.
fn signals_nobody(store: &Store, caller: Caller, cond: u64) -> Verdict
    ensures row { (words : List ℕ) → outcome_by (world store.now) (path store.now) (caller_by (path store.now) caller words) result
        ≡ rows.picks_sleeper (world store.now) (caller_by (path store.now) caller words) cond None }
    ensures fits { IsVerdict store.now caller result }
    ensures sure { IsSureVerdict result }
{
    if is_slept_on(store, caller.who.space, cond) {
        return Verdict::Waits;
    }
    Verdict::Done(Plan::Nothing, Answers::Nothing)
}

/// One sleeper that is picked wakes up; where nobody sleeps, nobody is picked.
///
/// # Errors
///
/// The status of a refusal: the condition (BADHANDLE, WRONGKIND).
#[tactic(auto, unfolding(fk_model::specs::SyncRows::cond_signal))]
pub fn cond_signal(
    store: &Store,
    caller: Caller,
    cond: u64,
    pick: Option<Who>,
) -> Result<Verdict, u8>
    ensures row { Judges store.now caller result (λ w c. rows.cond_signal w c (picked_by (path store.now) pick) cond) }
    ensures sure { IfOk result IsSureVerdict }
{
    cond_in(store, caller, caller.who.space, cond)?;
    Ok(match pick {
        Some(who) => signals(store, caller, who, cond),
        None => signals_nobody(store, caller, cond),
    })
}

/// All who sleep on it wake up.
///
/// # Errors
///
/// The status of a refusal: the condition (BADHANDLE, WRONGKIND).
#[tactic(auto, unfolding(fk_model::specs::SyncRows::cond_broadcast))]
pub fn cond_broadcast(store: &Store, caller: Caller, cond: u64) -> Result<Verdict, u8>
    requires user { caller.is_porter ≡ false }
    ensures row { Judges store.now caller result (λ w c. rows.cond_broadcast w c cond) }
    ensures sure { IfOk result IsSureVerdict }
{
    cond_in(store, caller, caller.who.space, cond)?;
    Ok(Verdict::WakesAll { cond })
}
