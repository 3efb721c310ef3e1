//! Stages of stop counts.
ghost use Rattle.std.specs.Prelude.{◌≡◌, IfOk};
ghost use Rattle.fk_model.specs.SpaceRows as rows;
ghost use Rattle.fk_plans.specs.Plans.Verdicts.{Judges, IsSureVerdict};

use fk_changes::readers::{Caller, thread_by_handle};
use fk_changes::threads::Answers;
use fk_model::status::{FULL, HELD, NOTSTOPPED};
use fk_plans::{Deed, Plan, Verdict};
use fk_store::Store;

/// A thread is stopped once more, at most 65,535 times.
///
/// # Errors
///
/// The status of the first refusal: the thread (BADHANDLE, WRONGKIND, NULLREF, DEAD); HELD; FULL.
#[tactic(auto, unfolding(fk_model::specs::SpaceRows::thread_stop))]
pub fn thread_stop(store: &Store, caller: Caller, h: u64) -> Result<Verdict, u8>
    ensures row { Judges store.now caller result (λ w c. rows.thread_stop w c h) }
    ensures sure { IfOk result IsSureVerdict }
{
    let (who, thread) = thread_by_handle(store, caller, h)?;
    if store.frozen_for(caller.who, who) {
        return Err(HELD);
    }
    if thread.stops == u16::MAX {
        return Err(FULL);
    }
    let stops = thread.stops + 1;
    let plan = Plan::One(Deed::Stops { thread: who, stops });
    Ok(Verdict::Done(plan, Answers::Nothing))
}

/// A thread is stopped once less.
///
/// # Errors
///
/// The status of the first refusal: the thread (BADHANDLE, WRONGKIND, NULLREF, DEAD); HELD; NOTSTOPPED.
#[tactic(auto, unfolding(fk_model::specs::SpaceRows::thread_go))]
pub fn thread_go(store: &Store, caller: Caller, h: u64) -> Result<Verdict, u8>
    ensures row { Judges store.now caller result (λ w c. rows.thread_go w c h) }
    ensures sure { IfOk result IsSureVerdict }
{
    let (who, thread) = thread_by_handle(store, caller, h)?;
    if store.frozen_for(caller.who, who) {
        return Err(HELD);
    }
    if thread.stops == 0 {
        return Err(NOTSTOPPED);
    }
    let stops = thread.stops - 1;
    let plan = Plan::One(Deed::Stops { thread: who, stops });
    Ok(Verdict::Done(plan, Answers::Nothing))
}
