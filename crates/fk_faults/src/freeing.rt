//! The stage that ends a fault.
ghost use Rattle.std.specs.Prelude.{◌≡◌, ℕ, List, IfOk};
ghost use Rattle.fk_model.specs.FaultRows as rows;
ghost use Rattle.fk_model.specs.Valid.{IsValid};
ghost use Rattle.fk_store.specs.Store.Paths.{path, place};
ghost use Rattle.fk_store.specs.Store.World.{world};
ghost use Rattle.fk_plans.specs.Plans.Plans.{caller_by};
ghost use Rattle.fk_plans.specs.Plans.Verdicts.{outcome_by, IsSureVerdict, IsVerdict, Judges};

use fk_changes::readers::Caller;
use fk_changes::threads::Answers;
use fk_model::Who;
use fk_model::status::NOTLINKED;
use fk_plans::{Deed, Plan, Verdict};
use fk_store::Store;

/// The fault of a thread ends. It waits while that thread is held.
fn frees(store: &Store, caller: Caller, thread: Who) -> Verdict
    ensures outcome { (words : List ℕ) → outcome_by (world store.now) (path store.now) (caller_by (path store.now) caller words) result
        ≡ rows.frees (world store.now) (caller_by (path store.now) caller words) (place (path store.now) thread) }
    ensures fits { IsVerdict store.now caller result }
    ensures sure { IsSureVerdict result }
{
    // Any hold counts, the caller's own too: a thread that is held mustn't move on.
    if store.is_frozen(thread.space) {
        return Verdict::Waits;
    }
    Verdict::Done(Plan::One(Deed::Frees { thread }), Answers::Nothing)
}

/// The fault that the caller has taken ends, and its thread tries again.
///
/// # Errors
///
/// NOTLINKED: it has taken none.
pub fn fault_done(store: &Store, caller: Caller) -> Result<Verdict, u8>
    requires valid { IsValid (world store.now) }
    ensures row { Judges store.now caller result (λ w c. rows.fault_done w c) }
    ensures sure { IfOk result IsSureVerdict }
{
    match store.faulter_of(caller.who) {
        None => Err(NOTLINKED),
        Some(thread) => Ok(frees(store, caller, thread)),
    }
}
