//! The stage that makes an object.
ghost use Rattle.fk_model.specs.ObjectRows as rows;
ghost use Rattle.fk_store.specs.Store.World.{IsSpace};
ghost use Rattle.fk_plans.specs.Plans.Verdicts.{Judges};

use fk_changes::readers::{Caller, place, slot_for};
use fk_changes::threads::Answers;
use fk_model::Who;
use fk_model::status::{HELD, OCCUPIED, WRONGKIND};
use fk_plans::{Plan, Verdict};
use fk_store::Store;

/// A new object of a kind's number in an empty slot: 1 to 9 are a mutex, a condition, a mapping, a
/// region, a port, a set of ports, a space, a thread and a reference.
///
/// # Errors
///
/// The status of the first refusal: its place (BADHANDLE, WRONGKIND, NULLREF, DEAD); the slot (BADHANDLE); HELD; WRONGKIND, where no kind has that number;
/// OCCUPIED.
#[tactic(auto, unfolding(fk_model::specs::ObjectRows::create))]
#[inline(always)]
pub fn create(store: &Store, caller: Caller, s: u64, x: u64, kind: u64) -> Result<Verdict, u8>
    requires space { IsSpace store.now caller.who.space }
    ensures { Judges store.now caller result (λ w c. rows.create w c s x kind) }
{
    let space = place(store, caller, s)?;
    // The new slot is an argument, so it goes before HELD.
    let slot = slot_for(caller, x)?;
    if store.space_frozen_for(caller.who, space) {
        return Err(HELD);
    }
    if kind == 0 || kind > 9 {
        return Err(WRONGKIND);
    }
    let object = Who { space, slot };
    if store.at(object).is_some() {
        return Err(OCCUPIED);
    }
    Ok(Verdict::Done(Plan::Makes { object, kind }, Answers::Nothing))
}
