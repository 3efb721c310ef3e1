//! The stages that set the pointer of a reference.
ghost use Rattle.std.specs.Prelude.{IfOk};
ghost use Rattle.fk_model.specs.ObjectRows as rows;
ghost use Rattle.fk_store.specs.Store.World.{IsSpace};
ghost use Rattle.fk_plans.specs.Plans.Verdicts.{Judges, IsSureVerdict};

use fk_changes::readers::{Caller, place, pointer_in, reference_in};
use fk_changes::threads::Answers;
use fk_model::Ptr;
use fk_plans::{Deed, Plan, Verdict, unfrozen};
use fk_store::Store;

/// A reference leads to the object in another slot, or where the reference there leads.
///
/// # Errors
///
/// The status of the first refusal: the place and the slot of the reference; those of the object (BADHANDLE, WRONGKIND, NULLREF, DEAD); HELD.
#[tactic(auto, unfolding(fk_model::specs::ObjectRows::point))]
pub fn point(
    store: &Store,
    caller: Caller,
    s: u64,
    x: u64,
    other_place: u64,
    other: u64,
) -> Result<Verdict, u8>
    requires space { IsSpace store.now caller.who.space }
    ensures row { Judges store.now caller result (λ w c. rows.point w c s x other_place other) }
    ensures sure { IfOk result IsSureVerdict }
{
    let space = place(store, caller, s)?;
    reference_in(store, caller, space, x)?;
    let other_space = place(store, caller, other_place)?;
    let to = pointer_in(store, caller, other_space, other)?;
    let object = unfrozen(store, caller, space, x)?;
    Ok(Verdict::Done(Plan::One(Deed::Points { object, to }), Answers::Nothing))
}

/// A reference leads nowhere.
///
/// # Errors
///
/// The status of the first refusal: its place (BADHANDLE, WRONGKIND, NULLREF, DEAD); the slot (BADHANDLE, WRONGKIND); HELD.
#[tactic(auto, unfolding(fk_model::specs::ObjectRows::clear))]
pub fn clear(store: &Store, caller: Caller, s: u64, x: u64) -> Result<Verdict, u8>
    requires space { IsSpace store.now caller.who.space }
    ensures row { Judges store.now caller result (λ w c. rows.clear w c s x) }
    ensures sure { IfOk result IsSureVerdict }
{
    let space = place(store, caller, s)?;
    reference_in(store, caller, space, x)?;
    let object = unfrozen(store, caller, space, x)?;
    let to = Ptr::Null;
    Ok(Verdict::Done(Plan::One(Deed::Points { object, to }), Answers::Nothing))
}
