//! The stages that read and set pointer fields.
ghost use Rattle.std.specs.Prelude.{◌≡◌, ℕ, IfOk, option_map};
ghost use Rattle.std.specs.List.{list_any};
ghost use Rattle.fk_model.specs.Objects.{kind_of, same_kind};
ghost use Rattle.fk_model.specs.Places.{Path};
ghost use Rattle.fk_model.specs.Readers as readers;
ghost use Rattle.fk_model.specs.StateRows as rows;
ghost use Rattle.fk_store.specs.Store.Bodies.{body_by, pointer_by};
ghost use Rattle.fk_store.specs.Store.Paths.{path};
ghost use Rattle.fk_store.specs.Store.Named.{OnNamed, OnPointer};
ghost use Rattle.fk_store.specs.Store.World.{world, IsLive, IsSpace};
ghost use Rattle.fk_state.specs.Fields.{field_by, OnField};
ghost use Rattle.fk_model.specs.Outcomes.{or_refuse};
ghost use Rattle.fk_model.specs.declared.statuses.status.TheConstants.{BADSTATE};
ghost use Rattle.fk_plans.specs.Plans.Verdicts.{Judges, IsSureVerdict, mapped};

use crate::fields::{Field, field_of, is_inner, number_of, pointer_of};
use fk_changes::readers::{Caller, is_referable, object_in, place, reference_in};
use fk_changes::threads::Answers;
use fk_model::status::{BADSTATE, DENIED, WRONGKIND};
use fk_model::{Body, Ptr, Who};
use fk_plans::{Deed, Plan, Verdict, unfrozen};
use fk_store::Store;

/// A field of an object, by its number.
fn field_in(store: &Store, body: &Body, number: u64) -> Result<Field, u8>
    requires named { OnNamed (IsLive store.now) body.now }
    ensures field { mapped (field_by (path store.now)) result ≡ or_refuse BADSTATE (rows.field_of number (body_by (path store.now) body.now)) }
    ensures named { IfOk result (OnField (IsLive store.now)) }
{
    match field_of(number, body) {
        Some(field) => Ok(field),
        None => Err(BADSTATE),
    }
}

/// The pointer that a reference gets of a field.
fn pointer_in(store: &Store, field: Field) -> Ptr
    requires named { OnField (IsLive store.now) field }
    ensures to { pointer_by (path store.now) result ≡ rows.field_pointer (field_by (path store.now) field) }
    ensures live { OnPointer (IsLive store.now) result }
{
    pointer_of(field)
}

/// A reference gets the pointer of a field of an object, and the answer says what stands there: 0
/// nothing, 1 a pointer to what was destroyed, 2 one that leads to an object, 3 a peer that is no
/// thread. The fields of spaces and threads are for porters alone.
///
/// # Errors
///
/// The status of the first refusal: its place (BADHANDLE, WRONGKIND, NULLREF, DEAD); the slot (BADHANDLE); the reference (BADHANDLE, WRONGKIND); BADSTATE,
/// where the kind lacks that field; DENIED, for a user at a space or a thread.
#[tactic(auto, unfolding(fk_model::specs::StateRows::get_ptr))]
pub fn get_ptr(
    store: &Store,
    caller: Caller,
    s: u64,
    x: u64,
    field: u64,
    reference: u64,
) -> Result<Verdict, u8>
    requires space { IsSpace store.now caller.who.space }
    ensures row { Judges store.now caller result (λ w c. rows.get_ptr w c s x field reference) }
    ensures sure { IfOk result IsSureVerdict }
{
    let space = place(store, caller, s)?;
    let body = object_in(store, caller, space, x)?;
    reference_in(store, caller, caller.who.space, reference)?;
    let found = field_in(store, body, field)?;
    if !caller.is_porter && is_inner(body) {
        return Err(DENIED);
    }
    let object = Who {
        space: caller.who.space,
        slot: reference as u8,
    };
    let to = pointer_in(store, found);
    Ok(Verdict::Done(
        Plan::One(Deed::Points { object, to }),
        Answers::One(number_of(found)),
    ))
}

/// A pointer of one object may lead to another.
fn may_lead(body: &Body, target: &Body) -> bool
    ensures { (p : ℕ → Path) → result ≡ list_any (same_kind (kind_of (body_by p target.now))) (rows.held_kinds (body_by p body.now)) }
{
    match body {
        Body::Mapping { .. } => matches!(target, Body::Region { .. }),
        Body::Region { .. } => matches!(target, Body::Port { .. }),
        Body::Reference { .. } => is_referable(target),
        _ => false,
    }
}

/// An object takes a pointer.
fn takes(store: &Store, body: &Body, to: Ptr) -> bool
    ensures { let p = path store.now in
        result ≡ rows.is_of_kinds (rows.held_kinds (body_by p body.now)) (readers.kind_at (world store.now) (pointer_by p to)) }
{
    match to {
        Ptr::Null | Ptr::Dead => true,
        Ptr::At(who) => match store.at(who) {
            Some(target) => may_lead(body, target),
            None => true,
        },
    }
}

/// A mapping, a region or a reference gets the pointer of a reference, if that leads to what its own
/// may lead to.
///
/// # Errors
///
/// The status of the first refusal: its place (BADHANDLE, WRONGKIND, NULLREF, DEAD); the slot (BADHANDLE); the reference (BADHANDLE, WRONGKIND); HELD;
/// BADSTATE, where the kind lacks that field; DENIED, at a space or a thread; WRONGKIND, where the reference leads to what the field can't hold.
#[tactic(auto, unfolding(fk_model::specs::StateRows::set_ptr))]
pub fn set_ptr(
    store: &Store,
    caller: Caller,
    s: u64,
    x: u64,
    field: u64,
    reference: u64,
) -> Result<Verdict, u8>
    requires space { IsSpace store.now caller.who.space }
    ensures row { Judges store.now caller result (λ w c. rows.set_ptr w c s x field reference) }
    ensures sure { IfOk result IsSureVerdict }
{
    let space = place(store, caller, s)?;
    let body = object_in(store, caller, space, x)?;
    let to = reference_in(store, caller, caller.who.space, reference)?;
    let object = unfrozen(store, caller, space, x)?;
    if field_of(field, body).is_none() {
        return Err(BADSTATE);
    }
    if is_inner(body) {
        return Err(DENIED);
    }
    if !takes(store, body, to) {
        return Err(WRONGKIND);
    }
    Ok(Verdict::Done(Plan::One(Deed::Points { object, to }), Answers::Nothing))
}
