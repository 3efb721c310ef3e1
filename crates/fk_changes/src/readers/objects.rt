//! What a stage reads of objects of any kind, and of references.
ghost use Rattle.std.specs.Prelude.{◌≡◌, ◌≤◌, ℕ, List, Some, OnOk, IfOk};
ghost use Rattle.std.specs.List.{list_any};
ghost use Rattle.fk_model.specs.ObjectRows as rows;
ghost use Rattle.fk_model.specs.Objects.{kind_of, number_of_kind, same_kind, reference_of};
ghost use Rattle.fk_model.specs.Places.{Path};
ghost use Rattle.fk_model.specs.Readers as readers;
ghost use Rattle.fk_model.specs.Readers.{anything};
ghost use Rattle.fk_model.specs.StateRows.{referable};
ghost use Rattle.fk_store.specs.Store.Bodies.{body_by, pointer_by};
ghost use Rattle.fk_store.specs.Store.Named.{OnNamed, OnPointer};
ghost use Rattle.fk_store.specs.Store.Paths.{path, place};
ghost use Rattle.fk_store.specs.Store.World.{world, IsLive};
ghost use Rattle.fk_changes.specs.Readers.Callers.{caller_by, mapped};

use crate::readers::caller::Caller;
use crate::readers::readers::slot_for;
use fk_model::status::{BADHANDLE, WRONGKIND};
use fk_model::{Body, Ptr, Who, kind};
use fk_store::Store;

/// The object in a slot of a space.
///
/// # Errors
///
/// BADHANDLE: the caller can't name the slot, or nothing stands there.
#[tactic(auto, unfolding(fk_model::specs::Readers::object_in))]
#[inline(always)]
pub fn object_in(store: &Store, caller: Caller, space: u32, k: u64) -> Result<&Body, u8>
    ensures body { (words : List ℕ) → mapped (λ b. body_by (path store.now) b.now) result
        ≡ readers.object_in (world store.now) (caller_by (path store.now) caller words) anything (path store.now space) k }
    ensures there { IfOk result (λ b. (world store.now).body (place (path store.now) (record { space = space; slot = k }))
        ≡ Some (body_by (path store.now) b.now)) }
    ensures slot { OnOk result (k ≤ 255) }
    ensures live { OnOk result (IsLive store.now (record { space = space; slot = k })) }
    ensures named { IfOk result (λ b. OnNamed (IsLive store.now) b.now) }
{
    let slot = slot_for(caller, k)?;
    match store.at(Who { space, slot }) {
        None => Err(BADHANDLE),
        Some(body) => Ok(body),
    }
}

/// The pointer of the reference in a slot of a space.
///
/// # Errors
///
/// BADHANDLE: the caller can't name the slot, or nothing stands there. WRONGKIND: it is no reference.
#[tactic(auto, unfolding(fk_model::specs::Readers::object_in))]
pub fn reference_in(store: &Store, caller: Caller, space: u32, k: u64) -> Result<Ptr, u8>
    ensures to { (words : List ℕ) → mapped (pointer_by (path store.now)) result
        ≡ readers.object_in (world store.now) (caller_by (path store.now) caller words) reference_of (path store.now space) k }
    ensures slot { OnOk result (k ≤ 255) }
    ensures live { IfOk result (OnPointer (IsLive store.now)) }
{
    let slot = slot_for(caller, k)?;
    match store.at(Who { space, slot }) {
        None => Err(BADHANDLE),
        Some(Body::Reference { to }) => Ok(*to),
        Some(_) => Err(WRONGKIND),
    }
}

/// The number of an object's kind.
pub fn kind_number(body: &Body) -> u64
    ensures { (p : ℕ → Path) → result ≡ number_of_kind (kind_of (body_by p body.now)) }
{
    match body {
        Body::Mutex { .. } => kind::MUTEX,
        Body::Cond => kind::COND,
        Body::Mapping { .. } => kind::MAPPING,
        Body::Region { .. } => kind::REGION,
        Body::Port { .. } => kind::PORT,
        Body::Portset => kind::PORTSET,
        Body::Space { .. } => kind::SPACE,
        Body::Thread(_) => kind::THREAD,
        Body::Reference { .. } => kind::REFERENCE,
    }
}

/// The kinds of objects to which references lead.
pub fn is_referable(body: &Body) -> bool
    ensures { (p : ℕ → Path) → result ≡ list_any (same_kind (kind_of (body_by p body.now))) referable }
{
    match body {
        Body::Mapping { .. }
        | Body::Region { .. }
        | Body::Port { .. }
        | Body::Space { .. }
        | Body::Thread(_) => true,
        Body::Mutex { .. } | Body::Cond | Body::Portset | Body::Reference { .. } => false,
    }
}

/// A pointer to the object in a slot of a space. The pointer of a reference is copied.
///
/// # Errors
///
/// BADHANDLE: the caller can't name the slot, or nothing stands there. WRONGKIND: a reference may not lead to it.
#[tactic(auto, unfolding(fk_model::specs::Readers::object_in))]
pub fn pointer_in(store: &Store, caller: Caller, space: u32, k: u64) -> Result<Ptr, u8>
    ensures to { (words : List ℕ) → mapped (pointer_by (path store.now)) result
        ≡ rows.pointer_in (world store.now) (caller_by (path store.now) caller words) (path store.now space) k }
    ensures live { IfOk result (OnPointer (IsLive store.now)) }
{
    let slot = slot_for(caller, k)?;
    let who = Who { space, slot };
    match store.at(who) {
        None => Err(BADHANDLE),
        Some(Body::Reference { to }) => Ok(*to),
        Some(body) if is_referable(body) => Ok(Ptr::At(who)),
        Some(_) => Err(WRONGKIND),
    }
}
