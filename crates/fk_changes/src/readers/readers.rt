//! What a stage reads, each with the status that says what was wrong.
ghost use Rattle.std.specs.Prelude.{◌≡◌, ◌≤◌, nat_le, ℕ, List, Ok, Err, OnOk, IfOk, if◌then◌else◌};
ghost use Rattle.fk_model.specs.Objects.{mutex_of};
ghost use Rattle.fk_model.specs.Readers as readers;
ghost use Rattle.fk_model.specs.Places.{Path};
ghost use Rattle.fk_model.specs.Readers.{object_in};
ghost use Rattle.fk_model.specs.SyncRows.{cond_of};
ghost use Rattle.fk_store.specs.Store.Paths.{path};
ghost use Rattle.fk_store.specs.Store.World.{world, IsSpace};
ghost use Rattle.fk_changes.specs.Readers.Callers.{caller_by, mapped};
ghost use Rattle.fk_changes.specs.Readers.Readings.{found};

use crate::readers::caller::Caller;
use fk_model::limits::{LAST_PORTER_SLOT, LAST_USER_SLOT, OWN_SPACE};
use fk_model::status::{BADHANDLE, DEAD, NULLREF, WRONGKIND};
use fk_model::{Body, Ptr, Who};
use fk_store::Store;

/// The last slot that the caller can name.
pub fn last_slot(caller: Caller) -> u64
    ensures last { result ≡ if caller.is_porter then LAST_PORTER_SLOT else LAST_USER_SLOT }
    ensures low { result ≤ 255 }
{
    if caller.is_porter {
        LAST_PORTER_SLOT
    } else {
        LAST_USER_SLOT
    }
}

/// A slot that the caller can name.
///
/// # Errors
///
/// BADHANDLE: it is above 239, for a porter above 255.
pub fn slot_for(caller: Caller, k: u64) -> Result<u8, u8>
    ensures { result ≡ if nat_le k (if caller.is_porter then LAST_PORTER_SLOT else LAST_USER_SLOT) then Ok k else Err BADHANDLE }
{
    if k > last_slot(caller) {
        return Err(BADHANDLE);
    }
    Ok(k as u8)
}

/// Whether the mutex in a slot of a space is locked.
///
/// # Errors
///
/// BADHANDLE: the caller can't name the slot, or nothing stands there. WRONGKIND: it is no mutex.
#[tactic(auto, unfolding(fk_model::specs::Readers::object_in))]
pub fn mutex_in(store: &Store, caller: Caller, space: u32, k: u64) -> Result<bool, u8>
    ensures locked { (words : List ℕ) → result ≡ object_in (world store.now) (caller_by (path store.now) caller words) mutex_of (path store.now space) k }
    ensures slot { OnOk result (k ≤ 255) }
{
    if k > last_slot(caller) {
        return Err(BADHANDLE);
    }
    let slot = k as u8;
    match store.at(Who { space, slot }) {
        None => Err(BADHANDLE),
        Some(Body::Mutex { locked }) => Ok(*locked),
        Some(_) => Err(WRONGKIND),
    }
}

/// A condition is in a slot of a space.
///
/// # Errors
///
/// BADHANDLE: the caller can't name the slot, or nothing stands there. WRONGKIND: it is no condition.
#[tactic(auto, unfolding(fk_model::specs::Readers::object_in))]
pub fn cond_in(store: &Store, caller: Caller, space: u32, k: u64) -> Result<(), u8>
    ensures { (words : List ℕ) → mapped found result ≡ object_in (world store.now) (caller_by (path store.now) caller words) cond_of (path store.now space) k }
{
    if k > last_slot(caller) {
        return Err(BADHANDLE);
    }
    let slot = k as u8;
    match store.at(Who { space, slot }) {
        None => Err(BADHANDLE),
        Some(Body::Cond) => Ok(()),
        Some(_) => Err(WRONGKIND),
    }
}

/// A place: the caller's own space, or the space of a handle.
///
/// # Errors
///
/// BADHANDLE: the caller can't name the slot, or nothing stands there. NULLREF, DEAD: a reference there leads nowhere, or to what was destroyed. WRONGKIND:
/// no space.
#[tactic(auto, using(crate::proofs::InReaders::Spaces::space_there), unfolding(fk_model::specs::Readers::space_argument, fk_model::specs::Readers::handle))]
#[inline(always)]
pub fn place(store: &Store, caller: Caller, s: u64) -> Result<u32, u8>
    requires own { IsSpace store.now caller.who.space }
    ensures live { IfOk result (IsSpace store.now) }
    ensures place { (words : List ℕ) → mapped (path store.now) result ≡ readers.space_argument (world store.now) (caller_by (path store.now) caller words) s }
{
    if s == OWN_SPACE {
        return Ok(caller.who.space);
    }
    if s > last_slot(caller) {
        return Err(BADHANDLE);
    }
    let slot = s as u8;
    let space = caller.who.space;
    match store.at(Who { space, slot }) {
        None => Err(BADHANDLE),
        Some(Body::Space { birth, .. }) => Ok(*birth),
        Some(Body::Reference { to: Ptr::Null }) => Err(NULLREF),
        Some(Body::Reference { to: Ptr::Dead }) => Err(DEAD),
        Some(Body::Reference { to: Ptr::At(who) }) => match store.at(*who) {
            Some(Body::Space { birth, .. }) => Ok(*birth),
            _ => Err(WRONGKIND),
        },
        Some(_) => Err(WRONGKIND),
    }
}
