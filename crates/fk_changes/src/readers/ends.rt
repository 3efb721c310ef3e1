//! What a porter's stage reads that makes a talk or a fault again: its thread and its port.
ghost use Rattle.std.specs.Prelude.{◌≡◌, ◌≤◌, ℕ, List, OnOk};
ghost use Rattle.fk_model.specs.Objects.{port_of, thread_of};
ghost use Rattle.fk_model.specs.Readers as readers;
ghost use Rattle.fk_store.specs.Store.Bodies.{thread_by};
ghost use Rattle.fk_store.specs.Store.Paths.{path};
ghost use Rattle.fk_store.specs.Store.World.{world, IsLive};
ghost use Rattle.fk_changes.specs.Readers.Callers.{caller_by, mapped};

use crate::readers::caller::Caller;
use crate::readers::readers::slot_for;
use fk_model::status::{BADHANDLE, WRONGKIND};
use fk_model::{Body, Thread, Who};
use fk_store::Store;

/// The thread in a slot of a space.
///
/// # Errors
///
/// BADHANDLE: the caller can't name the slot, or nothing stands there. WRONGKIND: it is no thread.
#[tactic(auto, unfolding(fk_model::specs::Readers::object_in))]
pub fn thread_in(store: &Store, caller: Caller, space: u32, k: u64) -> Result<&Thread, u8>
    ensures thread { (words : List ℕ) → mapped (λ thread. thread_by (path store.now) thread.now) result
        ≡ readers.object_in (world store.now) (caller_by (path store.now) caller words) thread_of (path store.now space) k }
    ensures slot { OnOk result (k ≤ 255) }
{
    let slot = slot_for(caller, k)?;
    match store.at(Who { space, slot }) {
        None => Err(BADHANDLE),
        Some(Body::Thread(thread)) => Ok(thread),
        Some(_) => Err(WRONGKIND),
    }
}

/// The set of the port in a slot of a space, and whether it is served.
///
/// # Errors
///
/// BADHANDLE: the caller can't name the slot, or nothing stands there. WRONGKIND: it is no port.
#[tactic(auto, unfolding(fk_model::specs::Readers::object_in))]
pub fn port_in(store: &Store, caller: Caller, space: u32, k: u64) -> Result<(Option<u8>, bool), u8>
    ensures port { (words : List ℕ) → result
        ≡ readers.object_in (world store.now) (caller_by (path store.now) caller words) port_of (path store.now space) k }
    ensures slot { OnOk result (k ≤ 255) }
    ensures live { OnOk result (IsLive store.now (record { space = space; slot = k })) }
{
    let slot = slot_for(caller, k)?;
    match store.at(Who { space, slot }) {
        None => Err(BADHANDLE),
        Some(Body::Port { set, served }) => Ok((*set, *served)),
        Some(_) => Err(WRONGKIND),
    }
}
