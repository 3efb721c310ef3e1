//! Who receives: a thread at a Receive, or at a ReceiveRef whose handle is good.
ghost use Rattle.std.specs.Prelude.{◌≡◌, ◌≤◌, true, IfSome, IsSome};
ghost use Rattle.fk_model.specs.declared.limits.TheConstants.{LAST_USER_SLOT};
ghost use Rattle.fk_model.specs.Talks as talks;
ghost use Rattle.fk_store.specs.Store.Bodies.{thread_by};
ghost use Rattle.fk_store.specs.Store.Paths.{path};
ghost use Rattle.fk_store.specs.Store.World.{world};

use crate::threads::shifts::{awaited_by, receive_of};
use fk_model::limits::LAST_USER_SLOT;
use fk_model::{Body, Thread, Turn, Who};
use fk_store::Store;

/// A user's slot of a space holds a reference.
fn is_reference(store: &Store, space: u32, slot: u64) -> bool
    ensures there { result ≡ talks.is_reference_in (world store.now) (path store.now space) slot }
    ensures low { result ≡ true → slot ≤ LAST_USER_SLOT }
{
    if LAST_USER_SLOT < slot {
        return false;
    }
    let slot = slot as u8;
    matches!(store.at(Who { space, slot }), Some(Body::Reference { .. }))
}

/// A thread of a space that awaits a pointer in this slot, or none, isn't refused for its handle.
fn is_handled(store: &Store, space: u32, awaited: Option<u64>) -> bool
    ensures handled { result ≡ talks.is_handled (world store.now) (path store.now space) awaited }
    ensures low { result ≡ true → IfSome awaited (λ slot. slot ≤ LAST_USER_SLOT) }
{
    match awaited {
        None => true,
        Some(slot) => is_reference(store, space, slot),
    }
}

/// The address and the room of the Receive at which a thread of a space is, on this side of a talk;
/// none where it would be refused for the handle of the reference that is to take a pointer.
pub fn receiving(store: &Store, space: u32, thread: &Thread, side: Turn) -> Option<(u64, u64)>
    ensures receive { result ≡ talks.receiving (world store.now) (path store.now space) side (thread_by (path store.now) thread.now).mode }
    ensures low { IsSome result → IfSome (talks.awaited (thread_by (path store.now) thread.now).mode) (λ slot. slot ≤ LAST_USER_SLOT) }
{
    if !is_handled(store, space, awaited_by(thread)) {
        return None;
    }
    receive_of(thread, side)
}
