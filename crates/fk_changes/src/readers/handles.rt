//! What a stage reads by a handle: a slot of the caller's own space that holds an object, or a
//! reference to it.
ghost use Rattle.std.specs.Prelude.{◌≡◌, ℕ, List, IfOk};
ghost use Rattle.fk_model.specs.Objects as objects;
ghost use Rattle.fk_model.specs.Objects.{number_of_kind, same_kind};
ghost use Rattle.fk_model.specs.Places.{Path};
ghost use Rattle.fk_model.specs.Places.Ptr.{At};
ghost use Rattle.fk_model.specs.Readers as readers;
ghost use Rattle.fk_model.specs.SpaceRows.{thread_by_handle};
ghost use Rattle.fk_store.specs.Store.Bodies.{body_by, pointer_by, thread_by};
ghost use Rattle.fk_store.specs.Store.Named.{OnPointer};
ghost use Rattle.fk_store.specs.Store.Paths.{path, place};
ghost use Rattle.fk_store.specs.Store.World.{world, IsLive};
ghost use Rattle.fk_changes.specs.Readers.Callers.{caller_by, mapped};

use crate::readers::caller::Caller;
use crate::readers::objects::kind_number;
use crate::readers::readers::slot_for;
use fk_model::status::{BADHANDLE, DEAD, NULLREF, WRONGKIND};
use fk_model::{Body, Kind, Ptr, Thread, Who};
use fk_store::Store;

/// The number of a kind.
fn number(kind: Kind) -> u64
    ensures { result ≡ number_of_kind kind }
{
    match kind {
        Kind::Mutex => 1,
        Kind::Cond => 2,
        Kind::Mapping => 3,
        Kind::Region => 4,
        Kind::Port => 5,
        Kind::Portset => 6,
        Kind::Space => 7,
        Kind::Thread => 8,
        Kind::Reference => 9,
    }
}

/// An object is of a kind.
fn is_kind(body: &Body, wanted: Kind) -> bool
    ensures { (p : ℕ → Path) → result ≡ same_kind wanted (objects.kind_of (body_by p body.now)) }
{
    number(wanted) == kind_number(body)
}

/// The object of a kind to which a pointer leads.
///
/// # Errors
///
/// NULLREF: it leads nowhere. DEAD: it led to what was destroyed. WRONGKIND: what it leads to is of another kind.
pub fn led_to(store: &Store, wanted: Kind, to: Ptr) -> Result<Who, u8>
    ensures to { mapped (λ who. At (place (path store.now) who)) result ≡ readers.led_to (world store.now) wanted (pointer_by (path store.now) to) }
    ensures live { IfOk result (IsLive store.now) }
{
    match to {
        Ptr::Null => Err(NULLREF),
        Ptr::Dead => Err(DEAD),
        Ptr::At(who) => match store.at(who) {
            Some(body) if is_kind(body, wanted) => Ok(who),
            _ => Err(WRONGKIND),
        },
    }
}

/// The object of a kind that a handle names.
///
/// # Errors
///
/// BADHANDLE: the caller can't name the slot, or nothing stands there. NULLREF, DEAD: a reference there leads nowhere, or to what was destroyed. WRONGKIND:
/// another kind.
#[tactic(auto, unfolding(fk_model::specs::Readers::handle))]
pub fn handle(store: &Store, caller: Caller, wanted: Kind, h: u64) -> Result<Who, u8>
    ensures handle { (words : List ℕ) → mapped (λ who. At (place (path store.now) who)) result
        ≡ readers.handle (world store.now) (caller_by (path store.now) caller words) wanted h }
    ensures live { IfOk result (IsLive store.now) }
{
    let slot = slot_for(caller, h)?;
    let space = caller.who.space;
    let who = Who { space, slot };
    match store.at(who) {
        None => Err(BADHANDLE),
        Some(Body::Reference { to }) => led_to(store, wanted, *to),
        Some(body) if is_kind(body, wanted) => Ok(who),
        Some(_) => Err(WRONGKIND),
    }
}

/// The thread that a handle names.
///
/// # Errors
///
/// BADHANDLE: the caller can't name the slot, or nothing stands there. NULLREF, DEAD: a reference there leads nowhere, or to what was destroyed. WRONGKIND:
/// no thread.
pub fn thread_by_handle(store: &Store, caller: Caller, h: u64) -> Result<(Who, &Thread), u8>
    ensures { (words : List ℕ) → mapped (λ e. (place (path store.now) e.0, thread_by (path store.now) e.1.now)) result
        ≡ thread_by_handle (world store.now) (caller_by (path store.now) caller words) h }
{
    let who = handle(store, caller, Kind::Thread, h)?;
    match store.thread(who) {
        Some(thread) => Ok((who, thread)),
        None => Err(WRONGKIND),
    }
}

/// The object of a kind to which the reference in a slot of the caller's own space leads.
///
/// # Errors
///
/// BADHANDLE: the caller can't name the slot, or nothing stands there. WRONGKIND: it is no reference, or leads to another kind. NULLREF, DEAD: it leads
/// nowhere, or to what was destroyed.
#[tactic(auto, unfolding(fk_model::specs::Readers::referred, fk_model::specs::Readers::object_in))]
pub fn referred(store: &Store, caller: Caller, wanted: Kind, k: u64) -> Result<Who, u8>
    ensures to { (words : List ℕ) → mapped (λ who. At (place (path store.now) who)) result
        ≡ readers.referred (world store.now) (caller_by (path store.now) caller words) wanted k }
    ensures live { IfOk result (IsLive store.now) }
{
    let slot = slot_for(caller, k)?;
    let space = caller.who.space;
    match store.at(Who { space, slot }) {
        None => Err(BADHANDLE),
        Some(Body::Reference { to }) => led_to(store, wanted, *to),
        Some(_) => Err(WRONGKIND),
    }
}
