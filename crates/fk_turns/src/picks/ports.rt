//! Who stands at the ports of a set.
ghost use Rattle.std.specs.Prelude.{◌≡◌, ◌≢◌, true, false, IfSome, IfNone, Some};
ghost use Rattle.fk_model.specs.LinkRows as rows;
ghost use Rattle.fk_model.specs.Objects.Body.{Reference};
ghost use Rattle.fk_model.specs.Places.{Path, Ptr};
ghost use Rattle.fk_model.specs.Searches.{pointers_to};
ghost use Rattle.fk_model.specs.Valid.{IsValid};
ghost use Rattle.fk_store.specs.Store.Paths.{path, place};
ghost use Rattle.fk_store.specs.Store.World.{world};
ghost use Rattle.fk_turns.specs.Picks.Stands.{ComesBy, ConnectsBy, ConnectsByReference, IsPicked, StandsAt, StandsIn};

use crate::picks::moves::{Picker, picked, picked_of_all};
use fk_links::{connects_by, is_member};
use fk_model::{Body, Who};
use fk_store::Store;

/// The thread in a slot, if it may be picked and connects by a handle.
fn takes_connecting(store: &Store, picker: Picker, handle: Who, other: Who) -> Option<Who>
    requires valid { IsValid (world store.now) }
    ensures ready { IfSome result (λ found. IsPicked store.now picker (place (path store.now) found)) }
    ensures none { IfNone result (ConnectsBy (world store.now) (place (path store.now) handle) (place (path store.now) other)
        → IsPicked store.now picker (place (path store.now) other) → ⊥) }
{
    if connects_by(store, other)? != u64::from(handle.slot) {
        return None;
    }
    picked(store, picker, other)
}

/// Somebody who may be picked and connects by a handle.
fn takes_by_handle(store: &Store, picker: Picker, handle: Who) -> Option<Who>
    requires valid { IsValid (world store.now) }
    ensures ready { IfSome result (λ found. IsPicked store.now picker (place (path store.now) found)) }
    ensures none { IfNone result ((q : Path) → ConnectsBy (world store.now) (place (path store.now) handle) q → IsPicked store.now picker q → ⊥) }
{
    let mut from: u16 = 0;
    while let Some(slot) = store.next_in(handle.space, from) {
        let other = Who {
            space: handle.space,
            slot,
        };
        if let Some(found) = takes_connecting(store, picker, handle, other) {
            return Some(found);
        }
        from = u16::from(slot) + 1;
    }
    None
}

/// A reference is in a slot.
fn is_reference(store: &Store, who: Who) -> bool
    ensures { result ≡ false → (to : Ptr) → (world store.now).body (place (path store.now) who) ≢ Some (Reference to) }
{
    matches!(store.at(who), Some(Body::Reference { .. }))
}

/// Somebody who may be picked and connects by the reference in a slot, if one is there.
fn takes_by_reference(store: &Store, picker: Picker, from: Who) -> Option<Who>
    requires valid { IsValid (world store.now) }
    ensures ready { IfSome result (λ found. IsPicked store.now picker (place (path store.now) found)) }
    ensures none { IfNone result ((q : Path) → ConnectsByReference (world store.now) (place (path store.now) from) q → IsPicked store.now picker q → ⊥) }
{
    if is_reference(store, from) {
        return takes_by_handle(store, picker, from);
    }
    None
}

/// A thread that may be picked, or somebody who may and connects by a reference.
fn takes_by(store: &Store, picker: Picker, from: Who) -> Option<Who>
    requires valid { IsValid (world store.now) }
    ensures ready { IfSome result (λ found. IsPicked store.now picker (place (path store.now) found)) }
    ensures none { IfNone result ((q : Path) → ComesBy (world store.now) (place (path store.now) from) q → IsPicked store.now picker q → ⊥) }
{
    match store.thread(from) {
        Some(_) => picked(store, picker, from),
        None => takes_by_reference(store, picker, from),
    }
}

/// Somebody who may be picked and leads to a port, or connects by a reference to it.
fn takes_leading(store: &Store, picker: Picker, port: Who) -> Option<Who>
    requires valid { IsValid (world store.now) }
    ensures ready { IfSome result (λ found. IsPicked store.now picker (place (path store.now) found)) }
    ensures none { IfNone result ((y q : Path) → pointers_to (place (path store.now) port) ((world store.now).body y) ≢ 0
        → ComesBy (world store.now) y q → IsPicked store.now picker q → ⊥) }
{
    let mut leaders = store.leaders(port);
    while let Some(from) = leaders.next() {
        if let Some(found) = takes_by(store, picker, from) {
            return Some(found);
        }
    }
    // Rings that were given up, which no well-formed store does, tell nobody: then all objects are looked at.
    if leaders.are_all() {
        return None;
    }
    picked_of_all(store, picker)
}

/// Somebody at a port who may be picked.
pub fn takes_at(store: &Store, picker: Picker, port: Who) -> Option<Who>
    requires valid { IsValid (world store.now) }
    ensures ready { IfSome result (λ found. IsPicked store.now picker (place (path store.now) found)) }
    ensures none { IfNone result ((q : Path) → StandsAt (world store.now) (place (path store.now) port) q → IsPicked store.now picker q → ⊥) }
{
    if let Some(found) = takes_by_handle(store, picker, port) {
        return Some(found);
    }
    takes_leading(store, picker, port)
}

/// Somebody who may be picked at the port in a slot, if that is in a set.
fn takes_in(store: &Store, picker: Picker, set: u64, port: Who) -> Option<Who>
    requires valid { IsValid (world store.now) }
    ensures ready { IfSome result (λ found. IsPicked store.now picker (place (path store.now) found)) }
    ensures none { IfNone result (rows.is_member set ((world store.now).body (place (path store.now) port)) ≡ true
        → (q : Path) → StandsAt (world store.now) (place (path store.now) port) q → IsPicked store.now picker q → ⊥) }
{
    if is_member(store, set, port) {
        return takes_at(store, picker, port);
    }
    None
}

/// Somebody whom a user may pick at a port of a set of its space.
pub fn takes_one(store: &Store, who: Who, set: u64) -> Option<Who>
    requires valid { IsValid (world store.now) }
    ensures ready { IfSome result (λ found. IsPicked store.now (Picker.User who) (place (path store.now) found)) }
    ensures none { IfNone result ((q : Path) → StandsIn (world store.now) (path store.now who.space) set q → IsPicked store.now (Picker.User who) q → ⊥) }
{
    let mut from: u16 = 0;
    while let Some(slot) = store.next_in(who.space, from) {
        let port = Who {
            space: who.space,
            slot,
        };
        if let Some(found) = takes_in(store, Picker::User(who), set, port) {
            return Some(found);
        }
        from = u16::from(slot) + 1;
    }
    None
}
