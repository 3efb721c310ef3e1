//! Which subtrees of the root may be paged.
ghost use Rattle.std.specs.Option.{option_copied};
ghost use Rattle.std.specs.Prelude.{◌≡◌, ◌↔◌, ℕ, ◌∷◌, ◌&&◌, ◌==◌, [], true, false, None, Some, IsTrue, IsSome, IfSome, IfNone, option_map, is_some};
ghost use Rattle.fk_model.specs.declared.limits.TheConstants.{LAST_PORTER_SLOT};
ghost use Rattle.fk_model.specs.LinkRows as rows;
ghost use Rattle.fk_model.specs.Objects.{holds, region_of};
ghost use Rattle.fk_model.specs.Places.{Path};
ghost use Rattle.fk_model.specs.StateRows as states;
ghost use Rattle.fk_model.specs.Valid.{birth_of, birth_at};
ghost use Rattle.fk_store.specs.Store.Bodies.{body_by};
ghost use Rattle.fk_store.specs.Store.Paths.{path, place, IsAtHome};
ghost use Rattle.fk_store.specs.Store.World.{world, body_of, place_of, IsSpace};
ghost use Rattle.fk_pager.specs.Desks as desks;
ghost use Rattle.fk_pager.specs.Desks.{root, keeps_all, HasDesk, IsPageable};
ghost use Rattle.fk_pager.specs.Seen.{extent_by, is_set, leads_some, is_hindrance};

use fk_model::limits::LAST_PORTER_SLOT;
use fk_model::{Body, Mode, Ptr, Who};
use fk_store::Store;

/// The slots of the port and of the set at which faults on the pages of a subtree of the root are taken.
#[derive(Clone, Copy)]
pub struct Desk {
    pub port: u8,
    pub set: u8,
}

/// The state of a region.
#[derive(Clone, Copy)]
pub(crate) struct Extent {
    pub first: u8,
    pub count: u16,
    pub write: bool,
    pub keeper: Ptr,
}

/// The root's object in a slot.
pub(crate) fn in_root(slot: u8) -> Who
    ensures { result ≡ record { space = 0; slot = slot } }
{
    Who { space: 0, slot }
}

/// The state of a region, if the object is one.
fn extent_of(body: &Body) -> Option<Extent>
    ensures { (path : ℕ → Path) → option_map (extent_by path) result ≡ region_of (body_by path body.now) }
{
    match *body {
        Body::Region {
            first,
            count,
            write,
            keeper,
        } => Some(Extent {
            first,
            count,
            write,
            keeper,
        }),
        _ => None,
    }
}

/// The region in a slot of a space, if one is there.
fn region_in(store: &Store, space: u32, slot: u8) -> Option<Extent>
    ensures { option_map (extent_by (path store.now)) result ≡ desks.region_in (world store.now) (path store.now space) slot }
{
    extent_of(store.at(Who { space, slot })?)
}

/// The region in the lowest slot of a space that has one.
fn first_region(store: &Store, space: u32) -> Option<Extent>
    ensures { option_map (extent_by (path store.now)) result ≡ desks.first_region (world store.now) (path store.now space) }
{
    for slot in 0..256u16 {
        let found = region_in(store, space, slot as u8);
        if found.is_some() {
            return found;
        }
    }
    None
}

/// The port that keeps every page of a space by its first region.
fn keeper_of_all(store: &Store, space: u32) -> Option<Who>
    ensures { (port : Path) → holds (keeps_all port) (desks.first_region (world store.now) (path store.now space))
        ≡ leads_some port (option_map (place_of store.now) result) }
{
    match first_region(store, space)? {
        Extent {
            first: 0,
            count: 256,
            keeper: Ptr::At(port),
            ..
        } => Some(port),
        _ => None,
    }
}

/// The set of a port.
fn set_of(store: &Store, port: Who) -> Option<u8>
    ensures set { (set : ℕ) → rows.is_member set ((world store.now).body (place_of store.now port)) ≡ is_set set result }
    ensures there { IsSome result → IsSpace store.now port.space }
{
    match store.at(port)? {
        Body::Port { set, .. } => *set,
        _ => None,
    }
}

/// The root's object in a slot, if one is there.
fn at_root(store: &Store, slot: u8) -> Option<&Body>
    ensures body { (world store.now).body (slot ∷ root) ≡ option_map (body_of store.now) (option_copied result) }
    ensures home { IfSome result (λ body. IsAtHome (path store.now) (record { space = 0; slot = slot }) body.now) }
{
    store.at(in_root(slot))
}

/// The birth number of a space, if the object is one. It has the path at which it stands.
fn birth_in(body: &Body) -> Option<u32>
    ensures birth { (path : ℕ → Path) → birth_of (body_by path body.now) ≡ result }
    ensures home { (path : ℕ → Path) (who : _) → IsAtHome path who body.now → IfSome result (λ birth. path birth ≡ place path who) }
{
    match *body {
        Body::Space { birth, .. } => Some(birth),
        _ => None,
    }
}

/// The birth number of the space in a slot of the root.
fn space_in(store: &Store, slot: u8) -> Option<u32>
    ensures birth { birth_at (world store.now) (slot ∷ root) ≡ result }
    ensures path { IfSome result (λ birth. path store.now birth ≡ slot ∷ root) }
    ensures space { IfSome result (IsSpace store.now) }
{
    let body = at_root(store, slot)?;
    birth_in(body)
}

/// A porter's thread.
fn is_native(body: &Body) -> bool
    ensures { (path : ℕ → Path) → result ≡ states.is_native (body_by path body.now) }
{
    match body {
        Body::Thread(thread) => matches!(thread.mode, Mode::Native),
        _ => false,
    }
}

/// The root is a nester: its porter stands.
fn is_nester(store: &Store) -> bool
    ensures { result ≡ holds states.is_native ((world store.now).body (LAST_PORTER_SLOT ∷ root)) }
{
    match at_root(store, LAST_PORTER_SLOT as u8) {
        Some(body) => is_native(body),
        None => false,
    }
}

/// Both of two facts.
fn both(first: bool, second: bool) -> bool
    ensures { result ≡ (first && second) }
{
    first && second
}

/// All of three.
fn all_three(first: bool, second: bool, third: bool) -> bool
    ensures { result ≡ (first && second && third) }
{
    first && second && third
}

/// There is a set, and it is the one in this slot.
fn is_in(set: Option<u8>, slot: u8) -> bool
    ensures { result ≡ is_set slot set }
{
    match set {
        Some(its) => its == slot,
        None => false,
    }
}

/// It is the root's object in a slot.
fn is_in_root(who: Who, slot: u8) -> bool
    ensures { result ≡ (who.space == 0 && who.slot == slot) }
{
    who.space == 0 && who.slot == slot
}

/// An object bars a pager: a mapping in its space, another port in its set, a region of another space that its port keeps.
fn hinders(store: &Store, space: u32, desk: Desk, who: Who) -> bool
    requires { IsSpace store.now space }
    ensures { result ≡ is_hindrance (path store.now space) desk.port desk.set (path store.now who.space) who.slot
        ((world store.now).body (place_of store.now who)) }
{
    match store.at(who) {
        Some(Body::Mapping { .. }) => who.space == space,
        Some(Body::Port { set, .. }) => {
            let member = is_in(*set, desk.set);
            all_three(who.space == 0, member, who.slot != desk.port)
        }
        Some(
            Body::Region {
                keeper: Ptr::At(keeper),
                ..
            },
        ) => {
            // Tells that no other object has the path of this port.
            let _there = store.at(*keeper);
            let ours = is_in_root(*keeper, desk.port);
            both(who.space != space, ours)
        }
        _ => false,
    }
}

/// Some object bars a pager.
fn is_hindered(store: &Store, space: u32, desk: Desk) -> bool
    requires { IsSpace store.now space }
    ensures some { result ≡ true → (k : ℕ) × (s : Path) × (is_hindrance (path store.now space) desk.port desk.set s k ((world store.now).body (k ∷ s)) ≡ true) }
    ensures none { result ≡ false → (k : ℕ) (s : Path) → is_hindrance (path store.now space) desk.port desk.set s k ((world store.now).body (k ∷ s)) ≡ false }
{
    let mut at = store.after(None);
    while let Some(who) = at {
        if hinders(store, space, desk, who) {
            return true;
        }
        at = store.after(Some(who));
    }
    false
}

/// The port and the set at which faults on the pages of the subtree in a slot of the root are taken, where it may be paged: there are none exactly where it
/// may not.
pub fn desk_at(store: &Store, slot: u8) -> Option<Desk>
    ensures some { IfSome result (λ desk. HasDesk (world store.now) slot desk.port desk.set) }
    ensures none { IfNone result (IsPageable (world store.now) slot → ⊥) }
{
    let space = space_in(store, slot)?;
    let port = keeper_of_all(store, space)?;
    let set = set_of(store, port)?;
    if port.space != 0 {
        return None;
    }
    let desk = Desk {
        port: port.slot,
        set,
    };
    if !is_nester(store) {
        return None;
    }
    if is_hindered(store, space, desk) {
        return None;
    }
    Some(desk)
}

/// Whether the subtree in a slot of the root may be paged.
pub fn is_pageable(store: &Store, slot: u8) -> bool
    ensures { IsTrue result ↔ IsPageable (world store.now) slot }
{
    desk_at(store, slot).is_some()
}
