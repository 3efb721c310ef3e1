//! Names of places, by the slots on the way down to them.
ghost use Rattle.std.specs.Prelude.{◌≡◌, ◌<◌, ◌∷◌, IsSome, IfSome, length, reverse};
ghost use Rattle.fk_scenario.specs.Fields.Paths.{enclosing};
ghost use Rattle.fk_model.specs.Valid.{birth_at};
ghost use Rattle.fk_store.specs.Store.Paths.{path};
ghost use Rattle.fk_store.specs.Store.World.{world, place_of, IsSpace};

use fk_model::{Body, Who};
use fk_store::Store;

/// The birth number of the space in a slot of a space.
fn space_in(store: &Store, space: u32, slot: u8) -> Option<u32>
    ensures birth { result ≡ birth_at (world store.now) (slot ∷ path store.now space) }
    ensures path { IfSome result (λ birth. path store.now birth ≡ slot ∷ path store.now space) }
{
    match store.at(Who { space, slot }) {
        Some(Body::Space { birth, .. }) => Some(*birth),
        _ => None,
    }
}

/// The birth number of the space with these slots from the root down.
fn find_space(store: &Store, slots: &[u8]) -> Option<u32>
    ensures birth { result ≡ birth_at (world store.now) (reverse slots.now) }
    ensures path { IfSome result (λ birth. path store.now birth ≡ reverse slots.now) }
{
    let mut space = 0;
    for slot in slots {
        space = space_in(store, space, *slot)?;
    }
    Some(space)
}

/// The name of a place beneath the root, whose space is there.
pub fn name_of(store: &Store, slots: &[u8]) -> Who
    requires beneath { 0 < length slots.now }
    requires space { IsSome (birth_at (world store.now) (reverse (enclosing slots.now))) }
    ensures place { place_of store.now result ≡ reverse slots.now }
    ensures space { IsSpace store.now result.space }
{
    let [above @ .., slot] = slots else {
        return Who { space: 0, slot: 0 };
    };
    let space = find_space(store, above).unwrap();
    Who { space, slot: *slot }
}

/// The birth number of a space that is there.
pub fn birth_of(store: &Store, slots: &[u8]) -> u32
    requires space { IsSome (birth_at (world store.now) (reverse slots.now)) }
    ensures path { path store.now result ≡ reverse slots.now }
    ensures space { IsSpace store.now result }
{
    find_space(store, slots).unwrap()
}
