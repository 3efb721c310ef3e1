//! Whether a subtree is closed.
ghost use Rattle.std.specs.Prelude.{◌≡◌, ◌++◌, ◌∷◌, Some, IfOk, map, option_map};
ghost use Rattle.std.specs.List.{AllByRecursion};
ghost use Rattle.fk_model.specs.Closed as definition;
ghost use Rattle.fk_model.specs.Places.{Path};
ghost use Rattle.fk_model.specs.Valid.{kind_there};
ghost use Rattle.fk_model.specs.declared.names.Kind.TheVariants as kinds;
ghost use Rattle.fk_store.specs.Store.Paths.{path, HasOwnPath};
ghost use Rattle.fk_store.specs.Store.World.{world, place_of, IsLive};
ghost use Rattle.fk_cut.specs.Closing.Walks.{IsPart};
ghost use Rattle.fk_cut.specs.Closing.Places.{placed, place_at, first_at};

use crate::closing::above::{has_own_path, path_from_nester};
use crate::closing::far::far_field;
use crate::closing::led::is_led_to;
use crate::closing::walk::objects_of;
use fk_model::limits::LED_TO;
use fk_model::{List, NoMemory, Who};
use fk_store::Store;
use std::alloc::Global;

/// Where a subtree isn't closed.
#[derive(Drop)]
pub struct Place {
    /// An object, by its path from the nester: the slot of the subtree's root first, its own last.
    pub path: List<u8>,
    /// The number of its pointer field that leads where it may not; 15 where something outside leads to it.
    pub field: u8,
}

/// The first field of an object that says that its subtree isn't closed.
fn open_field(store: &Store, root: Who, who: Who) -> Option<u8>
    requires live { IsLive store.now who }
    requires own { HasOwnPath (path store.now) root }
    ensures { (q : Path) → place_of store.now who ≡ q ++ place_of store.now root
        → result ≡ definition.open_field (world store.now) (path store.now root.space) root.slot q }
{
    match store.at(who) {
        Some(body) => match far_field(store, root, who, body) {
            Some(field) => Some(field),
            None => led_field(store, root, who),
        },
        None => unreachable!(),
    }
}

/// The field of an object to which something outside leads.
fn led_field(store: &Store, root: Who, who: Who) -> Option<u8>
    requires root { HasOwnPath (path store.now) root }
    requires own { HasOwnPath (path store.now) who }
    ensures { result
        ≡ definition.when_bad (definition.is_led_to (world store.now) (place_of store.now root) (place_of store.now who)) definition.led_to_from_outside }
{
    if is_led_to(store, root, who) {
        Some(LED_TO)
    } else {
        None
    }
}

/// Where an object of a subtree says that it isn't closed.
///
/// # Errors
///
/// There is no memory for the path.
fn open_at(alloc: Global, store: &Store, root: Who, who: Who) -> Result<Option<Place>, NoMemory>
    requires part { IsPart store.now root who }
    requires own { HasOwnPath (path store.now) root }
    ensures { IfOk result (λ place. option_map placed place ≡ place_at (world store.now) (path store.now root.space) root.slot (place_of store.now who)) }
{
    match open_field(store, root, who) {
        None => Ok(None),
        Some(field) => {
            let path = path_from_nester(alloc, store, root, who)?;
            Ok(Some(Place { path, field }))
        }
    }
}

/// Where the first of some objects of a subtree says that it isn't closed.
///
/// # Errors
///
/// There is no memory for the path.
fn first_open(
    alloc: Global,
    store: &Store,
    root: Who,
    objects: &[Who],
) -> Result<Option<Place>, NoMemory>
    requires parts { AllByRecursion (IsPart store.now root) objects.now }
    requires own { HasOwnPath (path store.now) root }
    ensures { IfOk result (λ place. option_map placed place
        ≡ first_at (world store.now) (path store.now root.space) root.slot (map (place_of store.now) objects.now)) }
{
    for who in objects {
        let found = open_at(alloc, store, root, *who)?;
        if found.is_some() {
            return Ok(found);
        }
    }
    Ok(None)
}

/// The first place where the subtree in a slot of the space with a birth number isn't closed, object by object in
/// preorder, in each by field number; nothing where it is closed. The slot holds a space.
///
/// It looks at each object of the subtree once, and at each pointer that leads to one of them.
///
/// # Errors
///
/// There is no memory for the list of the subtree's objects, or for the path of the place.
pub fn closed(alloc: Global, store: &Store, n: u32, slot: u8) -> Result<Option<Place>, NoMemory>
    requires { kind_there (world store.now) (slot ∷ path store.now n) ≡ Some kinds.Space }
    ensures { IfOk result (λ place. option_map placed place ≡ definition.open_place (world store.now) (path store.now n) slot) }
{
    let root = Who { space: n, slot };
    has_own_path(store, root);
    let objects = objects_of(alloc, store, root)?;
    first_open(alloc, store, root, objects.as_slice())
}
