//! The way up from an object.
ghost use Rattle.std.specs.Prelude.{◌≡◌, ◌++◌, [], ◌∷◌, ◌<◌, reverse, IfSome, IfNone, IfOk};
ghost use Rattle.fk_model.specs.Places as places;
ghost use Rattle.fk_model.specs.Places.{Path};
ghost use Rattle.fk_store.specs.Store.Paths.{path, HasOwnPath};
ghost use Rattle.fk_model.specs.Searches.{objects};
ghost use Rattle.fk_model.proofs.walks.Members.{IsIn};
ghost use Rattle.fk_store.specs.Store.World.{world, place_of, IsLive};

use fk_model::{List, NoMemory, Who};
use fk_store::Store;
use std::alloc::Global;

/// No other object has the path of one that is there.
pub fn has_own_path(store: &Store, who: Who)
    requires { IsLive store.now who }
    ensures { HasOwnPath (path store.now) who }
{
    // What is there has its path alone: the look tells it.
    let _there = store.at(who);
}

/// The object that is the space in which an object stands; nothing where that is the root.
pub fn above(store: &Store, who: Who) -> Option<Who>
    requires { IsLive store.now who }
    ensures root { IfNone result (path store.now who.space ≡ []) }
    ensures place { IfSome result (λ space. path store.now who.space ≡ place_of store.now space) }
    ensures live { IfSome result (IsLive store.now) }
    ensures older { IfSome result (λ space. space.space < who.space) }
{
    // What is there lies in a live space, so only the root has no home.
    store.at(who)?;
    store.home(who.space)
}

/// The walk through all objects comes to one that is there.
pub fn is_met(store: &Store, who: Who)
    requires { IsLive store.now who }
    ensures { IsIn (place_of store.now who) (objects (world store.now)) }
{
    // The walk goes over slots below 256 of spaces below 2^32, as names are and as the types of their parts say.
    store.names();
    let _there = store.at(who);
    let _below_256 = who.slot;
    let _below_2_32 = who.space;
    if let Some(space) = above(store, who) {
        let _below_256 = space.slot;
    }
}

/// An object is a subtree's root, or lies beneath it.
pub fn is_inside(store: &Store, root: Who, who: Who) -> bool
    requires live { IsLive store.now who }
    requires own { HasOwnPath (path store.now) root }
    ensures { result ≡ places.is_within (place_of store.now root) (place_of store.now who) }
{
    let mut at = who;
    while at != root {
        match above(store, at) {
            None => return false,
            Some(space) => at = space,
        }
    }
    true
}

/// The slots from that of an object of a subtree outwards, as far as the subtree's root.
fn way_up(alloc: Global, store: &Store, root: Who, who: Who) -> Result<Vec<u8>, NoMemory>
    requires live { IsLive store.now who }
    requires own { HasOwnPath (path store.now) root }
    ensures { (q : Path) → place_of store.now who ≡ q ++ place_of store.now root → IfOk result (λ path. path.items ≡ q) }
{
    let mut path = Vec::new(alloc);
    let mut at = who;
    while at != root {
        path.push(at.slot)?;
        match above(store, at) {
            None => return Ok(path),
            Some(space) => at = space,
        }
    }
    Ok(path)
}

/// The path of an object of a subtree from the subtree's root.
///
/// # Errors
///
/// There is no memory for it.
pub fn path_below(alloc: Global, store: &Store, root: Who, who: Who) -> Result<List<u8>, NoMemory>
    requires live { IsLive store.now who }
    requires own { HasOwnPath (path store.now) root }
    ensures { (q : Path) → place_of store.now who ≡ q ++ place_of store.now root → IfOk result (λ path. path ≡ reverse q) }
{
    let mut path = way_up(alloc, store, root, who)?;
    path.reverse();
    Ok(List::of(path))
}

/// The path of an object of a subtree from the nester, the subtree's slot first.
///
/// # Errors
///
/// There is no memory for it.
pub fn path_from_nester(
    alloc: Global,
    store: &Store,
    root: Who,
    who: Who,
) -> Result<List<u8>, NoMemory>
    requires live { IsLive store.now who }
    requires own { HasOwnPath (path store.now) root }
    ensures { (q : Path) → place_of store.now who ≡ q ++ place_of store.now root → IfOk result (λ path. path ≡ reverse (q ++ root.slot ∷ [])) }
{
    let mut path = way_up(alloc, store, root, who)?;
    path.push(root.slot)?;
    path.reverse();
    Ok(List::of(path))
}
