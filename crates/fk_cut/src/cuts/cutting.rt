//! The cut of a subtree: its objects and pages, with all that leads out named by where it leads.
ghost use Rattle.std.specs.Prelude.{◌≡◌, ◌++◌, ◌∷◌, ℕ, Some, IfOk, OnOk, map};
ghost use Rattle.std.specs.List.{AllByRecursion, flat_map};
ghost use Rattle.fk_model.specs.Cut as definition;
ghost use Rattle.fk_model.specs.Valid.{kind_there};
ghost use Rattle.fk_model.specs.declared.names.Kind.TheVariants as kinds;
ghost use Rattle.fk_model.specs.declared.names.Who.{Who};
ghost use Rattle.fk_store.specs.Store.Paths.{path, HasOwnPath};
ghost use Rattle.fk_store.specs.Store.World.{world, place_of};
ghost use Rattle.fk_cut.specs.Closing.Walks.{IsPart};
ghost use Rattle.fk_cut.specs.Cuts.Shown.{IsShown, below, object_there, page_shown, pages_there};

use crate::closing::{birth_of, has_own_path, objects_of, path_below};
use crate::cuts::shown::{CutPtr, fields_of};
use fk_changes::records::record_of;
use fk_model::{List, NoMemory, Who};
use fk_store::Store;
use std::alloc::Global;

/// An object of a subtree.
#[derive(Drop)]
pub struct CutObject {
    /// The slots from the subtree's root to its own; none is the root.
    pub path: List<u8>,
    /// Its state record.
    pub words: [u64; 32],
    /// Its pointer fields by their numbers.
    pub ptrs: [CutPtr; 4],
}

/// A page of a space of a subtree.
#[derive(Drop)]
pub struct CutPage {
    /// The space, as an object's path.
    pub path: List<u8>,
    pub page: u8,
    pub words: [u64; 64],
}

/// A subtree seen alone: its objects in preorder, the root first, and its pages by the spaces in that order and by
/// rising number.
#[derive(Drop)]
pub struct CutWorld {
    pub objects: List<CutObject>,
    pub pages: List<CutPage>,
}

/// An object of a subtree as it is seen alone.
///
/// # Errors
///
/// There is no memory for its paths.
fn object_of(alloc: Global, store: &Store, root: Who, who: Who) -> Result<CutObject, NoMemory>
    requires part { IsPart store.now root who }
    requires own { HasOwnPath (path store.now) root }
    ensures { IfOk result (λ object. object
        ≡ object_there (definition.cut (world store.now) (path store.now root.space) root.slot) (below store.now root who)) }
{
    match store.at(who) {
        Some(body) => {
            let path = path_below(alloc, store, root, who)?;
            let words = record_of(body);
            let ptrs = fields_of(alloc, store, root, who, body)?;
            Ok(CutObject { path, words, ptrs })
        }
        None => unreachable!(),
    }
}

/// Adds a page of a space of a subtree, if it is there.
///
/// # Errors
///
/// There is no memory for it.
fn add_page(
    alloc: Global,
    store: &Store,
    root: Who,
    who: Who,
    space: u32,
    page: u8,
    pages: &mut List<CutPage>,
) -> Result<(), NoMemory>
    requires part { IsPart store.now root who }
    requires own { HasOwnPath (path store.now) root }
    requires space { path store.now space ≡ place_of store.now who }
    ensures { OnOk result (pages.new ≡ pages.old ++ page_shown (below store.now root who) page ((world store.now).page (place_of store.now who) page)) }
{
    if let Some(words) = store.page(space, page) {
        let path = path_below(alloc, store, root, who)?;
        let words = *words;
        pages.push(CutPage { path, page, words })?;
    }
    Ok(())
}

/// Adds the pages of a space of a subtree.
///
/// # Errors
///
/// There is no memory for one.
fn add_pages_of(
    alloc: Global,
    store: &Store,
    root: Who,
    who: Who,
    space: u32,
    pages: &mut List<CutPage>,
) -> Result<(), NoMemory>
    requires part { IsPart store.now root who }
    requires own { HasOwnPath (path store.now) root }
    requires space { path store.now space ≡ place_of store.now who }
    ensures { OnOk result (pages.new
        ≡ pages.old ++ pages_there (definition.cut (world store.now) (path store.now root.space) root.slot) (below store.now root who)) }
{
    for number in 0..256u16 {
        let page = number as u8;
        add_page(alloc, store, root, who, space, page, pages)?;
    }
    Ok(())
}

/// Adds the pages of an object of a subtree, if it is a space.
///
/// # Errors
///
/// There is no memory for one.
fn add_pages(
    alloc: Global,
    store: &Store,
    root: Who,
    who: Who,
    pages: &mut List<CutPage>,
) -> Result<(), NoMemory>
    requires part { IsPart store.now root who }
    requires own { HasOwnPath (path store.now) root }
    ensures { OnOk result (pages.new
        ≡ pages.old ++ pages_there (definition.cut (world store.now) (path store.now root.space) root.slot) (below store.now root who)) }
{
    let Some(body) = store.at(who) else {
        return Ok(());
    };
    match birth_of(body) {
        Some(space) => add_pages_of(alloc, store, root, who, space, pages),
        None => Ok(()),
    }
}

/// Some objects of a subtree as they are seen alone, with their pages.
///
/// # Errors
///
/// There is no memory for one.
fn shown_all(alloc: Global, store: &Store, root: Who, whos: &[Who]) -> Result<CutWorld, NoMemory>
    requires parts { AllByRecursion (IsPart store.now root) whos.now }
    requires own { HasOwnPath (path store.now) root }
    ensures objects { IfOk result (λ w. let c = definition.cut (world store.now) (path store.now root.space) root.slot in
        w.objects ≡ map (λ who. object_there c (below store.now root who)) whos.now) }
    ensures pages { IfOk result (λ w. let c = definition.cut (world store.now) (path store.now root.space) root.slot in
        w.pages ≡ flat_map (λ who. pages_there c (below store.now root who)) whos.now) }
{
    let mut objects = List::new(alloc);
    let mut pages = List::new(alloc);
    for who in whos {
        let object = object_of(alloc, store, root, *who)?;
        objects.push(object)?;
        add_pages(alloc, store, root, *who, &mut pages)?;
    }
    Ok(CutWorld { objects, pages })
}

/// The subtree in a slot of the space with a birth number, seen alone. The slot holds a space.
///
/// # Errors
///
/// There is no memory for it.
pub fn cut(alloc: Global, store: &Store, n: u32, slot: u8) -> Result<CutWorld, NoMemory>
    requires { kind_there (world store.now) (slot ∷ path store.now n) ≡ Some kinds.Space }
    ensures { IfOk result (λ w. IsShown (definition.cut (world store.now) (path store.now n) slot) w) }
{
    let root = Who { space: n, slot };
    has_own_path(store, root);
    let objects = objects_of(alloc, store, root)?;
    shown_all(alloc, store, root, objects.as_slice())
}
