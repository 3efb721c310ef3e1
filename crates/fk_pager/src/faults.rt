//! Faults that a pager may take.
ghost use Rattle.std.specs.Prelude.{◌≡◌, ◌≢◌, ◌∷◌, [], true, Some, IfSome, IfNone, is_some};
ghost use Rattle.fk_model.specs.Moves.{IsReady};
ghost use Rattle.fk_model.specs.Objects.{holds};
ghost use Rattle.fk_model.specs.Places.{Path};
ghost use Rattle.fk_model.specs.Searches.{fault_at};
ghost use Rattle.fk_store.specs.Store.World.{world, place_of};
ghost use Rattle.fk_paging.specs.Pagers.{backing_of};
ghost use Rattle.fk_pager.specs.Faults.{is_fault_of};

use fk_model::Who;
use fk_paging::Page;
use fk_store::Store;

/// A page is one of the list.
fn is_listed(pages: &[Page], page: u8) -> bool
    ensures { result ≡ is_some (backing_of pages.now page) }
{
    match pages.get(usize::from(page)) {
        Some(there) => there.listed,
        None => false,
    }
}

/// The thread in a slot has a fault at a port on a page of the list.
pub fn has_fault(store: &Store, pages: &[Page], port: Who, who: Who) -> bool
    ensures { result ≡ holds (is_fault_of (place_of store.now port) (backing_of pages.now)) (fault_at (world store.now) (place_of store.now who)) }
{
    let Some(thread) = store.thread(who) else {
        return false;
    };
    let Some(fault) = &thread.fault else {
        return false;
    };
    // Tells that no other object has the path of this port.
    let _there = store.at(fault.port);
    port == fault.port && is_listed(pages, fault.page)
}
