//! Whether the user threads of a store have halted.
ghost use Rattle.std.specs.Prelude.{◌≡◌, ◌↔◌, IsTrue};
ghost use Rattle.fk_store.specs.Store.World.{world, place_of};
ghost use Rattle.fk_report.specs.Threads.{is_over, HasHalted, HaveHalted};

use fk_model::{Mode, Who};
use fk_store::Store;

/// The user thread in a slot has halted, if one is there.
fn has_halted(store: &Store, who: Who) -> bool
    ensures { IsTrue result ↔ HasHalted (world store.now) (place_of store.now who) }
{
    match store.thread(who) {
        Some(thread) => is_over(thread.mode),
        None => true,
    }
}

/// A thread in this mode has halted, or is no user.
fn is_over(mode: Mode) -> bool
    ensures { result ≡ is_over mode }
{
    match mode {
        Mode::Running => false,
        Mode::Calling => false,
        Mode::Halted(_) => true,
        Mode::Native => true,
    }
}

/// Whether every user thread of a store has halted.
pub fn all_halted(store: &Store) -> bool
    ensures { IsTrue result ↔ HaveHalted (world store.now) }
{
    let mut at = store.after(None);
    while let Some(who) = at {
        if !has_halted(store, who) {
            return false;
        }
        at = store.after(Some(who));
    }
    true
}
