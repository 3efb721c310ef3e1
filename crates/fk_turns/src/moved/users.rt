//! Users' threads.
ghost use Rattle.std.specs.Prelude.{◌≡◌, ℕ, List};
ghost use Rattle.fk_model.specs.Holds as holds;
ghost use Rattle.fk_store.specs.Store.Bodies.{mode_by};
ghost use Rattle.fk_turns.specs.Moved.Kept.{is_user_at};

use fk_model::{Mode, Who};
use fk_store::Store;

/// A user's thread stands in a slot.
pub fn is_user(store: &Store, who: Who) -> bool
    ensures { result ≡ is_user_at store.now who }
{
    match store.thread(who) {
        Some(thread) => !is_porter(thread.mode),
        None => false,
    }
}

/// A porter is at this.
fn is_porter(mode: Mode) -> bool
    ensures { (registers : List ℕ) → result ≡ holds.is_porter (mode_by mode registers) }
{
    match mode {
        Mode::Native => true,
        Mode::Running | Mode::Calling | Mode::Halted(_) => false,
    }
}
