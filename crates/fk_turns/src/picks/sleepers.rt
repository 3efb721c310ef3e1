//! Sleepers of a condition.
ghost use Rattle.std.specs.Prelude.{◌≡◌, true, IfSome, IfNone, IsSome};
ghost use Rattle.fk_model.specs.Places.{Path, parent, same_path};
ghost use Rattle.fk_model.specs.SyncRows as rows;
ghost use Rattle.fk_model.specs.Valid.{IsValid};
ghost use Rattle.fk_store.specs.Store.Paths.{path, place};
ghost use Rattle.fk_store.specs.Store.World.{world};
ghost use Rattle.fk_turns.specs.Picks.Stands.{IsPicked};

use crate::picks::moves::{Picker, picked};
use fk_changes::threads::asleep_on;
use fk_model::Who;
use fk_store::Store;

/// The thread in a slot, if a user may wake it, which sleeps on a condition.
fn woken(store: &Store, who: Who, cond: u64, other: Who) -> Option<Who>
    requires valid { IsValid (world store.now) }
    ensures ready { IfSome result (λ found. IsPicked store.now (Picker.User who) (place (path store.now) found)) }
    ensures none { IfNone result (IsSome (rows.asleep_on cond ((world store.now).body (place (path store.now) other)))
        → IsPicked store.now (Picker.User who) (place (path store.now) other) → ⊥) }
{
    asleep_on(store, other, cond)?;
    picked(store, Picker::User(who), other)
}

/// A sleeper on a condition of a user's space whom it may wake.
pub fn wakes_one(store: &Store, who: Who, cond: u64) -> Option<Who>
    requires valid { IsValid (world store.now) }
    ensures ready { IfSome result (λ found. IsPicked store.now (Picker.User who) (place (path store.now) found)) }
    ensures none { IfNone result ((q : Path) → same_path (parent q) (path store.now who.space) ≡ true
        → IsSome (rows.asleep_on cond ((world store.now).body q)) → IsPicked store.now (Picker.User who) q → ⊥) }
{
    for slot in 0..256u16 {
        let other = Who {
            space: who.space,
            slot: slot as u8,
        };
        if let Some(found) = woken(store, who, cond, other) {
            return Some(found);
        }
    }
    None
}
