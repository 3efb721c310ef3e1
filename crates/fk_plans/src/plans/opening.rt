//! How stages begin that change an object.
ghost use Rattle.std.specs.Prelude.{◌≡◌, ◌<◌, ◌∷◌, true, false, IfErr, IfOk};
ghost use Rattle.fk_model.specs.Holds.{is_frozen_for};
ghost use Rattle.fk_model.specs.declared.statuses.status.TheConstants.{HELD as FROZEN};
ghost use Rattle.fk_store.specs.Store.Paths.{path, place};
ghost use Rattle.fk_store.specs.Store.World.{world};

use fk_changes::readers::Caller;
use fk_model::Who;
use fk_model::status::HELD;
use fk_store::Store;

/// The name of the object in a slot of a space, which is below 256. HELD where it is frozen for the
/// caller.
///
/// # Errors
///
/// HELD: it is frozen for the caller.
#[inline(always)]
pub fn unfrozen(store: &Store, caller: Caller, space: u32, x: u64) -> Result<Who, u8>
    requires slot { x < 256 }
    ensures free { IfOk result (λ object. (object ≡ record { space = space; slot = x })
        × (is_frozen_for (world store.now) (place (path store.now) caller.who) (x ∷ path store.now space) ≡ false)) }
    ensures held { IfErr result (λ status. (status ≡ FROZEN)
        × (is_frozen_for (world store.now) (place (path store.now) caller.who) (x ∷ path store.now space) ≡ true)) }
{
    let slot = x as u8;
    let object = Who { space, slot };
    if store.frozen_for(caller.who, object) {
        return Err(HELD);
    }
    Ok(object)
}
