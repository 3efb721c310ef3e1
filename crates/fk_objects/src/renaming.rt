//! The stage that gives an object another slot.
ghost use Rattle.std.specs.Prelude.{◌≡◌, ℕ, IfOk};
ghost use Rattle.fk_model.specs.Objects as objects;
ghost use Rattle.fk_model.specs.ObjectRows as rows;
ghost use Rattle.fk_model.specs.Places.{Path};
ghost use Rattle.fk_store.specs.Store.Bodies.{body_by};
ghost use Rattle.fk_store.specs.Store.World.{IsSpace};
ghost use Rattle.fk_plans.specs.Plans.Verdicts.{Judges, IsSureVerdict};

use fk_changes::readers::{Caller, object_in, place};
use fk_model::limits::LAST_USER_SLOT;
use fk_model::status::{BADHANDLE, DENIED, NOTEMPTY, OCCUPIED};
use fk_model::{Body, Who};
use fk_plans::{Verdict, unfrozen};
use fk_store::Store;

/// A port with a native server.
fn is_served(body: &Body) -> bool
    ensures { (p : ℕ → Path) → result ≡ objects.is_served (body_by p body.now) }
{
    match body {
        Body::Port { served, .. } => *served,
        _ => false,
    }
}

/// An object gets another slot of its space, which is empty. Nothing may stand in it, and no native
/// server serve it. A slot above 239 is none.
///
/// # Errors
///
/// The status of the first refusal: its place (BADHANDLE, WRONGKIND, NULLREF, DEAD); the slot (BADHANDLE); HELD; BADHANDLE, for a new slot above 239; DENIED,
/// for a port that is served; OCCUPIED; NOTEMPTY.
#[tactic(auto, unfolding(fk_model::specs::ObjectRows::rename))]
pub fn rename(store: &Store, caller: Caller, s: u64, x: u64, y: u64) -> Result<Verdict, u8>
    requires space { IsSpace store.now caller.who.space }
    ensures row { Judges store.now caller result (λ w c. rows.rename w c s x y) }
    ensures sure { IfOk result IsSureVerdict }
{
    let space = place(store, caller, s)?;
    let body = object_in(store, caller, space, x)?;
    let object = unfrozen(store, caller, space, x)?;
    // The new slot is a check of the call's own, after HELD.
    if y > LAST_USER_SLOT {
        return Err(BADHANDLE);
    }
    if is_served(body) {
        return Err(DENIED);
    }
    let slot = y as u8;
    if store.at(Who { space, slot }).is_some() {
        return Err(OCCUPIED);
    }
    if store.has_residents(object) {
        return Err(NOTEMPTY);
    }
    Ok(Verdict::Renames { object, slot })
}
