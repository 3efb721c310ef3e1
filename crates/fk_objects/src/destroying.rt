//! The stages that destroy an object.
ghost use Rattle.std.specs.Prelude.{◌≡◌, ◌<◌, [], IfNone, IfOk, IfSome};
ghost use Rattle.fk_model.specs.ObjectRows as rows;
ghost use Rattle.fk_model.specs.Places as places;
ghost use Rattle.fk_model.specs.Places.{same_path};
ghost use Rattle.fk_model.specs.Valid.{IsValid};
ghost use Rattle.fk_store.specs.Store.Paths.{path, place as placed, HasOwnPath};
ghost use Rattle.fk_store.specs.Store.World.{world, IsLive, IsSpace};
ghost use Rattle.fk_plans.specs.Plans.Verdicts.{IsSureVerdict, Judges};

use fk_changes::readers::{Caller, object_in, place};
use fk_model::Who;
use fk_model::status::{DENIED, HELD};
use fk_plans::{Verdict, unfrozen};
use fk_store::Store;

/// The object that a live space is; none for the root.
#[tactic(auto, using(crate::proofs::Above::born_there, crate::proofs::Above::root_there))]
fn home(store: &Store, space: u32) -> Option<Who>
    requires { IsSpace store.now space }
    ensures some { IfSome result (λ who. (path store.now space ≡ placed (path store.now) who) × IsSpace store.now who.space × (who.space < space)) }
    ensures none { IfNone result (path store.now space ≡ []) }
{
    match store.home(space) {
        Some(who) => {
            if store.at(who).is_none() {
                unreachable!();
            }
            Some(who)
        }
        None => None,
    }
}

/// A space is an object, or lies beneath it.
fn is_above(store: &Store, object: Who, space: u32) -> bool
    requires space { IsSpace store.now space }
    requires apart { HasOwnPath (path store.now) object }
    ensures { result ≡ places.is_within (placed (path store.now) object) (path store.now space) }
{
    let mut at = space;
    for _step in 0..space {
        match home(store, at) {
            None => return false,
            Some(who) => {
                if who == object {
                    return true;
                }
                at = who.space;
            }
        }
    }
    false
}

/// A space is an object that is there, or lies beneath it.
#[inline(always)]
fn holds_space(store: &Store, object: Who, space: u32) -> bool
    requires space { IsSpace store.now space }
    requires live { IsLive store.now object }
    ensures { result ≡ places.is_within (placed (path store.now) object) (path store.now space) }
{
    match store.at(object) {
        Some(_) => is_above(store, object, space),
        None => unreachable!(),
    }
}

/// A name is that of an object that is there.
#[inline(always)]
fn is_named(store: &Store, who: Who, object: Who) -> bool
    requires live { IsLive store.now object }
    ensures { result ≡ same_path (placed (path store.now) who) (placed (path store.now) object) }
{
    store.at(object).is_some() && who == object
}

/// One stage destroys one object: the first at or beneath the named one, by lowest slots down, in
/// which nothing stands. The call is done with the named object itself.
///
/// # Errors
///
/// The status of the first refusal: its place (BADHANDLE, WRONGKIND, NULLREF, DEAD); the slot (BADHANDLE); HELD; DENIED, for the caller's space or one above
/// it; HELD, for the object that this stage would destroy.
#[tactic(auto, unfolding(fk_model::specs::ObjectRows::destroy))]
#[inline(always)]
pub fn destroy(store: &Store, caller: Caller, s: u64, x: u64) -> Result<Verdict, u8>
    requires space { IsSpace store.now caller.who.space }
    requires valid { IsValid (world store.now) }
    ensures row { Judges store.now caller result (λ w c. rows.destroy w c s x) }
    ensures sure { IfOk result IsSureVerdict }
{
    let space = place(store, caller, s)?;
    object_in(store, caller, space, x)?;
    let named = unfrozen(store, caller, space, x)?;
    if holds_space(store, named, caller.who.space) {
        return Err(DENIED);
    }
    let object = store.leaf(named);
    // What goes first may be frozen where what is named isn't.
    if store.frozen_for(caller.who, object) {
        return Err(HELD);
    }
    let last = is_named(store, object, named);
    Ok(Verdict::Destroys { object, last })
}
