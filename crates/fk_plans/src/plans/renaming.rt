//! Giving an object another slot: when the freezing rule allows it, and doing it.
ghost use Rattle.std.specs.Prelude.{◌≡◌, ◌<◌, ◌↔◌, ◌∷◌, ℕ, List, false, true, IsTrue};
ghost use Rattle.fk_model.specs.Freezing as freezing;
ghost use Rattle.fk_model.specs.Freezing.{MayMove};
ghost use Rattle.fk_model.specs.Moves.{closed, stepped};
ghost use Rattle.fk_model.specs.Places.{Path, same_path};
ghost use Rattle.fk_store.specs.Store.Moves.{said_by};
ghost use Rattle.fk_store.specs.Store.Paths.{path, place, HasOwnPath};
ghost use Rattle.fk_store.specs.Store.World.{world, IsLive};
ghost use Rattle.fk_plans.specs.Plans.Hearers.{IsPadded};
ghost use Rattle.fk_plans.specs.Plans.Plans.{caller_by};
ghost use Rattle.fk_plans.specs.Plans.Renames.{renames, IsMoving};

use crate::plans::telling::told;
use fk_changes::deaths::is_swept;
use fk_changes::readers::Caller;
use fk_changes::threads::{Answers, finish};
use fk_model::status::OK;
use fk_model::{Said, Who};
use fk_store::Store;

/// The freezing rule lets the object at a name follow another that is renamed.
fn may_follow(store: &Store, me: Who, renamed: Who, other: Who) -> bool
    requires apart { HasOwnPath (path store.now) renamed }
    ensures { result ≡ freezing.may_follow (world store.now) (place (path store.now) me) (place (path store.now) renamed) (place (path store.now) other) }
{
    match store.at(other) {
        Some(body) => !is_swept(renamed, other, body) || !store.frozen_for(me, other),
        None => true,
    }
}

/// It lets what stands in the object's space follow.
fn may_space_follow(store: &Store, me: Who, renamed: Who) -> bool
    requires apart { HasOwnPath (path store.now) renamed }
    ensures allows { result ≡ true → (k : ℕ) → k < 256 →
        freezing.may_follow (world store.now) (place (path store.now) me) (place (path store.now) renamed) (k ∷ path store.now renamed.space) ≡ true }
    ensures forbids { result ≡ false → (q : Path)
        × (freezing.may_follow (world store.now) (place (path store.now) me) (place (path store.now) renamed) q ≡ false) }
{
    let space = renamed.space;
    for slot in 0..256u16 {
        let slot = slot as u8;
        if !may_follow(store, me, renamed, Who { space, slot }) {
            return false;
        }
    }
    true
}

/// It lets all follow that do. It looks at what stands in the object's space, and at those of which
/// a pointer leads there.
fn may_all_follow(store: &Store, me: Who, renamed: Who) -> bool
    requires apart { HasOwnPath (path store.now) renamed }
    ensures { IsTrue result
        ↔ ((q : Path) → freezing.may_follow (world store.now) (place (path store.now) me) (place (path store.now) renamed) q ≡ true) }
{
    if !store.is_any_held() {
        return true;
    }
    store.slots();
    if !may_space_follow(store, me, renamed) {
        return false;
    }
    let mut leaders = store.leaders(renamed);
    while let Some(other) = leaders.next() {
        if !may_follow(store, me, renamed, other) {
            return false;
        }
    }
    leaders.are_all() || may_each_follow(store, me, renamed)
}

/// It lets all follow that do, by a look at all objects: where it isn't known who leads there.
fn may_each_follow(store: &Store, me: Who, renamed: Who) -> bool
    requires apart { HasOwnPath (path store.now) renamed }
    ensures { IsTrue result
        ↔ ((q : Path) → freezing.may_follow (world store.now) (place (path store.now) me) (place (path store.now) renamed) q ≡ true) }
{
    let mut at = store.after(None);
    while let Some(other) = at {
        if !may_follow(store, me, renamed, other) {
            return false;
        }
        at = store.after(Some(other));
    }
    true
}

/// It lets an object be renamed.
pub fn may_move(store: &Store, me: Who, renamed: Who) -> bool
    requires live { IsLive store.now renamed }
    ensures { IsTrue result ↔ MayMove (world store.now) (place (path store.now) me) (place (path store.now) renamed) }
{
    if store.at(renamed).is_none() {
        unreachable!();
    }
    !store.frozen_for(me, renamed) && may_all_follow(store, me, renamed)
}

/// Whether a name is that of an object that is there.
fn is_named(store: &Store, who: Who, object: Who) -> bool
    requires live { IsLive store.now object }
    ensures { result ≡ same_path (place (path store.now) who) (place (path store.now) object) }
{
    store.at(object).is_some() && who == object
}

/// Gives an object another slot, and the caller's stage is done. A thread that renames itself is done
/// in its new slot.
pub fn rename(store: &mut Store, caller: Caller, object: Who, slot: u8) -> Said
    requires live { caller.is_porter ≡ false → IsLive store.old caller.who }
    requires fits { IsMoving store.old object slot }
    ensures step { (words : List ℕ) → let c = caller_by (path store.old) caller words in
        stepped (world store.old) (closed c (renames c (place (path store.old) object) slot))
        ≡ record { world = world store.new; said = said_by (path store.new) result } }
    ensures padded { IsPadded result }
{
    let is_itself = is_named(store, caller.who, object);
    store.move_to(object, slot);
    if caller.is_porter {
        return told(OK, Answers::Nothing);
    }
    let space = object.space;
    let me = if is_itself {
        Who { space, slot }
    } else {
        caller.who
    };
    finish(store, me, Answers::Nothing);
    Said::Nothing
}
