//! The end of marks that nothing asks for any more.
ghost use Rattle.std.specs.Prelude.{◌≡◌, ◌<◌, ◌≤◌, IfSome, Some, None, true, false};
ghost use Rattle.fk_store.specs.Freezing.Freezing.{AreFrozen, AreKnown, IsUnder, is_held_at, weight};
ghost use Rattle.fk_store.specs.Holds.Frozen.{marked};
ghost use Rattle.fk_store_graph.specs.Bodies.Births.{birth_in};

use crate::freezing::steps::up;
use crate::holds::Frozen;
use fk_model::{Body, Who};
use fk_store_graph::bodies::Bodies;

/// Takes the marks of the space that stands there and of those beneath it away, down to what is held
/// itself.
pub fn thaw(bodies: &Bodies, frozen: &mut Frozen, who: Who, top: u32)
    requires known { AreKnown bodies.now }
    requires born { birth_in bodies.now who ≡ Some top }
    requires frozen { AreFrozen bodies.now frozen.old }
    ensures { AreFrozen bodies.now frozen.new }
{
    if !thaw_one(bodies, frozen, who, top) {
        return;
    }
    let mut next = Some((top, 0));
    while let Some((space, slot)) = next {
        next = thaw_next(bodies, frozen, top, space, slot);
    }
}

/// Takes the mark of a space away, if nothing asks for it; true if it had one.
fn thaw_one(bodies: &Bodies, frozen: &mut Frozen, who: Who, birth: u32) -> bool
    requires known { AreKnown bodies.now }
    requires born { birth_in bodies.now who ≡ Some birth }
    requires frozen { AreFrozen bodies.now frozen.old }
    ensures frozen { AreFrozen bodies.now frozen.new }
    ensures gone { result ≡ true → marked frozen.new < marked frozen.old }
    ensures same { result ≡ false → frozen.new ≡ frozen.old }
{
    if is_under(bodies, frozen, who) {
        return false;
    }
    frozen.clear(birth)
}

/// One step of the walk: the next object of a space is thawed, if it is a space that may be.
fn thaw_next(
    bodies: &Bodies,
    frozen: &mut Frozen,
    top: u32,
    space: u32,
    slot: u16,
) -> Option<(u32, u16)>
    requires slot { slot ≤ 256 }
    requires known { AreKnown bodies.now }
    requires frozen { AreFrozen bodies.now frozen.old }
    ensures frozen { AreFrozen bodies.now frozen.new }
    ensures falls { weight (marked frozen.new) result < weight (marked frozen.old) (Some (space, slot)) }
    ensures slot { IfSome result (λ next. next.1 ≤ 256) }
{
    match bodies.next_in(space, slot) {
        None => up(bodies, top, space),
        Some(found) => match thaw_found(bodies, frozen, Who { space, slot: found }) {
            None => Some((space, u16::from(found) + 1)),
            Some(birth) => Some((birth, 0)),
        },
    }
}

/// Takes the mark of the space that stands there away, if one does and nothing asks for it; its birth
/// number, if it had one.
fn thaw_found(bodies: &Bodies, frozen: &mut Frozen, who: Who) -> Option<u32>
    requires known { AreKnown bodies.now }
    requires frozen { AreFrozen bodies.now frozen.old }
    ensures frozen { AreFrozen bodies.now frozen.new }
    ensures some { IfSome result (λ birth. marked frozen.new < marked frozen.old) }
    ensures none { result ≡ None → frozen.new ≡ frozen.old }
{
    let birth = bodies.birth(who)?;
    if thaw_one(bodies, frozen, who, birth) {
        Some(birth)
    } else {
        None
    }
}

/// The object is a space that is held, or it lies in a space with a mark.
pub fn is_under(bodies: &Bodies, frozen: &Frozen, who: Who) -> bool
    ensures yes { result ≡ true → IsUnder bodies.now frozen.now who }
    ensures no { result ≡ false → IsUnder bodies.now frozen.now who → ⊥ }
{
    if frozen.at(who.space) {
        return true;
    }
    is_held(bodies, who)
}

/// An object is a space that somebody holds.
fn is_held(bodies: &Bodies, who: Who) -> bool
    ensures { result ≡ is_held_at bodies.now who }
{
    match bodies.at(who) {
        Some(Body::Space { holder, .. }) => holder.is_some(),
        _ => false,
    }
}
