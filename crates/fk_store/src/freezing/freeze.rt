//! Marks on all spaces beneath one.
ghost use Rattle.std.specs.Prelude.{◌≡◌, ◌<◌, ◌≤◌, ℕ, IfSome, Some, None, true};
ghost use Rattle.fk_store.specs.Freezing.Freezing.{AreFrozen, AreFrozenBut, AreFrozenUpTo, AreKnown, IsMarkedNow, weight};
ghost use Rattle.fk_store.specs.Holds.Frozen.{mark_at, unmarked};
ghost use Rattle.fk_store_graph.specs.Bodies.Births.{birth_in};

use crate::freezing::steps::up;
use crate::holds::Frozen;
use fk_model::Who;
use fk_store_graph::bodies::Bodies;

/// Marks the space that stands there, and all spaces beneath it. All others that are to be marked are.
pub fn freeze(bodies: &Bodies, frozen: &mut Frozen, who: Who, top: u32)
    requires top { 0 < top }
    requires known { AreKnown bodies.now }
    requires born { birth_in bodies.now who ≡ Some top }
    requires closed { AreFrozenBut bodies.now frozen.old who }
    ensures { AreFrozen bodies.now frozen.new }
{
    if !frozen.mark(top) {
        return;
    }
    let mut next = Some((top, 0));
    while let Some((space, slot)) = next {
        next = freeze_next(bodies, frozen, top, space, slot);
    }
}

/// One step of the walk: the next object of a space is marked with what lies beneath it, if it is a space
/// without a mark.
fn freeze_next(
    bodies: &Bodies,
    frozen: &mut Frozen,
    top: u32,
    space: u32,
    slot: u16,
) -> Option<(u32, u16)>
    requires slot { slot ≤ 256 }
    requires known { AreKnown bodies.now }
    requires marked { mark_at frozen.old top ≡ true }
    requires closed { AreFrozenUpTo bodies.now frozen.old top (Some (space, slot)) }
    ensures marked { mark_at frozen.new top ≡ true }
    ensures closed { AreFrozenUpTo bodies.now frozen.new top result }
    ensures falls { weight (unmarked frozen.new) result < weight (unmarked frozen.old) (Some (space, slot)) }
    ensures slot { IfSome result (λ next. next.1 ≤ 256) }
{
    match bodies.next_in(space, slot) {
        None => up(bodies, top, space),
        Some(found) => match mark_found(bodies, frozen, Who { space, slot: found }) {
            None => Some((space, u16::from(found) + 1)),
            Some(birth) => Some((birth, 0)),
        },
    }
}

/// Marks the space that stands there, if one does that has no mark; its birth number, if it was marked now.
fn mark_found(bodies: &Bodies, frozen: &mut Frozen, who: Who) -> Option<u32>
    requires known { AreKnown bodies.now }
    ensures some { IfSome result (IsMarkedNow bodies.now frozen.old frozen.new who) }
    ensures none { result ≡ None → (frozen.new ≡ frozen.old) × ((n : ℕ) → birth_in bodies.now who ≡ Some n → mark_at frozen.old n ≡ true) }
{
    let birth = bodies.birth(who)?;
    if frozen.mark(birth) {
        Some(birth)
    } else {
        None
    }
}
