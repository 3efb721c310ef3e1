//! What stands beside an object that has another body.
ghost use Rattle.std.specs.Prelude.{◌≡◌, ◌≢◌, ℕ, Some, true};
ghost use Rattle.std.specs.FinMap as map;
ghost use Rattle.fk_store.specs.Freezing.Freezing.{AreFrozen, AreFrozenBut, AreKnown, AreTold, AreToldBut};
ghost use Rattle.fk_store.specs.Holds.Frozen.{mark_at};
ghost use Rattle.fk_store.specs.Holds.Held.{IsTold};
ghost use Rattle.fk_store_graph.specs.Bodies.Births.{stored_birth, birth_in};

use crate::freezing::freeze::freeze;
use crate::freezing::thaw::{is_under, thaw};
use crate::holds::{Frozen, Held};
use fk_model::{Body, Who};
use fk_store_graph::bodies::Bodies;

/// Room for the mark of a space; there may be none for want of memory.
pub fn make_room(frozen: &mut Frozen, body: &Body)
    ensures { (n : ℕ) → mark_at frozen.new n ≡ mark_at frozen.old n }
{
    if let Body::Space { birth, .. } = body {
        frozen.room(*birth);
    }
}

/// If a space stands there, it is told of if it is held, and its mark and those beneath it are as they
/// must be. All others are.
#[inline(always)]
pub fn settle(bodies: &Bodies, frozen: &mut Frozen, held: &mut Held, who: Who, body: &Body)
    requires known { AreKnown bodies.now }
    requires here { map.get bodies.now who ≡ Some body.now }
    requires frozen { AreFrozenBut bodies.now frozen.old who }
    requires told { AreToldBut bodies.now held.old who }
    ensures frozen { AreFrozen bodies.now frozen.new }
    ensures told { AreTold bodies.now held.new }
{
    if let Body::Space { birth, holder } = body {
        tell(held, *birth, holder.is_some());
        settle_marks(bodies, frozen, who, *birth);
    }
}

/// The mark of the space that stands there is as it must be, and so are those beneath it. All others are.
fn settle_marks(bodies: &Bodies, frozen: &mut Frozen, who: Who, birth: u32)
    requires known { AreKnown bodies.now }
    requires born { birth_in bodies.now who ≡ Some birth }
    requires closed { AreFrozenBut bodies.now frozen.old who }
    ensures { AreFrozen bodies.now frozen.new }
{
    if is_under(bodies, frozen, who) {
        freeze(bodies, frozen, who, birth);
    } else {
        thaw(bodies, frozen, who, birth);
    }
}

/// A space is told of if it is held.
fn tell(held: &mut Held, birth: u32, is_held: bool)
    ensures here { is_held ≡ true → IsTold held.new birth }
    ensures others { (n : ℕ) → n ≢ birth → IsTold held.old n → IsTold held.new n }
{
    if is_held {
        held.note(birth);
    } else {
        held.forget(birth);
    }
}

/// The space with this birth number, if there is one, isn't held any more.
pub fn forget(held: &mut Held, birth: Option<u32>)
    ensures { (n : ℕ) → birth ≢ Some n → IsTold held.old n → IsTold held.new n }
{
    if let Some(birth) = birth {
        held.forget(birth);
    }
}
