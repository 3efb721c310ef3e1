//! A descent from the subtree's root down to a space.
ghost use Rattle.std.specs.Prelude.{◌≡◌};
ghost use Rattle.fk_model.specs.declared.limits.TheConstants as limits;
ghost use Rattle.fk_model.specs.declared.stage.Stage.TheVariants as stages;
ghost use Rattle.laws_checkpoint.specs.Foreign.{PLACES};
ghost use Rattle.fk_checkpoint.specs.Seeking.Seeking.{way_at, from_at, up};
ghost use Rattle.laws_checkpoint.specs.Walk.{space_at};

use fk_model::Stage;
use fk_model::limits::{FIRST_SCRATCH_SLOT, OWN_SPACE};

/// The slot by which a descent goes on that has made so many steps: the root's own, and then those of a place.
fn way_at(slot: u8, place: &[u8], gone: usize) -> u64
    ensures { result ≡ way_at slot place.now gone }
{
    if gone == 0 {
        return u64::from(slot);
    }
    match place.get(gone - 1) {
        Some(way) => u64::from(*way),
        None => 0,
    }
}

/// The next step of a descent, after so many.
pub fn way(slot: u8, place: &[u8], gone: usize) -> Stage
    ensures { result ≡ stages.Point limits.OWN_SPACE PLACES (from_at gone) (way_at slot place.now gone) }
{
    Stage::Point {
        s: OWN_SPACE,
        x: FIRST_SCRATCH_SLOT,
        s2: if gone == 0 {
            OWN_SPACE
        } else {
            FIRST_SCRATCH_SLOT
        },
        x2: way_at(slot, place, gone),
    }
}

/// How a space is named once a descent is there: the root by its own slot.
pub fn space_of(slot: u8, place: &[u8]) -> u64
    ensures { result ≡ space_at slot (up place.now) }
{
    if place.is_empty() {
        u64::from(slot)
    } else {
        FIRST_SCRATCH_SLOT
    }
}
