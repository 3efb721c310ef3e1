//! What stands in a subtree, and the slot of an image that a missing port stands for.
ghost use Rattle.std.specs.Prelude.{◌≡◌, ◌+◌, ◌<◌, ◌≤◌, ◌^◌, length};
ghost use Rattle.laws_restore.specs.Restore.Restore as machine;
ghost use Rattle.laws_restore.specs.Rooms.Restoring.{bound_by};
ghost use Rattle.laws_restore.specs.Rooms.Rooms.{rooms_from};
ghost use Rattle.fk_restore.specs.Restore.Bounds.{bound_here};
ghost use Rattle.fk_restore.specs.Restore.Restores.{inner};

use crate::positions::{bound, leads_out_any};
use fk_image::SpaceRec;
use fk_model::limits::FIRST_SCRATCH_SLOT;

/// What stands in a space, and the space itself where it isn't the first.
fn count_room(number: usize, space: &SpaceRec) -> u128
    ensures count { result ≡ inner number + length space.now.objects }
    ensures small { result ≤ 2 ^ 64 }
{
    let objects = space.objects.as_slice().len() as u128;
    if number == 0 { objects } else { 1 + objects }
}

/// What stands beneath the new space, all made.
pub fn count_objects(spaces: &[SpaceRec]) -> u128
    requires few { length spaces.now < 2 ^ 32 }
    ensures count { result ≡ machine.objects (rooms_from spaces.now 0 spaces.now) }
    ensures small { result < 2 ^ 127 }
{
    let mut count: u128 = 0;
    let mut number: usize = 0;
    while let Some(space) = spaces.get(number) {
        count += count_room(number, space);
        number += 1;
    }
    count
}

/// Whether a slot that something leads out to is bound to this one.
fn is_bound_here(spaces: &[SpaceRec], pairs: &[(u8, u8)], port: u8, slot: u8) -> bool
    ensures { result ≡ bound_here (bound_by pairs.now) (rooms_from spaces.now 0 spaces.now) port slot }
{
    bound(pairs, slot) == port && leads_out_any(spaces, slot)
}

/// Of the slots that something leads out to and that are bound to this one the lowest.
pub fn lowest_bound(spaces: &[SpaceRec], pairs: &[(u8, u8)], port: u8) -> u8
    ensures { result ≡ machine.lowest_bound (bound_by pairs.now) (rooms_from spaces.now 0 spaces.now) port 240 0 }
{
    let mut slot: u8 = 0;
    let mut left = FIRST_SCRATCH_SLOT as u8;
    while left > 0 {
        if is_bound_here(spaces, pairs, port, slot) {
            return slot;
        }
        slot += 1;
        left -= 1;
    }
    slot
}
