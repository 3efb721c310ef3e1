//! How many objects stand in a subtree.
ghost use Rattle.std.specs.Prelude.{◌≡◌, ◌+◌, ◌<◌, ◌≤◌, ◌^◌, length};
ghost use Rattle.fk_restore.specs.Restore.Restores.{inner};
ghost use Rattle.laws_restore.specs.Restore.Restore.{objects};
ghost use Rattle.laws_restore.specs.Rooms.Rooms.{rooms_from, rooms_of};

use fk_finish::ValidImage;
use fk_image::SpaceRec;

/// What stands in a space, and the space itself where it isn't the first.
fn count_room(number: usize, space: &SpaceRec) -> u128
    ensures count { result ≡ inner number + length space.now.objects }
    ensures small { result ≤ 2 ^ 64 }
{
    let objects = space.objects.as_slice().len() as u128;
    if number == 0 { objects } else { 1 + objects }
}

fn count_spaces(spaces: &[SpaceRec]) -> u128
    requires few { length spaces.now < 2 ^ 32 }
    ensures { result ≡ objects (rooms_from spaces.now 0 spaces.now) }
{
    let mut count: u128 = 0;
    let mut number: usize = 0;
    while let Some(space) = spaces.get(number) {
        count += count_room(number, space);
        number += 1;
    }
    count
}

/// What stands beneath the root of a subtree, by its image.
pub fn count_objects(image: &ValidImage) -> u128
    ensures { result ≡ objects (rooms_of image.now) }
{
    count_spaces(image.get().spaces.as_slice())
}
