//! Where a slot of the nester is bound.
ghost use Rattle.std.specs.Prelude.{◌≡◌};
ghost use Rattle.laws_restore.specs.Rooms.Restoring.{bound_by};

/// Where pairs bind a slot of the nester: the first pair that names it decides, and else it is bound to itself.
pub fn bound(pairs: &[(u8, u8)], slot: u8) -> u8
    ensures { result ≡ bound_by pairs.now slot }
{
    for pair in pairs {
        if pair.0 == slot {
            return pair.1;
        }
    }
    slot
}
