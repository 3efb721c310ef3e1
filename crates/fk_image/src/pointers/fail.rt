//! What is wrong with the pointers of an image.
ghost use Rattle.std.specs.Prelude.{◌≡◌};
ghost use Rattle.fk_image.specs.declared.pointers.fail.PointerFail.TheVariants as fails;

use fk_model::NoMemory;

/// Why pointers aren't all right.
#[derive(Clone, Copy)]
pub enum PointerFail {
    NoMemory,
    /// The offset in the image's bytes of the first wrong pointer's tag, or of a port's wrong set.
    Wrong(u64),
}

impl From<NoMemory> for PointerFail {
    ghost from_gives = { λ _ fail. fail ≡ fails.NoMemory };

    fn from(_: NoMemory) -> PointerFail {
        PointerFail::NoMemory
    }
}
