//! Why a part isn't read.
ghost use Rattle.std.specs.Prelude.{◌≡◌};
ghost use Rattle.fk_codec.specs.declared.reading.fail.Fail.TheVariants as fails;

use fk_image::format::Stop;
use fk_model::NoMemory;

/// Why a part isn't read: the fault of its first bad field, or want of memory.
#[derive(Clone, Copy)]
pub enum Fail {
    NoMemory,
    At(Stop),
}

impl From<NoMemory> for Fail {
    ghost from_gives = { λ _ fail. fail ≡ fails.NoMemory };

    fn from(_: NoMemory) -> Fail {
        Fail::NoMemory
    }
}
