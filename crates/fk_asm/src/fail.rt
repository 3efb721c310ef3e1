//! Why a text isn't assembled.
ghost use Rattle.std.specs.Prelude.{◌≡◌};
ghost use Rattle.fk_asm.specs.declared.fail.AsmFail.TheVariants.{NoMemory};

use std::alloc::{AllocError, AllocFailed};
use thiserror::Error;

/// The first line that is refused, counted from 1, and why: a number of 1 to 6, as docs/FORMATS.md has
/// them.
#[derive(Clone, Copy, Debug, Error)]
#[error("line {line} reason {reason}")]
pub struct AsmError {
    pub line: u32,
    pub reason: u8,
}

/// Why there are no words.
#[derive(Clone, Copy, Debug, Error)]
pub enum AsmFail {
    /// A line is refused.
    #[error("bad text {0}")]
    Text(AsmError),
    /// There is no memory for the lines, labels or words.
    #[error("no memory")]
    NoMemory,
}

impl From<AllocError> for AsmFail {
    ghost from_gives = { λ _ fail. fail ≡ NoMemory };

    fn from(_: AllocError) -> AsmFail {
        AsmFail::NoMemory
    }
}

impl<T: Drop> From<AllocFailed<T>> for AsmFail {
    ghost from_gives = { λ _ fail. fail ≡ NoMemory };

    fn from(_: AllocFailed<T>) -> AsmFail {
        AsmFail::NoMemory
    }
}

impl From<fk_model::NoMemory> for AsmFail {
    ghost from_gives = { λ _ fail. fail ≡ NoMemory };

    fn from(_: fk_model::NoMemory) -> AsmFail {
        AsmFail::NoMemory
    }
}
