//! Why something isn't shown.
use fk_model::NoMemory;

/// Why something isn't shown. What is said of it stands on the sheet then.
#[derive(Clone, Copy)]
pub enum Problem {
    /// The words are none of a verb.
    Words,
    /// What was given can't be shown.
    Given,
    /// Something couldn't be read or written.
    Outside,
    /// There is no memory.
    NoMemory,
}

impl Problem {
    /// The status with which the process exits.
    pub fn status(self) -> u8 {
        match self {
            Problem::Given => 1,
            Problem::Words => 2,
            Problem::Outside => 3,
            Problem::NoMemory => 4,
        }
    }
}

impl From<NoMemory> for Problem {
    fn from(_: NoMemory) -> Problem {
        Problem::NoMemory
    }
}
