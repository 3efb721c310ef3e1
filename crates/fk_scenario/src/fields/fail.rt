//! Why no scenario is read.
ghost use Rattle.std.specs.Prelude.{◌≡◌, IfOk};
ghost use Rattle.fk_scenario.specs.declared.fields.fail.Fail.TheVariants as fails;
ghost use Rattle.fk_scenario.specs.declared.fields.fail.ScenarioFail.TheVariants as ends;

use fk_model::NoMemory;
use std::alloc::{AllocError, AllocFailed};
use thiserror::Error;

/// The first refusal of a document: the rule that is broken, the section that breaks it, and the index of
/// the entry in its section, from 0 on.
/// Of bytes that are no document, both section and index are 0.
#[derive(Clone, Copy, Debug, Error)]
#[error("rule {rule} section {section} index {index}")]
pub struct ScenarioError {
    pub rule: u8,
    pub section: u8,
    pub index: u32,
}

/// Why there is no scenario.
#[derive(Clone, Copy, Debug, Error)]
pub enum ScenarioFail {
    /// The bytes are no scenario.
    #[error("bad scenario {0}")]
    Scenario(ScenarioError),
    /// There is no memory for the document or the scenario.
    #[error("no memory")]
    NoMemory,
}

/// The rules that a document or an entry may break, by their numbers.
pub mod rule {
    /// The bytes are no document.
    pub const DOCUMENT: u8 = 1;

    /// An unknown key, a missing one, or a wrong type.
    pub const KEYS: u8 = 2;

    /// A number or a length out of its range, too many spaces, or too many jobs.
    pub const RANGES: u8 = 3;

    /// An ill-formed path or name, an unknown kind, or an unknown rule of a server.
    pub const FORMS: u8 = 4;

    /// A space whose parent isn't there, that is there already, or that is the root and not the first; an
    /// object in a space that isn't there.
    pub const PLACES: u8 = 5;

    /// A slot that is taken already, or bound already.
    pub const SLOTS: u8 = 6;

    /// A path that leads to nothing, or to what its field can't hold; a set that is no port set.
    pub const AIMS: u8 = 7;

    /// A program that isn't there or isn't assembled.
    pub const PROGRAMS: u8 = 8;

    /// A server without a port of its own, or an alias that is given already.
    pub const SERVERS: u8 = 9;

    /// A job without its nester, whose checkpoint would hold a nester or a server, or whose image is made already.
    pub const JOBS: u8 = 10;
}

/// Why an entry isn't read: the rule that it breaks.
#[derive(Drop)]
pub enum Fail {
    Rule(u8),
    NoMemory,
}

impl Fail {
    ghost use Rattle.fk_scenario.specs.Fields.Gives.{fail_at};

    /// The refusal at a section and an index.
    pub fn at(self, section: u8, index: u32) -> ScenarioFail
        ensures { result ≡ fail_at section index self }
    {
        match self {
            Fail::Rule(rule) => ScenarioFail::Scenario(ScenarioError {
                rule,
                section,
                index,
            }),
            Fail::NoMemory => ScenarioFail::NoMemory,
        }
    }
}

/// A number of entries as an index. More than an index can count don't fit in memory.
///
/// # Errors
///
/// There are more than an index can count.
pub fn index_at(count: usize) -> Result<u32, NoMemory>
    ensures { IfOk result (λ index. index ≡ count) }
{
    match u32::try_from(count) {
        Ok(index) => Ok(index),
        Err(_) => Err(NoMemory),
    }
}

impl From<AllocError> for Fail {
    ghost from_gives = { λ _ fail. fail ≡ fails.NoMemory };

    fn from(_: AllocError) -> Fail {
        Fail::NoMemory
    }
}

impl<T: Drop> From<AllocFailed<T>> for Fail {
    ghost from_gives = { λ _ fail. fail ≡ fails.NoMemory };

    fn from(_: AllocFailed<T>) -> Fail {
        Fail::NoMemory
    }
}

impl From<NoMemory> for Fail {
    ghost from_gives = { λ _ fail. fail ≡ fails.NoMemory };

    fn from(_: NoMemory) -> Fail {
        Fail::NoMemory
    }
}

impl From<NoMemory> for ScenarioFail {
    ghost from_gives = { λ _ fail. fail ≡ ends.NoMemory };

    fn from(_: NoMemory) -> ScenarioFail {
        ScenarioFail::NoMemory
    }
}
