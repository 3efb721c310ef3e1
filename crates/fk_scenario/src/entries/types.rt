//! What the entries of a scenario are.
ghost use Rattle.std.specs.Prelude.{◌≡◌};

use crate::fields::Keyed;
use fk_model::{List, Rule, Text};

/// A program, assembled.
#[derive(Drop)]
pub struct Program {
    /// 1 to 32 characters of a to z, 0 to 9 and `_`.
    pub name: Text,
    /// At most 16,384 words.
    pub words: List<u64>,
}

/// A space.
#[derive(Drop)]
pub struct SpaceEntry {
    /// The slots from the root down, each from 0 to 239. It is empty for the root's own entry.
    pub path: List<u8>,
    /// The index of the program that stands at its address 0.
    pub program: Option<u32>,
    /// Its pages of zeros besides those of the program, as they are written: in any order, and maybe twice.
    pub pages: List<u8>,
    /// Whether it has a porter, which makes the calls of jobs.
    pub nester: bool,
}

/// What an object is. A path or a set that isn't given is None.
#[derive(Drop)]
pub enum Spec {
    Thread {
        /// Where it starts, 0 to 16,383.
        entry: u16,
        /// Its first registers, at most 16. All others are 0.
        regs: List<u64>,
        /// How often it is stopped.
        stops: u16,
    },
    Mutex {
        locked: bool,
    },
    Cond,
    Portset,
    /// Pages `first` to `first + count - 1`, as pages from `offset` on of its region.
    Mapping {
        region: Option<List<u8>>,
        first: u8,
        /// 1 to 256, and no further than page 255.
        count: u16,
        offset: u8,
        write: bool,
    },
    /// Pages `first` to `first + count - 1` of its space. Faults there go to the keeper, a port.
    Region {
        first: u8,
        /// 1 to 256, and no further than page 255.
        count: u16,
        write: bool,
        keeper: Option<List<u8>>,
    },
    /// The slot of its port set, which is in the same space.
    Port {
        set: Option<u8>,
    },
    /// What it leads to: a mapping, region, port or thread, or a space but the root.
    Reference {
        to: Option<List<u8>>,
    },
}

/// An object.
#[derive(Drop)]
pub struct ObjectEntry {
    /// The slots from the root down, the object's own slot last.
    pub path: List<u8>,
    pub spec: Spec,
}

/// What a native server does.
#[derive(Drop)]
pub enum ServiceSpec {
    /// It appends what it is sent to the output of this name.
    Console {
        alias: Text,
    },
    /// It replies by a rule of the table that the caller keeps, the one with this index.
    Listed {
        index: u32,
        rule: Rule,
        config: List<u64>,
    },
}

/// A native server, and the port that it serves.
#[derive(Drop)]
pub struct ServerEntry {
    pub port: List<u8>,
    pub service: ServiceSpec,
}

impl Keyed for Program {
    ghost key = { λ s. s.name };

    fn key(&self) -> &[u8] {
        self.name.as_str().as_bytes()
    }
}

impl Keyed for SpaceEntry {
    ghost key = { λ s. s.path };

    fn key(&self) -> &[u8] {
        self.path.as_slice()
    }
}

impl Keyed for ObjectEntry {
    ghost key = { λ s. s.path };

    fn key(&self) -> &[u8] {
        self.path.as_slice()
    }
}
