//! Names of objects, and pointers to them.

/// The object in a slot of the space with this birth number. Slots are 0 to 255.
#[derive(Clone, Copy, PartialEq, Eq, PartialOrd, Ord)]
pub struct Who {
    pub space: u32,
    pub slot: u8,
}

/// The kinds of objects, by their numbers.
#[derive(Clone, Copy, PartialEq, Eq)]
pub enum Kind {
    Mutex = 1,
    Cond = 2,
    Mapping = 3,
    Region = 4,
    Port = 5,
    Portset = 6,
    Space = 7,
    Thread = 8,
    Reference = 9,
}

/// A pointer of an object.
#[derive(Clone, Copy, PartialEq, Eq)]
pub enum Ptr {
    /// It has never led anywhere, or was cleared.
    Null,
    /// The object that it led to was destroyed.
    Dead,
    At(Who),
}
