//! The reasons for which bytes are no image.

/// The reasons of a fault, by the numbers that are told.
pub mod reason {
    /// The first bytes aren't the magic.
    pub const MAGIC: u8 = 1;

    /// The version isn't one that is read.
    pub const VERSION: u8 = 2;

    /// The bytes end within a field.
    pub const CUT: u8 = 3;

    /// A space, a slot or a page that doesn't follow in order.
    pub const ORDER: u8 = 4;

    /// A number, a slot, a kind, a mode or a tag out of its range.
    pub const RANGE: u8 = 5;

    /// A pointer to nothing, or to what its field can't hold.
    pub const POINTER: u8 = 6;

    /// Bytes are left over.
    pub const LEFT_OVER: u8 = 7;

    /// The version is 2, and no calling thread shows a call that only this version has.
    pub const NEWER: u8 = 8;
}
