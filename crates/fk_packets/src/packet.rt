//! Packets, and why a subtree is kept.
use fk_finish::Place;

/// How many bytes of an image a piece can hold.
pub const PIECE_BYTES: u16 = 512;

/// Why a subtree stays where it is.
#[derive(Drop)]
pub enum Why {
    /// There is no space in the slot.
    Dead,
    /// The subtree isn't closed, first here.
    Foreign(Place),
    /// The slot is taken at the far side.
    Occupied,
    /// There is no port in this slot of the far root.
    NoPort(u8),
    /// The near side has given up.
    GaveUp,
}

/// What one side sends to the other. Once sent it may come at any later time, again, and in any order, or never.
#[derive(Drop)]
pub enum Packet {
    /// So many bytes of an image, the first `len` of these, from the place of this number among so many pieces.
    Piece {
        number: u64,
        total: u64,
        bytes: [u8; 512],
        len: u16,
    },
    /// The copy is built.
    Ready,
    /// There is no copy.
    Refused(Why),
    /// Nothing is left of the original.
    Gone,
    /// The original is kept.
    Cancel,
}
