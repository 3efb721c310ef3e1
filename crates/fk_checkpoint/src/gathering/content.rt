//! What was gathered.
use fk_model::List;

/// The record of the object in a slot, or the words of the page with a number: the first `len`. They stand first: what is cleared between a byte and
/// words would have them copied twice.
#[derive(Clone, Copy)]
pub struct Item {
    pub words: [u64; 64],
    pub number: u8,
    pub len: u8,
}

/// A space: the slots from the subtree's root down to it, the records of its objects but spaces, and its pages.
#[derive(Drop)]
pub struct Content {
    pub path: List<u8>,
    pub objects: List<Item>,
    pub pages: List<Item>,
}

/// Where a pointer leads, as the subtree sees it.
#[derive(Drop)]
pub enum Lead {
    Null,
    Dead,
    /// Inside: the slots from the subtree's root down.
    At(List<u64>),
    /// To the port in this slot of the nester.
    Out(u64),
    Far,
}
