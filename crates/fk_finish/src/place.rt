//! Places in a subtree.
use fk_model::List;

/// Where a subtree isn't closed.
#[derive(Drop)]
pub struct Place {
    /// An object, by its path from the nester: the slot of the subtree's root first, its own last.
    pub path: List<u8>,
    /// The number of its pointer field that leads where it may not; 15 where something outside leads to it.
    pub field: u8,
}
