//! What a walk meets.
use fk_model::List;

/// An object that was met: the slots from the subtree's root down to its space, its slot there, and the number of its kind.
#[derive(Drop)]
pub struct Met {
    pub place: List<u8>,
    pub slot: u8,
    pub kind: u64,
}
