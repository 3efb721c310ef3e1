//! The place where an image goes on.

/// A space in which further spaces may follow, and the lowest slot for them.
#[derive(Clone, Copy)]
pub struct Open {
    pub space: u32,
    pub floor: u16,
}
