//! Where reading stops.

/// The fault of a field: how many bytes are left from its first byte on, and the reason.
#[derive(Clone, Copy)]
pub struct Stop {
    pub left: usize,
    pub reason: u8,
}
