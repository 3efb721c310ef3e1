//! Whom a user picks, and whom a native server accepts.
//!
//! It stands on `fk_calls`, which tells whom a user may pick and whether a move is ready. It
//! promises that `ready_pick` finds a ready move of a user that picks somebody wherever there is
//! one, and `ready_accept` whom a server may accept. For a signal it looks at the space's sleepers alone, and for a wait at who stands at the
//! ports of its set: at what leads there by a pointer, and at who connects by the port or by a
//! reference to it. A server looks so at its own port.

mod moves;
mod picks;
mod ports;
mod sleepers;

pub use moves::Picker;
pub use picks::{ready_accept, ready_pick};
