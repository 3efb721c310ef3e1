//! Migration between two kernels: its packets with their bytes, its events, and how it ends.
//!
//! It stands on `fk_finish` for the place where a subtree isn't closed, and on `fk_codec` for how fields are read from left to right
//! and put. It promises that a packet is read exactly where the bytes spell one, and else where and why not: that the bytes
//! end within a field, that a tag or a number is out of its range, or that bytes are left over. It knows neither kernels nor what a packet
//! does; a piece may have a number past its total.
#![tactic(auto)]

mod events;
mod laws;
mod packet;
mod reading;
mod writing;

pub use events::{Event, Fate};
pub use laws::{packets_are_exact, packets_are_read_again};
pub use packet::{PIECE_BYTES, Packet, Why};
pub use reading::read;
pub use writing::write;
