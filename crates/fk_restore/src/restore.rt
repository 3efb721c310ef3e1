//! The restore of an image in a slot of its nester, by answers alone.
//!
//! It makes the calls of the machine of `laws_restore::rooms`, one after the other, and hears their answers. What is left of its
//! script is a position, so it takes no memory.
//!
//! It stands on `positions` and `orders` for the script's places, and on `laws_restore::rooms` for the machine. It promises that what it asks
//! and what it comes to is what the machine says.

mod counting;
mod end;
mod restore;

pub use end::RestoreEnd;
pub use restore::Restore;
