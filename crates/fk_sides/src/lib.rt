//! Both sides of a migration, by answers and packets alone.
//!
//! It stands on `fk_checkpoint` and `fk_restore` for the jobs that a side does, on `fk_codec` for the bytes of an image, on `fk_packets` for
//! packets, and on `laws_migrate` for what a side comes to. It knows no kernel: whoever has one makes the calls for which a side asks and
//! hands it the answers.
//!
//! It promises that a side is that of the laws at each answer and at each packet, whatever these are; that each packet it sends is made of what it
//! has come to; and that for want of memory all stays as it was.
//!
//! - `spelled`: an image with its bytes, cut into pieces;
//! - `near`: the near side, which gathers an image and destroys its own once there is a copy;
//! - `kept`: why it keeps its own, if it does;
//! - `blocks`, `came`: pieces that have come, in whatever order and however often;
//! - `restoring`, `far`: the far side, which makes the copy and releases or destroys it.
#![tactic(auto)]

mod blocks;
mod came;
mod counting;
mod far;
mod kept;
mod near;
mod restoring;
mod spelled;

pub use blocks::Block;
pub use came::{Came, Table};
pub use far::{Far, Makes, Refusal, Stand};
pub use kept::Reason;
pub use near::{Near, Saves, Since};
pub use restoring::Restoring;
pub use spelled::Spelled;
