//! A porter's walk over a subtree that it holds, and its search for the first place where the subtree isn't closed.
//!
//! It stands on `fk_model`, and on `laws_checkpoint`, whose walker and seeker say what is asked next after each answer.
//! It sees answers alone, and promises that what it asks and what it comes to is what those say. Taking an answer
//! takes no memory: `Walk::reserve` makes room before.

mod answers;
mod descent;
mod fields;
mod met;
mod seek;
mod walk;

pub use answers::words_of;
pub use descent::{space_of, way};
pub use fields::{Fields, asked_of, pointers_by};
pub use met::Met;
pub use seek::{Look, Seek, Sought, met_at, tells_port};
pub use walk::{Step, Walk};
