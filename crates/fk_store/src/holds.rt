//! Which spaces may be held, and which may lie beneath one that is, by birth number.
//!
//! It stands on `fk_model` for its lists. Both structures say too much where they don't know: a space of
//! which nothing is told may be held. So neither asks for memory that it must have, and what only ever
//! ends a hold owes them nothing.

mod frozen;
mod held;

pub use frozen::Frozen;
pub use held::Held;
