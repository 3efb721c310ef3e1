//! A record beside the moves that made it.
//!
//! `Noted` has what a run made one native server note, as lines of a record (`noted`). `push_record` shows a record's lines with the moves that made
//! them, as long as they are those of the run (`held`), and says of the first that isn't whether it is bad by itself (`bad`).

mod bad;
mod held;
mod noted;

pub use held::push_record;
pub use noted::Noted;
