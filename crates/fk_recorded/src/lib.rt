//! The replies of a record, for the replays that give them.
//!
//! It stands on `fk_record_text` for what is read of a record, and on `laws_pair` for which replies a replay is to have. It promises of each place the
//! replies of its notes, in order, or want of memory (`specs/Lists.antt`).
#![tactic(auto)]

mod lists;

pub use lists::lists_of;
