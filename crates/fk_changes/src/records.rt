//! State records: the 32 words that say all of an object but its pointers.
//!
//! It stands on `fk_store`, `fk_stages` and `readers`. It promises that the words are those of the abstract
//! machine's record, and that setting one makes of the store's world what the machine makes of it.

mod records;
mod setting;
mod words;

pub use records::record_of;
pub use setting::{set_state, takes_state};
pub use words::{flag, turn_number};
