//! Readers: what a stage of a call reads of the store, each with the status that says what was wrong.
//!
//! It stands on `fk_store`, and promises of each reader that it finds what the abstract machine's
//! reader of that name finds, by paths, or refuses with the same status.

mod caller;
mod ends;
mod handles;
mod objects;
mod readers;
mod within;

pub use caller::Caller;
pub use ends::{port_in, thread_in};
pub use handles::{handle, led_to, referred, thread_by_handle};
pub use objects::{is_referable, kind_number, object_in, pointer_in, reference_in};
pub use readers::{cond_in, last_slot, mutex_in, place, slot_for};
pub use within::{above, is_beneath, is_in, is_within};
