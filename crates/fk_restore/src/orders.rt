//! What a restorer does at a place in the script of an image's restore: the words that it gives with the call there, how it hears the
//! answer, and where the next order stands.
//!
//! It stands on `positions` for the places, and promises that words and hearing are those of the order at a place (`words_at`,
//! `look_at`), and that from the next place where an order stands (`settled_from`) the orders are the same.

mod looks;
mod records;
mod settled;
mod used;
mod words;

pub use looks::{Look, look_at};
pub use settled::{first, is_over, settled_from};
pub use words::words_at;
