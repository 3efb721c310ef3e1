//! What a checkpoint reads of a closed subtree: what stands in each of its spaces, and where the pointers lead.
//!
//! It stands on `seeking`, and on `laws_checkpoint`, whose reader and gatherer say what is asked next after each
//! answer. It sees answers alone, and promises that what it asks and what it comes to is what those say. Taking an answer
//! takes no memory: `reserve` makes room before.

mod content;
mod gather;
mod read;
mod todo;

pub use content::{Content, Item, Lead};
pub use gather::{Gather, Step};
pub use read::{Read, Reading};
pub use todo::{Todo, kind_of};
