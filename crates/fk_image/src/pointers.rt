//! The pointers of an image: whether each leads to what its field may hold, and the first that doesn't.
//!
//! It stands on `fk_image` for what stands where, and on `format` for what a wrong pointer is and where
//! it stands in the bytes. It takes time and memory in proportion to the image: sets of places say where
//! spaces lie and which threads were named, and a table says where the spaces beneath a space end.

mod fail;
mod links;
mod places;

pub use fail::PointerFail;
pub use links::check_links;
