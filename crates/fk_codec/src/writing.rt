//! The bytes of an image.
//!
//! It stands on `fk_image::format` for what an image's spelling is, on `fk_image` for the records and for which
//! images are valid, and on `byteorder` for numbers. `write` gives the one spelling of a valid image. It recurses on nothing, and takes time
//! and memory in proportion to the bytes that it gives.

mod numbers;
mod writing;

pub use numbers::{put_u16, put_u64};
pub use writing::write;
