//! The parts of an image from its bytes: fields, pointers, threads, objects and pages.
//!
//! It stands on `fk_image::format` for what bytes say and what refuses them, on `fk_image` for the records, and on
//! `byteorder` for numbers.
//! Each function reads its part from the front of the bytes and gives it with the bytes behind it, exactly as
//! `fk_image::format` has it, or the fault of the first bad field. None recurses, and each takes time and memory
//! in proportion to the bytes that it reads, whatever the numbers in them promise.

mod fail;
mod fields;
mod objects;
mod threads;

pub use fail::Fail;
pub use fields::{read_below, read_byte, read_link, read_u16, read_u32, read_u64, refused};
pub use objects::{read_objects, read_pages};
