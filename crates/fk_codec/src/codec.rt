//! The image codec: the bytes of an image, and the image of bytes, exact both ways.
//!
//! It stands on `fk_image::format` for what bytes spell and what refuses them, on `fk_image` for the records, on
//! `reading` for their parts, on `fk_image::pointers` for where they lead, and on `writing` for `write`, which
//! gives the one spelling of a valid image. `read` gives the image that the bytes spell, or the offset and the
//! reason of their first fault. It reads from left to right, recurses on nothing, and takes time and memory in
//! proportion to the bytes that are there, whatever the numbers in them promise.

mod fail;
mod reading;

pub use fail::{ImageError, ReadFail};
pub use reading::read;
