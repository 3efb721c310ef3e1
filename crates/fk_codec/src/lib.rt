//! The image codec: the bytes of an image, the image of bytes, and the text that shows one.
//!
//! It stands on `fk_image` for records and format, on `laws_image_faults` for what a first fault is by the form of an image, and on
//! `byteorder` for numbers. It promises that an image is read exactly where the bytes spell one, and has the form of one, else the offset and
//! the reason of their first fault, the first place where they break that form, and that what is written is the one spelling. It recurses
//! on nothing, and
//! takes time and memory in proportion to the bytes that are there, whatever the numbers in them promise.
//!
//! - `reading`: the parts of an image from its bytes;
//! - `writing`: the bytes of an image;
//! - `codec`: whole images from bytes;
//! - `show`: the text that `show` prints.
#![tactic(auto)]

pub mod codec;
pub mod reading;
pub mod show;
pub mod writing;

pub use codec::{ImageError, ReadFail, read};
pub use writing::write;
