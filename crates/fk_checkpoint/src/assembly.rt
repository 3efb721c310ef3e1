//! The image of what a checkpoint has gathered: each space with its objects' records and its pages, and the pointers as links.
//!
//! It stands on `gathering`, `fk_image` and `laws_checkpoint`. It promises the image that the machine of a checkpoint ends
//! with, of any records, pages and pointers: a number that a field of the image can't hold isn't kept, which no answer of the
//! kernel has.

mod image;
mod links;
mod records;
mod words;

pub use image::assembled;
