//! Images that are known to be valid, and the place where a subtree isn't closed.
//!
//! It stands on `fk_image`. Both jobs and those who run them speak of it. It promises that an image once seen to be valid is so wherever
//! it stands.
#![tactic(auto)]

mod place;
mod valid_image;

pub use place::Place;
pub use valid_image::ValidImage;
