//! The format of an image: its one spelling, the image that bytes spell, and the first fault of bytes that
//! spell none.
//!
//! It stands on `fk_image` for images and their validity. `specs/Format/Spelling.antt` has the bytes of an image,
//! `specs/Format/Reading.antt` what bytes say from left to right, with the reasons found so, and
//! `specs/Format/Offsets.antt` where in its bytes a wrong pointer stands. It has no code of its own but the reasons'
//! numbers and an image's version, and laws: that these fit together.

mod laws;
mod reasons;
mod stop;
mod versions;

pub use laws::{faultless, led, read_again};
pub use reasons::reason;
pub use stop::Stop;
pub use versions::{image_shows, shows_new};
