//! The text that shows an image: its version, how much it has, and which ports of the nester it leads to.
//!
//! It stands on `fk_image`, and promises the text of `specs/Show/Shown.antt`.

mod text;

pub use text::show_text;
