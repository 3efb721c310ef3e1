//! Whether an image is valid.
//!
//! It stands on `fk_image` for the records and what validity is (`specs/Valid/Valid.antt` there), and on
//! `pointers` for where pointers lead. `is_valid` answers exactly that.

mod objects;
mod spaces;

pub use spaces::is_valid;
