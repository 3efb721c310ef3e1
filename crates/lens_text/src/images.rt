//! Images as text, one thing a line, and the lines by which two differ.
//!
//! An image's line begins with what it is and the path from the image's root. The words of a page that has instructions are disassembled.

mod differences;
mod lines;
mod objects;
mod pages;
mod paths;
mod threads;

pub use differences::push_differences;
pub use lines::push_image;
pub use paths::path_in;
