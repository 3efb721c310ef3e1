//! A scenario with names, written as the plain scenario that `fluke` takes.
//!
//! In the place of a number a program may have the name of a call or of a status, or that of a constant, which a line `NAME = NUMBER` gives it;
//! and a thread's `entry` may be a label of its space's program. `push_plain` puts the numbers there, makes comments of the lines of constants,
//! and leaves all other bytes as they are: so a line stands where it stood, and a scenario without names is written as it is.
//!
//! A scenario's values are read by the reader of TOML (`programs`, `entries`), and what is to be changed in a program is found there (`names`,
//! `edits`). The scenario's own text is gone through for its strings alone (`document`), and the change is made where one says such a program
//! (`strings`), however it is spelled.

mod document;
mod edits;
mod entries;
mod names;
mod programs;
mod strings;

pub use document::push_plain;
pub use programs::{Said, said_by};
