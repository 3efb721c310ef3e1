//! What a run makes its native servers note.
//!
//! `Noting` watches a run and keeps what each move makes native servers note (`notes`), beside the line of `steps` of that move.

mod notes;
mod noting;

pub use noting::Noting;
