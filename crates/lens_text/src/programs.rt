//! Programs by the lines of their texts: at which label and line of a scenario a word stands.
//!
//! `Programs` reads the texts of a scenario's programs, and knows which program stands in which space at the beginning. `Scene` is what stands
//! at a moment of the run beside them, so that whoever tells of a thread can tell its place too.

mod listing;
mod places;
mod reading;
mod scene;

pub use places::push_place;
pub use reading::{Programs, programs_of};
pub use scene::Scene;
