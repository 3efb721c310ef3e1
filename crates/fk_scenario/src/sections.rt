//! The sections of a scenario's document, each entry after those before it.
//!
//! It stands on `entries`, which reads each entry by itself, and on `fields` for lists of entries that
//! are found by key. Here an entry meets those of its section that come before it, and those of the sections
//! before: names and paths are new, and what lies around an entry is there. What entries lead to is no
//! matter yet. A section's reader gives its entries in the order of the file, exactly as `specs/Sections/` has them,
//! or the first refusal: rule, section and index.

mod jobs;
mod objects;
mod programs;
mod servers;
mod spaces;

pub use jobs::entries_in;
pub use objects::objects_in;
pub use programs::programs_in;
pub use servers::servers_in;
pub use spaces::{has_space, spaces_in};
