//! The reader of scenarios: from the bytes of a TOML document to what a machine begins with.
//!
//! It stands on `sections` for a first round, section by section, in which each entry meets those before
//! it. Here each meets all others in a second round. `specs/Scenario/Reading.antt` has
//! what a document says: a scenario, or the first refusal by rule, section and index. `read_scenario` gives
//! exactly that, and every scenario that it gives keeps what a machine rests on that begins with it
//! (`specs/Scenario/Kept.antt`). Its time is linear in the bytes but for sorts and look-ups in ordered maps.

mod aims;
mod jobs;
mod reading;
mod scenario;
mod servers;

pub use jobs::makes_image;
pub use reading::read_scenario;
pub use scenario::Scenario;
