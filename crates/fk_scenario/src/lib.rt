//! The reader of scenarios: from the bytes of a TOML document to what a machine begins with.
//!
//! It stands on `toml` for documents, on `fk_asm` for programs and on `fk_model`. It promises the scenario that a document says, or its first
//! refusal by rule, section and index, in rounds: each entry by itself, each among those before it, each among all others.
//!
//! - `fields`: the fields of tables, names and paths, and lists by keys;
//! - `entries`: programs, objects, servers and jobs, each by itself;
//! - `sections`: each section's entries, after those before them;
//! - `scenario`: the whole document.
#![tactic(auto)]

pub mod entries;
pub mod fields;
pub mod scenario;
pub mod sections;

pub use fields::{ScenarioError, ScenarioFail};
pub use scenario::{Scenario, makes_image, read_scenario};
