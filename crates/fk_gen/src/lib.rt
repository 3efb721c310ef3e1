//! The scenario of `soak`: many processes beside one another, the first of which is saved while it runs and made again.
//!
//! It stands on `fk_model` for want of memory alone, and promises that `scenario_of` writes the text of
//! `specs/Soak.antt`.
#![tactic(auto)]

mod scenario;

pub use scenario::scenario_of;
