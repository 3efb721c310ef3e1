//! Worked examples of what a document says: a scenario whose left out keys have their defaults, one that isn't said, and a document
//! that says none.
//!
//! It stands on `laws_scenario_faults`, whose relation these are examples of, and on `fk_scenario`, `fk_model` and `toml`; nothing stands
//! on it. Each example is a function that does nothing and ensures what is so.
#![tactic(auto)]

ghost use Rattle.examples_scenarios.specs.Worked.{SaysDefaults, SaysNoOther, SaysNone};

/// A document has one space, in which a thread and a reference to it are. It says the scenario in which all keys that are
/// left out have their defaults, and no other, as one whose thread is stopped. With a key that there isn't it says none.
pub fn a_document_says_its_scenario()
    ensures says { SaysDefaults }
    ensures no_other { SaysNoOther }
    ensures none { SaysNone }
{}
