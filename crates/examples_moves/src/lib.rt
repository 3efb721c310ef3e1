//! Worked examples of the machine: small worlds, and what moves make of them.
//!
//! It stands on `fk_model` alone; `examples_subtrees` has those of subtrees that are seen alone.
//! Each example is a function that does nothing and ensures what is so. The values are reckoned by
//! hand from the rules; the prover computes the moves and compares.
#![tactic(auto)]

pub mod calls;
pub mod holds;
pub mod instructions;
pub mod locks;
pub mod memory;
pub mod objects;
pub mod porters;
pub mod servers;
pub mod states;
pub mod talks;
