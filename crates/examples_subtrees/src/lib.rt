//! Worked examples of subtrees that are seen alone: small worlds, what is seen of them, and how they go on.
//!
//! It stands on `examples_moves`, whose worlds and moves it is about, and on `fk_model`; nothing stands on it.
//! Each example is a function that does nothing and ensures what is so. The values are reckoned by
//! hand from the rules; the prover computes the moves and compares.
#![tactic(auto)]

pub mod cuts;
pub mod further;
pub mod rebind;
pub mod seen;
