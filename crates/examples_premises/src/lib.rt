//! Worked examples of what the laws suppose: a world that meets each premise, and worlds that just don't.
//!
//! It stands on `examples_moves` for its worlds, on `laws_moves::frozen`, `laws_moves::whole` and `laws_subtrees::further` for the premises of
//! their laws, and on `fk_model`; nothing stands on it.
//! Each example is a function that does nothing and ensures what is so. The worlds are written by
//! hand; the prover tests each object that they list.
#![tactic(auto)]

pub mod premises;
pub mod starts;
