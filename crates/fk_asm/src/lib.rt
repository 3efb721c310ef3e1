//! The assembler: from a text to its words.
//!
//! It stands on `fk_model` for numbers, names and instructions, and on `fk_isa` for the words of these.
//! The lines of a text are read in order, each after those before it; then labels become addresses.
//! `assemble` gives exactly the words that `specs/Assembler.antt` has for the text, or the first line
//! that it refuses there and why. Its time is linear in the text, but for the look-up of labels.
#![tactic(auto)]

mod assembler;
mod fail;
mod lines;
mod operands;
mod operations;
mod program;
mod reason;

pub use assembler::assemble;
pub use fail::{AsmError, AsmFail};
