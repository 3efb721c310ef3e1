//! Calls and registers: the stages that the registers of a calling thread name, and the registers
//! that stages are written into.
//!
//! It stands on `fk_model`, whose definitions say which stages each code names, and promises that
//! `todo` and `words` are these.
#![tactic(auto)]

mod code;
mod naming;
mod registers;

pub use code::code_of_stage;
pub use naming::todo;
pub use registers::words;
