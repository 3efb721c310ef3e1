//! Instructions: the words that hold them, and what they ask for.
//!
//! It stands on `fk_model`, whose definitions say what a word holds and what an instruction does.
//! It promises that `decode` and `encode` are these definitions, each the way back of the other,
//! and that `act_of` answers exactly what an instruction asks for. None of it takes memory.
#![tactic(auto)]

mod acts;
mod words;

pub use acts::act_of;
pub use fk_model::{Act, Instr, operation};
pub use words::{decode, encode};
