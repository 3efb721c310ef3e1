//! A thread alone with its memory, and no kernel that its calls could enter: the machine of `exec`.
//!
//! It stands on `fk_store` for the memory, and on `fk_user` for what a word asks for. The thread and
//! its pages stand in a store. While the thread runs it is kept beside the store, so that nothing is
//! looked up but pages, and it is put back at the end.
//!
//! It promises that `Machine` makes exactly the instructions that `specs/Machine.antt` defines, and
//! that these are the abstract machine's, where no registers name a call.
#![tactic(auto)]

mod laws;
mod lone;
mod machine;

pub use laws::a_lone_move_is_an_instruction;
pub use machine::{Machine, WORDS};
