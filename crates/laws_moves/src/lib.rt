//! The laws of single moves, each the contract of a function that does nothing.
//!
//! It stands on `fk_model` alone, whose definitions the laws are about: worlds, rows of calls, moves, records and holds.
//!
//! - `rows`: whatever moves, its changes are one of few lists, by constructors that carry what was read on the way; the other laws go by them;
//! - `machine`: calls and records are read back as they were written, a move changes only what it lists, and a fit move keeps a world valid;
//! - `whole`: what a run supplies from its first world alone: registers, birth numbers, spaces younger than what they lie in;
//! - `frozen`: what stays of a subtree while another decides over it, and what users can touch at all;
//! - `users`: who is a user's thread after a move, and where a name leads;
//! - `savable`: what checkpointers need stays so by every proper move;
//! - `prompt`: what a thread is shown of an object, what a hold needs, and that every move does little.
#![tactic(auto)]

pub mod frozen;
pub mod machine;
pub mod prompt;
pub mod rows;
pub mod savable;
pub mod users;
pub mod whole;
