//! The base of the kernel: plain types, and the definitions that every contract above cites.
//!
//! It stands on nothing but the standard library. `src/` holds the types that code passes round,
//! `specs/` the definitions of the abstract machine, in the order in which `specs/Lib.antt` names
//! them.
#![tactic(auto)]

mod body;
pub mod call;
mod file_name;
mod instruction;
mod job;
pub mod kind;
pub mod limits;
mod list;
mod moves;
mod names;
mod no_memory;
mod number;
mod stage;
mod statuses;
mod text;
mod thread;

pub use body::Body;
pub use file_name::is_name;
pub use instruction::{Act, Instr, operation};
pub use job::JobSpec;
pub use list::List;
pub use moves::{Answer, Ask, Move, Reply, Rule, Said};
pub use names::{Kind, Ptr, Who};
pub use no_memory::NoMemory;
pub use number::{number_up_to, plain_number_up_to};
pub use stage::{Stage, Todo};
pub use statuses::{halt, status};
pub use text::Text;
pub use thread::{Fault, Mode, Peer, Talk, Thread, Turn};
