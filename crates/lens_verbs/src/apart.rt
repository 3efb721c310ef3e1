//! Where two traces of a scenario come apart.
//!
//! `Taker` watches both and keeps what each of their moves does, as `steps` has it; `first_apart` finds the first move of a mover in which these
//! differ, and `push_apart` tells it, with what came before it in one of them alone. Moves that only come in another order don't differ.

mod compared;
mod taken;
mod told;

pub use taken::Taker;
pub use told::push_apart;
