//! Acts of native servers: they accept a client or take up its talk, give it words, and hand it the turn.
//!
//! It stands on `fk_links` and `fk_transfer` for what a client is at, on `fk_changes::threads` and `fk_store` for what
//! becomes of it, and on `fk_plans::endings` for which servers keep their clients. It promises that `ready` answers
//! exactly whether the abstract machine is ready for such an act, and that `attempt` makes of the store's
//! world what the machine makes of it, and tells what the machine tells, without memory, and `foretell` what it would tell; `give` and `pass` make the
//! commonest acts without room for what they tell. An act is small and
//! its own: a verdict speaks of a caller with registers, which a server isn't.

mod act;
mod allowing;
mod direct;
mod judging;
mod making;
pub(crate) mod moves;

pub use direct::{Gave, give, pass};
pub use moves::{attempt, foretell, ready};
