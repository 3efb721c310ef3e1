//! The kernel: a store whose threads move.
//!
//! It stands on `fk_store`, on `fk_turns::steps` for what a move comes to, whom it picks and where its user threads stand then, and on `laws_moves::machine`
//! for the world that stays valid. Its contracts see a kernel by the world of its store and by its lists: a move names threads by birth numbers and
//! slots, and `event_of` finds their paths in that world.
//!
//! It promises that `ready` answers exactly whether the abstract machine is ready to make a move, of a user, a porter or a native server, that `step` makes of
//! the world what the machine makes of it and tells what the machine tells, that `attempt` does both at once, and tells the port whose native server lost its
//! client by it, that `call` does so of a porter's call, that `proceed` makes an instruction, or a stage that tells nothing, where that is a user's next move,
//! or tells that none is ready, and `speak` a send or an over to a native server, that `replace` gives a thread and pages other words at once, that `run_on` makes
//! instructions of a thread one after the other and `enter` enters the call behind them, that `is_fit` tells which moves may be made at all, that each user's
//! thread stands once in `waits` and none that is queued can move, that `next` names the first of the ready that can move, `next_besides` and `any_besides` one
//! that is ready of any user but one, `next_after` one that comes after an object, and `ready_accept` whom a native server may accept. Words that are told have
//! only zeros behind them.
#![tactic(auto)]

mod kernel;
mod replace;
mod stretches;

pub use fk_turns::steps::{Gone, Spoken, Told};
pub use kernel::Kernel;
pub use replace::BurstPage;
