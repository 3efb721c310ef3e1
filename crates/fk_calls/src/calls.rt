//! Calls: which move of a user, a porter or a native server is ready, and making it.
//!
//! It stands on the crates of rows, each of which judges stages, on `fk_user`, which judges
//! instructions, on `fk_plans`, which says when a verdict is ready and carries it out, on `acts` for
//! native servers and by way of it on `fk_plans::endings` for whose client is lost, and on `fk_plans::wakes` for which objects
//! a move touches. Here is the one match from a stage to its judge. It promises that `ready` answers exactly whether the
//! abstract machine is ready to make a move, that `take` makes of the store's world what the machine
//! makes of it, that `attempt` does both, judging once, and tells which native server lost its client,
//! that `run` makes an instruction, or raises its fault, and tells whether the thread runs on, `enter` makes one by which a call is entered, `go` a stage
//! that has an arm of its own, and what the thread is at then,
//! `signal` one that wakes whom the caller has found, `stage` any other that tells nothing,
//! that `speak` does so of what a client tells a native server, whose words stay in their page, and `call` of a porter's answer,
//! that each of them tells which objects the move touched, that `foretell` tells what a move would tell native servers,
//! that `is_fit` tells which moves may be made at all, that `may_move` tells cheaply of whom no move is ready, and that
//! `may_pick` tells whom a user may pick.

mod answering;
mod arms;
mod codes;
mod doing;
mod entering;
mod fitting;
mod foretelling;
mod going;
mod judging;
mod moves;
mod picking;
mod rows;
mod signalling;
mod silent;
mod speaking;
mod straight;
mod taking;

pub use answering::call;
pub use codes::is_on_objects;
pub use doing::first_stage;
pub use entering::enter;
pub use fitting::is_fit;
pub use foretelling::foretell;
pub use going::{Talked, Then, Went, What, go, may_lock, may_talk};
pub use judging::{is_user, may_move};
pub use moves::{Ran, Told, attempt, ready, run, take};
pub use picking::{Picks, may_pick};
pub use signalling::{signal, signal_of};
pub use silent::stage;
pub use speaking::{Spoken, speak};
pub use taking::take_up;
