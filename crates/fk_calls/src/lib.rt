//! Calls: which move of a user, a porter or a native server is ready, and making it.
//!
//! It stands on the crates of rows, each of which judges stages, on `fk_user`, which judges instructions, and on `fk_plans`, which says when a
//! verdict is ready and carries it out. It promises that a move is called ready exactly where the abstract machine is ready to make it, that
//! making it makes of the store's world what the machine makes of it, and which objects it touched and which native server lost its client.
//!
//! - `acts`: what native servers do: accept a client or take up its talk, give it words, hand it the turn;
//! - `calls`: the one match from a stage to its judge, and moves of users and porters.
#![tactic(auto)]

pub mod acts;
pub mod calls;

pub use calls::{
    Picks, Ran, Spoken, Talked, Then, Told, Went, What, attempt, call, enter, first_stage,
    foretell, go, is_fit, is_on_objects, is_user, may_lock, may_move, may_pick, may_talk, ready,
    run, signal, signal_of, speak, stage, take, take_up,
};
