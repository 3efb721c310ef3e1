//! Which user threads are ready, in order, and which are queued at what they wait for.
//!
//! It stands on `slab` and `fk_model`. Callers see lists: the threads that are ready, and those that are queued, each with its cause, in the
//! order in which they came. It promises what each call makes of these lists, exactly, and that only making room takes memory.
//!
//! - `queues`: threads in queues, each in one, and all of them in order;
//! - `causes`: the queues by what is waited for;
//! - `waits`: who is ready, and who waits for what;
//! - `turns`: who is woken by what changes.
#![tactic(auto)]

pub mod causes;
pub mod queues;
pub mod turns;
pub mod waits;

pub use waits::Waits;
