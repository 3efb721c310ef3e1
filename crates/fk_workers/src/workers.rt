//! The workers that write a book.
//!
//! Any number of them up to eight share one under a lock: each takes a turn, makes some moves that are ready, and lets the next one in. Between
//! two turns it makes the instructions of a thread of which it has taken a lease; by its next turn these are moves, where nobody was in the way.
//!
//! It stands on `books` for the book and by way of it on `fk_burst` for leases, on `fk_rlock` for the lock and on `fk_causes` for the gate that they pass.
//! It promises that whatever turns they take, the book is one legal history from what it was begun from, which has ended where a worker or
//! all of them are done.

mod crew;
mod plan;
mod worker;

pub use crew::run_all;
pub use worker::work;
