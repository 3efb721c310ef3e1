//! The store: every object and every page, by the birth numbers of spaces.
//!
//! It stands on `freezing`, which keeps objects and pages by name, and on `fk_model`. Contracts see
//! a store by two words: `world`, the abstract machine's world that the store stands for, and
//! `path`, the path of the space with a birth number. Each call that changes the store is one change
//! of the abstract machine, says by these words which, and takes memory only where its result has
//! NoMemory; so nobody above translates between names and paths.

mod edits;
mod faults;
mod memory;
mod mutexes;
mod pointers;
mod ports;
mod reach;
mod store;
mod talks;
mod threads;

pub use reach::Reach;
pub use store::Store;
