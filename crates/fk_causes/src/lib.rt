//! The outside of a call: where its bytes come from and where they go.
//!
//! A `Source` and a `Sink` count their faults, and a call of theirs fails only where the count rose.
//! So whoever hands one in can tell a fault of the outside from a call that gives up. Where they
//! tell their bytes, contracts say which bytes were read and written. `read_all` and `write_all`
//! are the loops over them. A `Shelf` has named files, and counts failed gets and failed puts apart.
//!
//! `MemSource`, `MemSink` and `MemShelf` lie in memory, tell everything, and fail at the calls that they
//! are told. `StdSource` and `StdSink` stand over a reader and a writer of std, and tell what those do;
//! `FolderShelf` is the current folder, and tells nothing of it.
//!
//! A `Gate` is called before each turn of those that share a run; nothing is said of it. `Open` is the one
//! that does nothing.
//!
//! It stands on `fk_model` for want of memory alone.
#![tactic(auto)]

mod folder_shelf;
mod gate;
mod mem_shelf;
mod mem_sink;
mod mem_source;
mod shelf;
mod streams;
mod traits;
mod whole;

pub use fk_model::NoMemory;
pub use folder_shelf::{FILE_LIMIT, FolderShelf};
pub use gate::{Gate, Open};
pub use mem_shelf::MemShelf;
pub use mem_sink::MemSink;
pub use mem_source::MemSource;
pub use shelf::{Shelf, ShelfFail};
pub use streams::{StdSink, StdSource};
pub use traits::{Failed, Sink, Source};
pub use whole::{LIMIT, ReadError, read_all, write_all};
