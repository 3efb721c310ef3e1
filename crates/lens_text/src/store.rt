//! What stands in a store, in words: objects, threads and the tree of spaces.
//!
//! `push_tree` shows all of a store, each space before what lies in it. `push_object` and `push_thread` show one object, and `push_path` its
//! path from the root. `push_refused` says which rule refuses an address.

mod addresses;
mod kinds;
mod names;
mod objects;
mod threads;
mod tree;

pub use addresses::push_refused;
pub use kinds::{kind_word, push_held_there};
pub use names::{
    handled, led_from, next_in_tree, object_named, path_from, place_named, push_between,
    push_named, push_path, push_pointer,
};
pub use objects::{push_home, push_object, push_pages};
pub use threads::{next_stage, push_at, push_thread, word_at};
pub use tree::push_tree;
