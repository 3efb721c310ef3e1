//! Which pointers lead to each object, by keys.
//!
//! It stands on `fk_model` for its lists. Each key has five nodes: a head, and one for each pointer that
//! an object may have. A pointer that leads to an object stands in the ring of that object's head. The
//! layer knows no bodies and no names: its clauses hold for every `owner`, the head to which each node
//! leads, and the caller says which. So nothing changes here where an object gets another name, and a
//! key that is used again finds its nodes alone. Only `room` takes memory, 40 bytes a key.

mod links;
mod walk;

pub use links::{Links, head_of, node_of};
pub use walk::Walk;
