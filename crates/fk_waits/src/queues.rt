//! Threads in queues: each in one, and all of them in the order in which they came to where they stand.
//!
//! It stands on `slab` and `fk_model`. Below is `lists`: nodes in a slab, linked both ways behind a head, in their order; `IsListed` says which numbers stand
//! behind a head. A node that joins stands last in its list, one that leaves leaves the others in their order, and a list of other nodes stays. A queue is
//! its head, a node with a name. A caller sees the places of the threads as one
//! list in order, of which `AreFiled` says that it is this one. It promises that a thread that comes, or turns to another queue, stands last, that
//! the others keep their order, also where one goes or a thread or a queue has another name, and that who is first in a queue is told. What nodes
//! there are and for how many there is room is exact, so who stands above can promise that a queue and a place are there when they are wanted.

mod lists;
mod queues;

pub use queues::Queues;
