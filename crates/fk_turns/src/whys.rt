//! Why a user thread can't move, and what it waits for.
//!
//! It stands on `fk_store`, `fk_stages`, `fk_changes::readers` and `fk_links`, and on `laws_waits`, which says of each reason what it reads and which changes
//! leave it. It promises that there is a reason, and that it stays where a move takes no object from its place and changes neither the thread nor the
//! one object that the reason reads besides, where that is known: of threads that rest, that lie beneath a hold, or that are at a mutex, a condition
//! or a port. While nothing is held every other one has a reason that an instruction of another leaves, after which that one runs on; else any change
//! may end what keeps it. And it promises that the cause is the first that holds of the space of the outermost hold, the thread itself, the port of
//! its fault, and what its stage waits for.

mod causes;
mod hearing;
mod stages;
mod staying;
mod whys;

pub use causes::cause;
pub use hearing::heard_at;
pub(crate) use stages::first_stage;
pub use staying::reasons_stay;
pub use whys::{Why, asleep_at, at_locked, reason};
