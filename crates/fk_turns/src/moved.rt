//! Who stands where among a store's user threads, from one move to the next.
//!
//! It stands on `fk_waits::turns`, on `fk_plans::wakes` for what a move touches, on `whys` for why a thread can't move, and on `fk_store`. It promises that each user's
//! thread stands once and that who is queued has a reason for which no move of it is ready, of a store's first lists, and of those after a move where they held
//! before, whatever the move was; that who is settled is queued at what it waits for; and, on `laws_moves::users` and `laws_waits`, that what is told of a move is
//! enough for the lists.

mod filling;
mod laws;
mod moving;
mod settling;
mod users;

pub use filling::of;
pub use laws::{told_moves_leave, told_names, told_quiet};
pub use moving::moved;
pub use settling::{settle, settle_at, settle_loud, settle_still};
pub use users::is_user;
