//! Deaths: what goes with an object that is destroyed.
//!
//! It stands on `fk_store`, and on `fk_stages` for the calls that registers name. With a thread, and
//! with a port, talks end, and with a talk the call of an end that is at a Send, an Over or a Receive
//! of it. Destroying makes of the store's world all changes that the abstract machine makes of it,
//! and takes no memory. Before, one may ask whether the freezing rule allows it to a mover, and whom
//! it tells.

mod deaths;
mod ends;
mod frozen;
mod rounds;
mod swept;

pub use deaths::{destroy, told_port};
pub use ends::is_at_talk;
pub use frozen::{
    fault_leads_to_frozen, leads_to_frozen, peer_leads_to_frozen, talk_leads_to_frozen,
};
pub use swept::{is_swept, may_destroy};
