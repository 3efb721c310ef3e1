//! Verdicts: what a stage of a call comes to, when that is ready, and making it.
//!
//! It stands on `fk_store`, `fk_changes::threads`, `fk_changes::deaths` and `fk_changes::readers`. A crate of rows judges a stage and nothing else: its
//! verdict stands for the outcome of the stage's row. Here it is proved once for all rows when a
//! verdict is ready, by the picks and the freezing rule, and that carrying it out makes of the
//! store's world what the abstract machine makes of it, or leaves all as it was for want of memory.

mod blocks;
mod carrying;
mod destroying;
mod foretelling;
mod instructions;
mod making;
mod moving;
mod opening;
mod own;
mod plan;
mod readiness;
mod recording;
mod renaming;
mod sources;
mod telling;
mod ties;
mod waking;

pub use blocks::Block;
pub use carrying::{carry_all, carry_out};
pub use foretelling::foretell;
pub use instructions::{make_effect, run};
pub use moving::move_words;
pub use opening::unfrozen;
pub use own::own_page;
pub use plan::{Deed, Effect, Moving, News, Plan, Verdict, Words};
pub use readiness::{is_effect_ready, is_moving_ready, is_ready};
pub use recording::{Record, record_at, set_record};
pub use sources::Source;
pub use waking::sleeps;
