//! What a stage of a call comes to, and how that is carried out.
//!
//! It stands on `fk_changes` and `fk_store`. A judge says of a stage what it comes to: a verdict, which stands for the outcome of the
//! machine's row. Here it is proved once for all rows when a verdict is ready, and that carrying it out makes of the store's world what the
//! machine makes of it, or leaves all as it was for want of memory.
//!
//! - `plans`: verdicts, when they are ready, and making them;
//! - `wakes`: which objects a verdict changes, so that who waits for others needn't be looked at;
//! - `answers`: a porter's answer, laid into the caller's room;
//! - `endings`: which native server loses its client.
#![tactic(auto)]

pub mod answers;
pub mod endings;
pub mod plans;
pub mod wakes;

pub use plans::{
    Block, Deed, Effect, Moving, News, Plan, Record, Source, Verdict, Words, carry_all, carry_out,
    foretell, is_effect_ready, is_moving_ready, is_ready, make_effect, move_words, own_page,
    record_at, run, set_record, sleeps, unfrozen,
};
