//! Who moves before others: the thread that moved last, and which servers.
//!
//! It stands on `moment` for what is ready at a moment of a run. It promises that what it chooses is ready, and that the budget has one more. Where it
//! chooses nobody, the thread comes next that is first of the ready. The look goes round, so that nobody who is ready waits for ever behind others; nothing
//! is proved of that.

mod rounds;

pub use rounds::{ROUND, Rounds};
