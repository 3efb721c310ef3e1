//! Runs of a scenario by schedules that are drawn at random, and in what kinds of ends they come.
//!
//! A `Lottery` draws the next move, uniformly among those that may be ready or by priorities that change at random moments (`lottery`). `run_by`
//! makes the moves of one schedule from a scenario's first core on (`runs`), `push_ending` tells in a line how that run has ended (`ends`), and
//! a `Hunter` counts the kinds that come (`many`). A schedule is known by its number alone: from the same number the same moves are drawn, so
//! nothing of a run is kept but its line.

mod drawing;
mod ends;
mod kinds;
mod lottery;
mod many;
mod random;
mod runs;

pub use many::Hunter;
