//! A run as a page: one HTML file with its own style and script, which needs nothing else.
//!
//! `Page` writes a run as its data: the lines of `Steps`, and behind each a line of each object that isn't as it was (`changes`). The page
//! (`template`) draws the spaces as boxes in boxes, a lane for each thread and native server with what it is at, arrows to the other side
//! of a talk, bars for holds and jobs, and goes through the moves by keys.
//!
//! The data are lines: the trace's name; the lines of `lens steps`; before the first move and behind each move, of each object that isn't as it
//! was, `=`, the birth number of its space, a dot and its slot, and after tabs its path and what it is at, or nothing more where it is gone; at
//! last why the run ends. The root is `=/`, and its line may stand there as it was.

mod changes;
mod moves;
mod template;

pub use moves::Page;
