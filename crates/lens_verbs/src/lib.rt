//! The verbs of `lens`: from the words of its command line to what is shown.
//!
//! `lens_top` finds what the words ask for, and shows it: an image, a program's text, or a scenario's run, watched (`runs`). `Show` watches a
//! run and writes what is asked for of it: `steps` has a line a move, `why` says of each thread that isn't ready what it waits for, `sums` what went
//! wrong in the run, and `page` is the run as one HTML file; `jobs` says for these why jobs have failed. `hunt` runs a scenario by schedules that it
//! draws, `apart` compares two traces, and `records` shows a record beside the moves that made it. It changes no file.
//!
//! It stands on `fk_first` for a scenario's run by a trace, watched, and for cores, on `fk_commands` for scenarios and images; on `lens_text` for images, programs,
//! what stands in a store and the words, on `fk_store`, `fk_natives`, `fk_jobs` for what is seen, on `fk_isa` for what an instruction
//! does, on `fk_report` and `fk_trace_text` for runs by drawn schedules, their ends and their traces, and on `fk_causes` for the source and
//! the shelf. It promises no more than that each function ends, whatever bytes it is given.
#![tactic(auto)]

mod apart;
mod help;
mod hunt;
mod images;
mod jobs;
mod page;
mod records;
mod runs;
mod shows;
mod steps;
mod stops;
mod sums;
mod top;
mod why;

pub use top::lens_top;
