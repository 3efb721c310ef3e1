//! The top call: the words of the command line, the bytes of a source and the files of a shelf in, a
//! text and an outcome out.
//!
//! `top` finds the command in the words (`fk_words`), reads the source where the command reads it (`source_text`), lets `fk_commands`,
//! `fk_plays` or, for `page`, `page_command` prepare its outcome and its output, has what a run leaves put on the shelf (`fk_puts`), and alone writes and answers.
//!
//! It stands on these for all that a command does, and on `fk_causes` for the source, the sink and the shelf.
//!
//! It promises the theorem (`specs/Theorem.antt`): that `fluke_top` ends with the outcome, and writes the bytes, that the words call for
//! (`specs/Top.antt`); that it answers a fault exactly where one happened in this call; and what its report says of the subtrees that were
//! saved and restored. `fluke_alone` does so for all words that workers don't share, and always returns.
//!
//! `two_calls` has what follows for two calls: a subtree that the one has saved on the shelf goes on in the other (`specs/TwoCalls.antt`). For that it
//! stands on `laws_two_runs`.
#![tactic(auto)]

mod made;
mod page_command;
mod source_text;
mod top;
mod two_calls;

pub use fk_commands::{Outcome, Report, Status, fault_line};
pub use fk_report::{End, JobEnd};
pub use top::{fluke_alone, fluke_top};
pub use two_calls::{calls_go_on, reports_are_of_runs, saved_subtrees_go_on_in_another_call};
