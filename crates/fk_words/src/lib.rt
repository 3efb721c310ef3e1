//! The words of the command line.
//!
//! It stands on `fk_model` for names and numbers alone. It promises that `command_of` answers the command that the words are, exactly where they
//! are one (`specs/Commands.antt`), and `shared_command` the same of those that workers share.
#![tactic(auto)]

mod command;

pub use command::{Command, command_of, shared_command};
