//! Closures that a program hands to its native servers: responders, by which they reply, and observers, which say what is noted of them.
//!
//! It stands on `fk_model` for rules, replies and the definition of an answer. Beside each closure stands the fact that it gives what it is to
//! give: a responder the answer of its rule to every request of at most 64 words, an observer whether its watch sees a note (`specs/Notes.antt`).
//! A table tells the names and the rules of its responders in their order, and has one observer for each watch. `echo`, `feed` and `sum`
//! give the answers of the three rules, `reply_by` that of any and `watches` that of a watch, for the closures that a program makes.
#![tactic(auto)]

mod note;
mod observer;
mod responder;
mod rules;
mod table;
mod words;

pub use note::{Note, Watch};
pub use observer::{Observer, Sight, watches};
pub use responder::{Call, Responder};
pub use rules::{echo, feed, reply_by, rule_name, sum};
pub use table::Table;
pub use words::{append, first_words, reply_of, take_off, words_of};
