//! What `lens` shows but for runs: programs, images and what stands in a store, as text; and what its verbs have in common: what the words of
//! the command line ask for (`asked`), why something isn't shown, the files of the shelf, a text that is written piece by piece (`Sheet`), and
//! instructions, calls and statuses in words.
//!
//! An image is shown one thing a line (`images`), a program so that what is written assembles to the same words (`words`), and a store as the
//! tree of its spaces (`store`). A scenario with names is written without them (`plain`), and a record beside the moves that made it (`records`).
//!
//! It stands on `fk_causes` for the shelf, on `fk_isa` for the instruction in a word, on `fk_stages` for porters' calls, on `fk_asm` for
//! programs, on `toml` and `toml_parser` for a scenario's text, on `fk_image` for images, on `fk_store` for what stands there, and on `fk_record_text` and
//! `fk_responders` for records and their notes. It promises no more
//! than that each function ends, whatever bytes it is given.
#![tactic(auto)]

mod asked;
mod calls;
mod faults;
mod files;
mod hunted;
mod images;
mod instructions;
mod plain;
mod problem;
mod programs;
mod records;
mod refusal;
mod sheet;
mod shown;
mod statuses;
mod store;
mod words;

pub use asked::{Asked, Verb, asked_in};
pub use calls::{first_stage, push_asked, push_call};
pub use faults::given;
pub use files::{file_of, source_text};
pub use images::{path_in, push_differences, push_image};
pub use instructions::push_instruction;
pub use plain::push_plain;
pub use problem::Problem;
pub use programs::{Programs, Scene, programs_of, push_place};
pub use records::{Noted, push_record};
pub use refusal::refused_scenario;
pub use sheet::{Sheet, line_at, parted};
pub use shown::Shown;
pub use statuses::{HALTS, STATUSES};
pub use store::{
    handled, kind_word, led_from, next_in_tree, next_stage, object_named, place_named, push_at,
    push_between, push_held_there, push_home, push_named, push_object, push_path, push_refused,
    push_thread, push_tree, word_at,
};
pub use words::push_words;
