//! What the entries of a scenario are made of: the fields of TOML tables, names and paths, and lists
//! whose entries are found by a key.
//!
//! It stands on `fk_model` for lists, names and numbers, and on `toml` for tables and their values. A
//! function here gives what a field holds, or the rule that is broken, exactly as `specs/Fields/` has it;
//! the section and the index of a refusal are added by whoever knows them (`Fail::at`).

mod entries;
mod fail;
mod fields;
mod paths;

pub use entries::{Entries, Keyed};
pub use fail::{Fail, ScenarioError, ScenarioFail, index_at, rule};
pub use fields::{
    array_in, bytes_of, flag_in, integer_in, integers_in, integers_of, known, needed_integer,
    needed_text, ranged, ranged_or, table_in, text_in, unless, words_of,
};
pub use paths::{Path, enclosing, is_name, optional_path, parse_path};
