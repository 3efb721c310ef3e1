//! Runs that are recorded at their native servers, and played again from the record.
//!
//! It stands on `fk_first` for the core with which such a run begins, on `fk_trace` for taps and replays, on `fk_record_text` and `fk_recorded` for the
//! text of a record, on `laws_trace` and `laws_pair` for runs with other servers, and on `run_reports` for the report.
//!
//! It promises that a run that is recorded comes to what the run comes to by itself with its own servers, with the record of the notes that the
//! observer sees of it; that a trace is played with a replay of the record's replies in the place of each server that is no console, or the first line
//! of the record that is bad is told; and that a run that was recorded comes to the same by its trace and its record, where the observer sees the
//! replies (`specs/Recordings/Recording.antt`, `Replaying.antt`, `Again.antt`).

mod laws;
mod ports;
mod recording;
mod replaying;
mod texts;

pub use laws::{a_record_plays_again, replays_play_again};
pub use recording::record_first;
pub use replaying::replay_first;
