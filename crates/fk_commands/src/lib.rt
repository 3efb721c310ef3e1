//! The commands: what each comes to before anything of it is written.
//!
//! A command prepares a run (`prepared`): the status and the report of its outcome, and what is to be
//! written; or it answers the status of a refusal. `exec` assembles a text and lets `fk_lone` run it;
//! `check` and `show` prepare the counts of a scenario and of an image. `play` stands in `fk_plays`. Who only looks at a scenario or an image
//! is lent it (`lend`), and owns neither.
//!
//! It stands on `fk_asm` for programs, on `fk_lone` for the machine of `exec`, on `fk_scenario`, on
//! `fk_codec` and `fk_codec::show` for images, on `fk_report` for how a run ends, on `fk_history` for its moves, and on `fk_causes` for
//! the shelf.
//!
//! It promises of each command the outcome and the output that its definition calls for (`specs/Exec.antt`,
//! `Check.antt`, `Show.antt`), unless a get or the memory failed; that it answers a fault only where one
//! happened in this call; that `fault_line` says of a status what `specs/Status.antt` has; and that who looks is called once, with
//! what was read or with why nothing was (`specs/Lent.antt`).
#![tactic(auto)]

pub mod check;
pub mod exec;
mod exec_text;
mod image;
mod lend;
mod outcome;
mod prepared;
mod scenario;
mod shelf_file;
pub mod show;
mod status;

pub use image::image_of;
pub use lend::{ImageReader, ScenarioReader, lend_image, lend_scenario};
pub use outcome::{Outcome, Report};
pub use prepared::Prepared;
pub use scenario::scenario_in;
pub use shelf_file::file_of;
pub use status::{Status, fault_line};
