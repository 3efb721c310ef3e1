//! Where the fields of a body lead, and as what: by a pointer, by a talk that is served there, or by a fault
//! that has been taken there.
//!
//! It stands on `fk_model`. `fields` says how many fields of a body may lead somewhere, and `led` where each of
//! them leads.

mod lead;

pub use lead::{Lead, Sort, fields, led, led_by_fault};
