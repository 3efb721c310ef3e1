//! Talks begin and end: what the stages come to that connect to a port, wait for clients and faults,
//! and leave a talk, and by which a porter makes a talk again.
//!
//! It stands on `fk_plans`, and on `fk_changes::deaths` for the calls that end with a talk, and promises of
//! each stage that its verdict stands for the outcome of the stage's row in the abstract machine, and
//! can be carried out. A wait looks at the thread that is picked alone. `connects_by` and `is_member`
//! tell where such threads are to be found; `connecting_to` and `is_parked` serve native servers too.
#![tactic(auto)]

mod candidates;
mod connecting;
mod leaving;
mod restoring;
mod waiting;

pub use candidates::{connecting_to, connects_by, is_member, is_parked};
pub use connecting::connect;
pub use leaving::disconnect;
pub use restoring::{link_park, link_set};
pub use waiting::wait;
