//! A migration between two kernels: a sender over the near one, a receiver over the far one, and the pair of both.
//!
//! It stands on `fk_sides` for both sides by answers and packets alone, on `fk_host` for a kernel with its servers, and on `laws_migrate` for
//! what a migration comes to over every list of events. A sender and a receiver know nothing of each other but packets, so they may lie in two
//! processes.
//!
//! It promises that each turn is its host's, in which the root's porter makes the calls for which its side asks; that a side is that of the laws at each
//! answer and each packet; that a pair is the run of its events, with the fate that the laws give it; and that for want of memory all is as before.
//!
//! - `hearing`: whose move it is, and the answer that it tells;
//! - `sender`, `receiver`: each side over its kernel;
//! - `places`, `fates`: at which moves the calls were made on which the fate hangs;
//! - `pair`: both, event by event;
//! - `driver`: by lists of events.
#![tactic(auto)]

mod driver;
mod fates;
mod hearing;
mod pair;
mod places;
mod receiver;
mod sender;

pub use driver::{Budget, drive, take_ready};
pub use fates::Fate;
pub use pair::Pair;
pub use receiver::Receiver;
pub use sender::Sender;
