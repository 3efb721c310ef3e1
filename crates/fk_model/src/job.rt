//! The jobs of a scenario.
use crate::{List, Text};

/// A job that a nester's porter does.
#[derive(Drop)]
pub enum JobSpec {
    /// Save the subtree in `slot` of the nester as `image`, from event `at` on.
    Checkpoint {
        at: u64,
        /// The nester's birth number.
        nester: u32,
        /// The nester's path, the outermost slot first.
        path: List<u8>,
        slot: u8,
        image: Text,
    },
    /// Make the subtree of `image` again in `slot` of the nester.
    Restore {
        at: u64,
        nester: u32,
        slot: u8,
        image: Text,
        /// Pairs of an outward slot of the image and the slot of the nester that stands for it.
        bind: List<(u8, u8)>,
    },
}
