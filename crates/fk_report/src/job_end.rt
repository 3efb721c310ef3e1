//! How a job ends.
use fk_finish::{Place, ValidImage};

/// How a job has ended. The numbers are places in the history, of its first move and its last.
#[derive(Drop)]
pub enum JobEnd {
    /// A checkpoint is done: the subtree was this from the hold to the release.
    Checkpointed {
        hold: u64,
        release: u64,
        image: ValidImage,
    },
    /// The subtree that was to be saved wasn't closed, first here.
    Foreign {
        place: Place,
        hold: u64,
        release: u64,
    },
    /// The nester was gone, or there was no space to be saved.
    Dead,
    /// A restore is done.
    Restored {
        make: u64,
        release: u64,
    },
    /// The checkpoint that was to make the image didn't.
    NoImage,
    /// The slot was taken.
    Occupied,
    /// There was no port in this slot of the nester.
    NoPort {
        port: u8,
        make: u64,
        release: u64,
    },
}
