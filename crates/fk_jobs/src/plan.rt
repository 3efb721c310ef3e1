//! What is planned of a job.
use fk_finish::ValidImage;
use fk_model::List;

/// Where the image of a restore comes from.
#[derive(Drop)]
pub enum Source {
    /// It was given, or there is none.
    Given(Option<ValidImage>),
    /// The job with this place in the file makes it.
    MadeBy(usize),
}

/// What a job does.
#[derive(Drop)]
pub enum Task {
    /// It saves the subtree in a slot.
    Checkpoint {
        slot: u8,
    },
    /// It makes an image again in a slot. Pairs bind outward slots of the image to slots of the nester.
    Restore {
        slot: u8,
        pairs: List<(u8, u8)>,
        source: Source,
    },
}

/// A job: by the porter of the space with this birth number, from so many moves on.
#[derive(Drop)]
pub struct PlannedJob {
    pub nester: u32,
    pub at: u64,
    pub task: Task,
}
