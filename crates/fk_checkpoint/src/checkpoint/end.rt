//! How a checkpoint ends.
ghost use Rattle.std.specs.Prelude.{◌≡◌, option_map};
ghost use Rattle.fk_checkpoint.specs.Checkpoint.Checkpoints.{end_of, image_of};

use fk_finish::{Place, ValidImage};

/// How a checkpoint ends.
#[derive(Drop)]
pub enum CheckpointEnd {
    /// It is done, with this image.
    Done(ValidImage),
    /// The subtree isn't closed, first here.
    Foreign(Place),
    /// There is no space in the slot.
    Gone,
}

impl CheckpointEnd {
    /// The image with which it ends, where it is done.
    pub fn image(&self) -> Option<&ValidImage>
        ensures { option_map (λ image. image.now) result ≡ image_of (end_of self.now) }
    {
        match self {
            CheckpointEnd::Done(image) => Some(image),
            _ => None,
        }
    }
}
