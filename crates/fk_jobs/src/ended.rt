//! How jobs have ended.
ghost use Rattle.std.specs.Prelude.{◌≡◌, Some, option_map};
ghost use Rattle.laws_house.specs.Houses.{image_made, image_of_end};
ghost use Rattle.fk_jobs.specs.Ended.{finish_of, shown_end};

use fk_checkpoint::CheckpointEnd;
use fk_finish::ValidImage;
use fk_restore::RestoreEnd;

/// How a job has ended by its own moves: as its machine has.
#[derive(Drop)]
pub enum Finish {
    Checkpoint(CheckpointEnd),
    Restore(RestoreEnd),
}

/// Why a job ends without a move.
#[derive(Clone, Copy)]
pub enum Unmoved {
    /// It has no image.
    NoImage,
    /// Its nester is gone.
    Dead,
}

/// How a job has ended.
#[derive(Drop)]
pub enum Ended {
    /// By its own moves, the first and the last of which stand at these places of the history.
    Worked {
        finish: Finish,
        begun: u64,
        last: u64,
    },
    /// Without a move.
    Idle(Unmoved),
}

impl Finish {
    /// The image that the job has made.
    fn image(&self) -> Option<&ValidImage>
        ensures { option_map (λ image. image.now) result ≡ image_of_end (finish_of self.now) }
    {
        match self {
            Finish::Checkpoint(end) => end.image(),
            Finish::Restore(_) => None,
        }
    }
}

impl Ended {
    /// The image that the job has made.
    pub fn image(&self) -> Option<&ValidImage>
        ensures { option_map (λ image. image.now) result ≡ image_made (Some (shown_end self.now)) }
    {
        match self {
            Ended::Worked { finish, .. } => finish.image(),
            Ended::Idle(_) => None,
        }
    }
}
