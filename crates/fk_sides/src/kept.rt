//! Why the original is kept.
ghost use Rattle.std.specs.Prelude.{◌≡◌, option_map};
ghost use Rattle.fk_checkpoint.specs.Checkpoint.Checkpoints.{end_of};
ghost use Rattle.fk_checkpoint.specs.Checkpoint.Phases.{state_of};
ghost use Rattle.fk_image.specs.declared.image.image.Image.{Image as images};
ghost use Rattle.fk_sides.specs.Kept.{reason_of, why_kept};
ghost use Rattle.fk_sides.specs.Nears.{since_of};
ghost use Rattle.fk_sides.specs.Sides.{near_at, why_of};
ghost use Rattle.laws_handover.specs.NearSide.Saved.{Fails};
ghost use Rattle.laws_migrate.specs.Migration.{checked_end};

use crate::near::Since;
use fk_checkpoint::{Checkpoint, CheckpointEnd};
use fk_finish::Place;
use fk_packets::Why;

/// Why the original is kept, lent by the side that knows it.
#[derive(Clone, Copy)]
pub enum Reason<'a> {
    /// There is no space in the slot.
    Dead,
    /// The subtree isn't closed, first here.
    Foreign(&'a Place),
    /// The slot is taken at the far side.
    Occupied,
    /// There is no port in this slot of the far root.
    NoPort(u8),
    /// The near side has given up.
    GaveUp,
}

/// A reason as packets have it.
fn lent(why: &Why) -> Reason<'_>
    ensures { reason_of result ≡ why_of why.now }
{
    match why {
        Why::Dead => Reason::Dead,
        Why::Foreign(place) => Reason::Foreign(place),
        Why::Occupied => Reason::Occupied,
        Why::NoPort(port) => Reason::NoPort(*port),
        Why::GaveUp => Reason::GaveUp,
    }
}

/// The reason of a checkpoint that has ended so. None ends with an image, since its release is the last call for which it is asked.
fn failed_so(end: &CheckpointEnd) -> Reason<'_>
    ensures { checked_end (end_of end.now) ≡ Fails (reason_of result) }
{
    match end {
        CheckpointEnd::Done(_) => Reason::GaveUp,
        CheckpointEnd::Foreign(place) => Reason::Foreign(place),
        CheckpointEnd::Gone => Reason::Dead,
    }
}

/// Why a checkpoint has ended, if it has.
pub fn failed(checkpoint: &Checkpoint) -> Option<Reason<'_>>
    ensures { option_map reason_of result ≡ why_kept (near_at (state_of checkpoint.now)) }
{
    if checkpoint.next().is_some() {
        return None;
    }
    match checkpoint.end() {
        Some(end) => Some(failed_so(end)),
        None => None,
    }
}

/// Why the original is kept, since its image was gathered, once it is released.
pub fn kept_since(since: &Since) -> Option<Reason<'_>>
    ensures { (i : images) → option_map reason_of result ≡ why_kept (since_of i since.now) }
{
    match since {
        Since::Cancelled(why) => Some(lent(why)),
        Since::Waits => None,
        Since::Clears { .. } => None,
        Since::Cleared => None,
        Since::Cancels(_) => None,
    }
}
