//! What a checkpoint is about to end with, before that is made.
ghost use Rattle.std.specs.Prelude.{◌≡◌, IfOk};
ghost use Rattle.fk_checkpoint.specs.Checkpoint.Checkpoints.{end_of, ending_of};

use crate::assembly::assembled;
use crate::checkpoint::end::CheckpointEnd;
use crate::checkpoint::left::from_root;
use crate::gathering::{Content, Lead};
use crate::seeking::{Walk, met_at};
use fk_finish::{Place, ValidImage};
use fk_image::Image;
use fk_image::valid::is_valid;
use fk_model::NoMemory;
use std::alloc::Global;

/// What a checkpoint is about to end with. To make it takes memory.
#[derive(Drop)]
pub enum Ending {
    /// The subtree isn't closed: at the object before this place of those that a walk has met, by this field.
    Foreign {
        walk: Walk,
        at: usize,
        field: u8,
    },
    /// It is closed, and this was gathered of it.
    Done {
        contents: Vec<Content>,
        leads: Vec<Lead>,
    },
}

/// An image that was made, seen to be valid. Each that is made of a world is so; none other is handed out.
fn valid(alloc: Global, image: Image) -> Result<ValidImage, NoMemory>
    ensures { IfOk result (λ valid. valid ≡ image) }
{
    if is_valid(alloc, &image)? {
        ValidImage::new(alloc, image)
    } else {
        Err(NoMemory)
    }
}

/// Makes what a checkpoint ends with.
///
/// # Errors
///
/// There is no memory for it.
pub fn make(alloc: Global, slot: u8, ending: &Ending) -> Result<CheckpointEnd, NoMemory>
    ensures { IfOk result (λ end. end_of end ≡ ending_of slot ending.now) }
{
    match ending {
        Ending::Foreign { walk, at, field } => {
            let path = from_root(alloc, slot, met_at(walk.mets(), *at))?;
            Ok(CheckpointEnd::Foreign(Place {
                path,
                field: *field,
            }))
        }
        Ending::Done { contents, leads } => {
            let image = assembled(alloc, contents.as_slice(), leads.as_slice())?;
            Ok(CheckpointEnd::Done(valid(alloc, image)?))
        }
    }
}
