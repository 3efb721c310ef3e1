//! A porter at its job.
ghost use Rattle.std.specs.Prelude.{◌≡◌, Some, OnOk, IfSome, IfNone, is_some, take};
ghost use Rattle.laws_checkpoint.specs.Checkpoint.State.{Holds};
ghost use Rattle.laws_house.specs.Houses.{State, machine};
ghost use Rattle.laws_house.specs.Houses.State.{Checking, Restoring};
ghost use Rattle.laws_jobs.specs.Machines.{no_words, IsAtCall};
ghost use Rattle.laws_jobs.specs.Machines.Head.{Stops};
ghost use Rattle.laws_restore.specs.Restore.Restore.State.{Makes};
ghost use Rattle.laws_restore.specs.Rooms.Restoring.{IsRestoreJob};
ghost use Rattle.fk_jobs.specs.Ended.{finish_of};
ghost use Rattle.fk_jobs.specs.Jobs.{call_at, call_with};
ghost use Rattle.fk_jobs.specs.Porters.{state_of, has_room};

use crate::ended::Finish;
use crate::job_machine::JobMachine;
use fk_checkpoint::Checkpoint;
use fk_finish::ValidImage;
use fk_model::{Answer, List, NoMemory, Stage};
use fk_restore::Restore;
use std::alloc::Global;

/// What a porter is at.
#[derive(Drop)]
pub enum Porter {
    /// It saves a subtree.
    Checkpoint(Checkpoint),
    /// It makes one again.
    Restore(Restore),
}

impl JobMachine for Porter {
    ghost state = { state_of };

    ghost has_room = { has_room };

    fn checkpoint(alloc: Global, slot: u8) -> Porter {
        Porter::Checkpoint(Checkpoint::new(alloc, slot))
    }

    fn restore(slot: u8, image: ValidImage, pairs: List<(u8, u8)>) -> Porter {
        Porter::Restore(Restore::new(slot, image, pairs))
    }

    fn next(&self, words: &mut [u64; 64]) -> Option<Stage> {
        match self {
            Porter::Checkpoint(checkpoint) => checkpoint.next(),
            Porter::Restore(restore) => restore.next(words),
        }
    }

    fn bare(&self) -> Option<Stage> {
        match self {
            Porter::Checkpoint(checkpoint) => checkpoint.next(),
            Porter::Restore(_) => None,
        }
    }

    fn is_at_call(&self) -> bool {
        match self {
            Porter::Checkpoint(checkpoint) => checkpoint.end().is_none(),
            Porter::Restore(restore) => restore.end().is_none(),
        }
    }

    fn reserve(&mut self) -> Result<(), NoMemory> {
        match self {
            Porter::Checkpoint(checkpoint) => checkpoint.reserve(),
            Porter::Restore(_) => Ok(()),
        }
    }

    fn absorb(&mut self, answer: &Answer) {
        match self {
            Porter::Checkpoint(checkpoint) => checkpoint.absorb(answer),
            Porter::Restore(restore) => restore.absorb(answer),
        }
    }

    fn finish(self) -> Option<Finish> {
        match self {
            Porter::Checkpoint(checkpoint) => Some(Finish::Checkpoint(checkpoint.finish()?)),
            Porter::Restore(restore) => Some(Finish::Restore(restore.finish()?)),
        }
    }
}
