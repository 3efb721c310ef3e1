//! A restore with nothing bound, in a state in which its machine may be.
ghost use Rattle.std.specs.Prelude.{◌≡◌, ◌≤◌, [], take, IfNone, IfSome};
ghost use Rattle.fk_model.specs.declared.limits.TheConstants.{LAST_USER_SLOT};
ghost use Rattle.fk_restore.specs.Restore.Restores.{end_of, is_built};
ghost use Rattle.fk_sides.specs.Sides.{asks_for, call_with};
ghost use Rattle.laws_jobs.specs.Machines.{no_words, IsAtCall};
ghost use Rattle.laws_jobs.specs.Machines.Head.{Stops};
ghost use Rattle.laws_restore.specs.Restore.Restore.State.{Makes};
ghost use Rattle.laws_restore.specs.Restore.Restore as machine;
ghost use Rattle.laws_restore.specs.Restore.Restore.{objects};
ghost use Rattle.laws_restore.specs.Rooms.Rooms.{rooms_of};
ghost use Rattle.laws_restore.specs.Rooms.Restoring.{restore_of};

use crate::counting::count_objects;
use fk_finish::ValidImage;
use fk_model::{Answer, List, Stage};
use fk_restore::{Restore, RestoreEnd};
use std::alloc::Global;
use std::marker::Model;

/// A restore of a valid image, with nothing bound. Contracts see the restore alone.
#[derive(Drop)]
pub struct Restoring {
    restore: Restore,
    /// What stands beneath the copy's root, all made.
    objects: u128,
}

impl Model for Restoring {
    ghost use Rattle.std.specs.Prelude.{◌≡◌, []};
    ghost use Rattle.fk_restore.specs.Restore.Restores as restores;
    ghost use Rattle.laws_restore.specs.Restore.Restore as machine;
    ghost use Rattle.laws_restore.specs.Rooms.Rooms.{rooms_of};

    ghost Value = { restores.Restoring };

    ghost view = { λ s. s.restore };

    ghost invariant = { λ s. (s.restore.pairs ≡ []) × (s.objects ≡ machine.objects (rooms_of s.restore.image)) };
}

impl Restoring {
    /// A restore that is about to begin.
    pub fn new(alloc: Global, slot: u8, image: ValidImage) -> Restoring
        requires { slot ≤ LAST_USER_SLOT }
        ensures slot { result.slot ≡ slot }
        ensures image { result.image ≡ image }
        ensures state { result.state ≡ Makes }
    {
        let objects = count_objects(&image);
        let _valid = image.get();
        Restoring {
            restore: Restore::new(slot, image, List::new(alloc)),
            objects,
        }
    }

    /// What stands beneath the root of its copy, all made.
    pub fn objects(&self) -> u128
        ensures { result ≡ objects (rooms_of self.now.image) }
    {
        self.objects
    }

    /// Its next call, whose words it writes over zeros. It has none exactly where it has ended.
    pub fn next(&self, words: &mut [u64; 64]) -> Option<Stage>
        requires { words.old ≡ no_words }
        ensures { call_with result words.new ≡ asks_for (machine.head self.now.slot self.now.state) }
    {
        self.restore.next(words)
    }

    /// Takes the answer to its next call.
    pub fn absorb(&mut self, answer: &Answer)
        ensures slot { self.new.slot ≡ self.old.slot }
        ensures image { self.new.image ≡ self.old.image }
        ensures state { self.new.state
            ≡ (restore_of self.old.slot self.old.image []).next self.old.state answer.now.status (take answer.now.len answer.now.words) }
    {
        self.restore.absorb(answer);
    }

    /// Whether only the release is left of a restore that will be done.
    pub fn built(&self) -> bool
        ensures { result ≡ is_built self.now.state }
    {
        self.restore.built()
    }

    /// How it has ended. Nothing while it has a call to make.
    pub fn end(&self) -> Option<&RestoreEnd>
        ensures some { IfSome result (λ end. machine.head self.now.slot self.now.state ≡ Stops (end_of end.now)) }
        ensures none { IfNone result (IsAtCall (restore_of self.now.slot self.now.image []) self.now.state) }
    {
        self.restore.end()
    }
}
