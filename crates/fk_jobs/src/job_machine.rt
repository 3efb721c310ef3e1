//! What a job's code has to promise.
ghost use Rattle.std.specs.Prelude.{◌≡◌, true, Some, IfSome, IfNone, OnOk, OnErr, is_some, take};
ghost use Rattle.fk_model.specs.declared.moves.Ask.TheVariants as asks;
ghost use Rattle.laws_checkpoint.specs.Checkpoint.State.{Holds};
ghost use Rattle.laws_house.specs.Houses.{State, machine};
ghost use Rattle.laws_house.specs.Houses.State.{Checking, Restoring};
ghost use Rattle.laws_restore.specs.Restore.Restore.State.{Makes};
ghost use Rattle.laws_restore.specs.Rooms.Restoring.{IsRestoreJob};
ghost use Rattle.laws_jobs.specs.Machines.{no_words, IsAtCall};
ghost use Rattle.laws_jobs.specs.Machines.Head.{Stops};
ghost use Rattle.fk_jobs.specs.Ended.{finish_of};
ghost use Rattle.fk_jobs.specs.Jobs.{call_at, call_with, grows};
ghost use Rattle.fk_jobs.specs.Fitting.{CheckpointCallsFitAnywhere, JobsPickNobody, FitAnywhereIsFit};
ghost use Rattle.fk_jobs.specs.Turns.{JobMovesSo, JobEndsSo};

use crate::ended::Finish;
use fk_finish::ValidImage;
use fk_model::{Answer, List, NoMemory, Stage};
use std::alloc::Global;

/// A job's machine in code.
pub trait JobMachine {
    ghost state: { Self → State };

    ghost has_room: { Self → Type 0 };

    /// A checkpoint that is about to begin, of the subtree in a slot of its nester.
    fn checkpoint(alloc: Global, slot: u8) -> Self
        ensures { state result ≡ Checking slot Holds };

    /// A restore that is about to begin, of an image in a slot of its nester, with its outward slots bound by pairs.
    fn restore(slot: u8, image: ValidImage, pairs: List<(u8, u8)>) -> Self
        requires { IsRestoreJob slot image pairs }
        ensures { state result ≡ Restoring slot pairs image Makes };

    /// Its next call, whose words it writes over zeros. It has none exactly where it has ended.
    fn next(&self, words: &mut [u64; 64]) -> Option<Stage>
        requires { words.old ≡ no_words }
        ensures { call_with result words.new ≡ call_at (machine.head (state self.now)) };

    /// Its next call, where it surely goes with no words: then no room for words is needed.
    fn bare(&self) -> Option<Stage>
        ensures { IfSome result (λ stage. call_at (machine.head (state self.now)) ≡ Some (asks.Call stage no_words)) };

    /// Whether it has a call to make.
    fn is_at_call(&self) -> bool
        ensures { result ≡ is_some (call_at (machine.head (state self.now))) };

    /// Makes room for one answer, and changes nothing else.
    fn reserve(&mut self) -> Result<(), NoMemory>
        ensures same { state self.new ≡ state self.old }
        ensures room { OnOk result (has_room self.new) }
        ensures grows { OnErr result (grows (state self.old) ≡ true) };

    /// Takes the answer to its next call. That uses up its room.
    fn absorb(&mut self, answer: &Answer)
        requires { has_room self.old }
        ensures { state self.new ≡ machine.next (state self.old) answer.now.status (take answer.now.len answer.now.words) };

    /// How it has ended; nothing while it has a call to make.
    fn finish(self) -> Option<Finish>
        ensures some { IfSome result (λ finish. machine.head (state self) ≡ Stops (finish_of finish)) }
        ensures none { IfNone result (IsAtCall machine (state self)) };
}

/// Each call of a checkpoint is fit wherever it is made.
pub fn checkpoint_calls_fit_anywhere()
    ensures { CheckpointCallsFitAnywhere }
{}

/// A stage that is fit anywhere is fit in each world.
pub fn fit_anywhere_is_fit()
    ensures { FitAnywhereIsFit }
{}

/// No call of a job picks anybody.
pub fn jobs_pick_nobody()
    ensures { JobsPickNobody }
{}

/// A job's move in a run is what its jobs hear of it.
pub fn jobs_move_so<V>()
    ensures { JobMovesSo V }
{}

/// An end of a job without a move is in a run what its jobs hear of it.
pub fn jobs_end_so<V>()
    ensures { JobEndsSo V }
{}
