//! Worked examples: a world in which a checkpoint may begin, the briefest job, and jobs that aren't what a run wants. Each
//! example is the contract of a function that does nothing.
#![tactic(auto)]

ghost use Rattle.std.specs.Prelude.{ℕ, []};
ghost use Rattle.fk_model.specs.Runs.{after};
ghost use Rattle.fk_model.specs.Sound.{IsUncut};
ghost use Rattle.laws_moves.specs.Savable.Savable.{IsSound};
ghost use Rattle.laws_subtrees.specs.Further.ClosedLaws.{IsUsersAlone};
ghost use Rattle.laws_jobs.specs.Machines.{IsReadyAt};
ghost use Rattle.laws_jobs.specs.Jobs.{MayBegin, MeetsContract, Saves, Restores};
ghost use Rattle.laws_jobs.specs.Holds.{hold};
ghost use Rattle.examples_jobs.specs.Brief.{BriefMeetsContract, full};
ghost use Rattle.examples_jobs.specs.Endless.{asks_again, CallsAtMost};
ghost use Rattle.examples_jobs.specs.Pins.{leaves_pin, empty_space};
ghost use Rattle.examples_jobs.specs.Pins.State.{Makes};
ghost use Rattle.examples_jobs.specs.Scripts.{LooksRise};
ghost use Rattle.examples_jobs.specs.Turns.{NotYetEnded, EndedInTime, OneMove};
ghost use Rattle.examples_jobs.specs.Wrong.{destroys_its_porter, makes_a_mutex, leaves_scratch, holds_at_once, says_nothing};
ghost use Rattle.examples_jobs.specs.Wrong.State.{First};

/// A job that holds a subtree and releases it is what a run wants of a job.
pub fn the_briefest_job_meets_the_contract()
    ensures { BriefMeetsContract }
{}

/// A world in which a job may begin and a checkpoint of the subtree in slot 1 too, ready to hold it; and
/// what comes of the hold is sound again.
pub fn a_world_in_which_a_checkpoint_may_begin()
    ensures may { MayBegin full [] 0 }
    ensures uncut { IsUncut full }
    ensures users { IsUsersAlone full [] 1 }
    ensures ready { IsReadyAt full (hold [] 1) }
    ensures held { IsSound (after full (hold [] 1)) }
{}

/// A job that destroys its own porter, makes anything but references in its scratch, or leaves scratch,
/// doesn't meet a job's contract.
pub fn jobs_that_break_the_contract()
    ensures porter { MeetsContract destroys_its_porter 0 First → ⊥ }
    ensures mutex { MeetsContract makes_a_mutex 0 First → ⊥ }
    ensures scratch { MeetsContract leaves_scratch 0 First → ⊥ }
{}

/// A job that says it has saved what it only held doesn't save.
pub fn a_job_that_does_not_save()
    ensures { Saves holds_at_once 0 1 says_nothing full [] First → ⊥ }
{}

/// A restore that leaves its pin in the space that it has made doesn't restore.
pub fn a_restore_that_leaves_its_pin()
    ensures { Restores leaves_pin 0 2 (λ slot. slot) empty_space (λ done. done) full [] Makes → ⊥ }
{}

/// A job that never ends makes more calls than any number.
pub fn a_job_that_never_ends()
    ensures { (most : ℕ) → CallsAtMost asks_again [] full 0 most → ⊥ }
{}

/// A job that has no image ends from its time on and not before, while a move of another is ready.
pub fn a_job_ends_in_its_time()
    ensures early { NotYetEnded }
    ensures late { EndedInTime }
{}

/// The first move of a history leads from its first world to the world after one move.
pub fn a_history_of_one_move()
    ensures { OneMove }
{}

/// A restore looks for ports by rising slots of its image, not in the order of the objects that lead there.
pub fn a_script_looks_by_rising_slots()
    ensures { LooksRise }
{}
