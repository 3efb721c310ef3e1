//! Two runs: what one has saved and another has made again. Each law is the contract of a function that does nothing.
//!
//! It stands on `laws_house` for what each run says of its jobs, on `fk_image` for the bytes that go from one to the other, on
//! `laws_pictures` and `laws_subtrees` for why a rebound cut has the same further runs, and on `laws_isolation` for why they tell the same.
#![tactic(auto)]

ghost use Rattle.laws_two_runs.specs.TwoRuns.{CopiesGoOn, CopiesTellTheSame, SavedSubtreesGoOnInAnotherRun};

/// What one run of any jobs has saved as an image, and another run of any jobs has made of that image, has there exactly the further runs
/// that it had at its hold, with its ports bound.
pub fn copies_go_on<J, S, A, V, K, T, B, U>()
    ensures { CopiesGoOn J S A V K T B U }
{}

/// If in each run the subtree sees the same moves from there on, it tells the same in both, and comes to the same cut, with its ports
/// bound in the second.
pub fn copies_tell_the_same<V, U>()
    ensures { CopiesTellTheSame V U }
{}

/// A checkpoint of one run is done and has left a file; a restore of another run is given what a file with these bytes spells, and is done:
/// what it has made has exactly the further runs of what the checkpoint saved, with its ports bound.
pub fn saved_subtrees_go_on_in_another_run<V, U>()
    ensures { SavedSubtreesGoOnInAnotherRun V U }
{}
