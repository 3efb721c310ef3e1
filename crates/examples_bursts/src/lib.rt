//! Bursts of small programs, worked by hand from the rules and computed by the prover: how far each comes, and what it has used.
//!
//! It stands on `laws_bursts`, whose definitions it tries.
#![tactic(auto)]

ghost use Rattle.std.specs.Prelude.{◌≡◌, Some, slice_index, true, false};
ghost use Rattle.laws_bursts.specs.Bursts as bursts;
ghost use Rattle.examples_bursts.specs.Programs.{before_call, before_gap, before_halt, countdown, words_moved, word_of_page};

/// 64 instructions of a countdown from 49999: the first sets it, then 32 times it falls by one, and 31 times the loop goes round.
pub fn a_countdown_runs_on()
    ensures counts { bursts.count 64 countdown ≡ 64 }
    ensures register { slice_index (bursts.run 64 countdown).registers 1 ≡ 49967 }
    ensures counter { (bursts.run 64 countdown).counter ≡ 2 }
    ensures used { (bursts.run 64 countdown).used 0 ≡ true }
    ensures unused { (bursts.run 64 countdown).used 1 ≡ false }
{}

/// A burst ends before a call, before a halt, and before a word of a page that it doesn't have. What it has used is what it has executed,
/// loaded and stored.
pub fn bursts_end()
    ensures call { bursts.count 64 before_call ≡ 1 }
    ensures at_call { (bursts.run 64 before_call).counter ≡ 1 }
    ensures halt { bursts.count 64 before_halt ≡ 0 }
    ensures gap { bursts.count 64 before_gap ≡ 1 }
    ensures at_gap { (bursts.run 64 before_gap).counter ≡ 64 }
{}

/// A word is loaded from one page and stored into another.
pub fn words_are_moved()
    ensures counts { bursts.count 64 words_moved ≡ 2 }
    ensures stored { word_of_page (bursts.run 64 words_moved) 2 5 ≡ Some 70 }
    ensures loaded { word_of_page (bursts.run 64 words_moved) 1 6 ≡ Some 70 }
    ensures used { (bursts.run 64 words_moved).used 2 ≡ true }
    ensures unused { (bursts.run 64 words_moved).used 3 ≡ false }
{}
