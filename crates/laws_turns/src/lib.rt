//! Turns: a burst of a thread, made at once, is so many turns of a run. Each law is the contract of a function that does nothing.
//!
//! After each turn the jobs end that are due and can't begin. Where a thread makes several moves that no server hears, it is enough that
//! they end behind the last: whoever is due in the middle is so at the end, since nobody waits for others while the thread can move.
//!
//! It stands on `laws_bursts` and on `laws_runs`, whose runs it is about. It names no store.
#![tactic(auto)]

ghost use Rattle.laws_turns.specs.Quiet.{BurstsAreQuiet, BurstsRun, RunningMovesAreQuiet};
ghost use Rattle.laws_turns.specs.Turns.{UnheardMovesAreTurns};

/// Each instruction of a burst is a move of its thread that no server hears and by which no space comes or goes.
pub fn bursts_are_quiet<J, S, A, V>()
    ensures { BurstsAreQuiet J S A V }
{}

/// Each instruction of a burst is a ready move of its thread, which runs.
pub fn bursts_run()
    ensures { BurstsRun }
{}

/// Each ready move of a thread that runs is one that no server hears and by which no space comes or goes.
pub fn running_moves_are_quiet<J, S, A, V>()
    ensures { RunningMovesAreQuiet J S A V }
{}

/// So many quiet moves of a thread, and then the ends of jobs that need no move, are so many turns of a run.
pub fn quiet_moves_are_turns<J, S, A, V>()
    ensures { UnheardMovesAreTurns J S A V }
{}
