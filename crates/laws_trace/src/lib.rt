//! Other servers in the same run. Each law is the contract of a function that does nothing.
//!
//! It stands on `laws_runs` for what a run is, and on `fk_served` for the native servers of a run and what each hears of a move.
//!
//! What servers are told of in a run depends on its worlds and its moves alone (`specs/Following.antt`). So where other servers ask for the same, the
//! same moves are a run with these, by the same worlds, and the same moves are ready behind it. From this it promises (`specs/Notes.antt`): taps
//! change nothing; a tap holds the notes that the run makes at its port, without those that its observer doesn't see; and with a replay of the noted
//! replies in the place of each server that is no console, the same moves are a run, by the same worlds, with the same words printed.
#![tactic(auto)]

ghost use Rattle.laws_trace.specs.Following.{ServersHear, SeenServersRun, ServersRunSeen};
ghost use Rattle.laws_trace.specs.Notes.{ServersComeTo, TapsChangeNothing, TapsNote, ReplaysRun, RepliesAreSeen};

/// The servers of a run are told of each of its moves, and of nothing else.
pub fn servers_hear<J, S, A, V>()
    ensures { ServersHear J S A V }
{}

/// Where servers are seen as others, a run with these is one with the others, by the same worlds, and the same moves are ready behind it.
pub fn seen_servers_run<J, S, A, V, U>()
    ensures { SeenServersRun J S A V U }
{}

/// Where servers are seen as others, a run with the others is one with these.
pub fn servers_run_seen<J, S, A, V, U>()
    ensures { ServersRunSeen J S A V U }
{}

/// Each native server of a run comes to what the news at its port make of it.
pub fn servers_come_to_that<J, S, A, V>()
    ensures { ServersComeTo J S A V }
{}

/// With servers that are the same but for taps, the same moves are a run, by the same worlds, with the same words printed.
pub fn taps_change_nothing<J, S, A, V>()
    ensures { TapsChangeNothing J S A V }
{}

/// A tap holds the notes that a run makes at its port, without those that its observer doesn't see.
pub fn taps_note<J, S, A, V>()
    ensures { TapsNote J S A V }
{}

/// With replays of the noted replies in place of the servers, the same moves are a run, by the same worlds, with the same words printed.
pub fn replays_run<J, S, A, V>()
    ensures { ReplaysRun J S A V }
{}

/// An observer of all notes, or of the replies, sees every reply.
pub fn replies_are_seen()
    ensures { RepliesAreSeen }
{}
