//! What the first world of a scenario gives to the runs that begin in it. Each law is the contract of a function that does
//! nothing.
//!
//! It stands on `fk_boot`, whose `booted` is that world, and on `laws_house` for what runs are.
#![tactic(auto)]

ghost use Rattle.laws_first.specs.First.{FirstWorldIsGround, ScenariosBeginSoundly};
ghost use Rattle.laws_first.specs.Entries.{EntriesAreSaved, EntriesAreMade, EntriesArePlain, EntriesGoOn};
ghost use Rattle.laws_first.specs.Programs.{ProgramsAreGrounded, ProgramsRunTransparently};
ghost use Rattle.laws_first.specs.Users.{ServersAskAsUsers, ScenarioJobsNameUsersSlots, ScenarioJobsSaveUsersAlone};
ghost use Rattle.laws_first.specs.Grounded.{ScenariosAreGrounded, ScenariosRunTransparently};

/// No scratch stands in it, it has given out at most 256 birth numbers, its pointers lead somewhere in it or nowhere, nothing is under way,
/// porters stand where the scenario has nesters and served ports where it has servers, and nowhere else.
pub fn the_first_world_is_ground()
    ensures { FirstWorldIsGround }
{}

/// With its servers, nesters and jobs it is a sound start.
pub fn scenarios_begin_soundly()
    ensures { ScenariosBeginSoundly }
{}

/// A run from a scenario's first world is as the laws of checkpoints and restores suppose, where its servers ask for what users may, its jobs name
/// users' slots, and no porter and no served port lies in what they save.
pub fn scenarios_are_grounded<V>()
    ensures { ScenariosAreGrounded V }
{}

/// All laws of checkpoints and restores hold of a run from a scenario's first world.
pub fn scenarios_run_transparently<V>()
    ensures { ScenariosRunTransparently V }
{}

/// The program's native servers ask for what users may.
pub fn servers_ask_as_users()
    ensures { ServersAskAsUsers }
{}

/// The jobs of a scenario name users' slots.
pub fn scenario_jobs_name_users_slots()
    ensures { ScenarioJobsNameUsersSlots }
{}

/// In what they save lies no porter and no served port of its first world.
pub fn scenario_jobs_save_users_alone()
    ensures { ScenarioJobsSaveUsersAlone }
{}

/// Each run of the program from the first world of a scenario that was read is as the laws over runs suppose.
pub fn programs_are_grounded()
    ensures { ProgramsAreGrounded }
{}

/// All those laws hold of each run of the program, whatever images are given for its jobs.
pub fn programs_run_transparently()
    ensures { ProgramsRunTransparently }
{}

/// Entry by entry: what a checkpoint that is done has saved.
pub fn entries_are_saved<V>()
    ensures { EntriesAreSaved V }
{}

/// It was plain at its hold, so that from there on too the history's moves that it sees are a further run of it.
pub fn entries_are_plain<V>()
    ensures { EntriesArePlain V }
{}

/// What a restore that is done has made, and whence it had its image.
pub fn entries_are_made<V>()
    ensures { EntriesAreMade V }
{}

/// If an earlier job had made the image of a restore that is done, what stands there has exactly the further runs of what was saved.
pub fn entries_go_on<V>()
    ensures { EntriesGoOn V }
{}
