//! What is seen of a run, who watches it, who plays it, and who has images for it.
ghost use Rattle.std.specs.Prelude.{Bool, map};
ghost use Rattle.fk_core.specs.Cores.Cores.{RunCore, run_core};
ghost use Rattle.fk_core.specs.Cores.Goings.{IsReachable};
ghost use Rattle.fk_core.specs.Cores.Served.{AllFit};
ghost use Rattle.fk_first.specs.First.{IsFirst};

use fk_core::Core;
use fk_finish::ValidImage;
use fk_jobs::{Jobs, Porter};
use fk_model::{Move, NoMemory, Stage, Who};
use fk_natives::Native;
use fk_responders::Table;
use fk_scenario::Scenario;
use fk_store::Store;
use std::collections::BTreeMap;

/// The job whose turn it is, as far as it asks for a call.
#[derive(Clone, Copy)]
pub struct Job {
    pub porter: Who,
    pub stage: Stage,
    /// After how many moves it begins.
    pub at: u64,
    /// Whether it has made a move.
    pub is_at_work: bool,
}

/// What is seen at a moment of a run.
#[derive(Clone, Copy)]
pub struct Seen<'a> {
    pub store: &'a Store,
    /// The native servers with their ports, in the order of the file.
    pub services: &'a [(Who, Native)],
    pub job: Option<&'a Job>,
    /// How many moves were made.
    pub events: u64,
}

/// The threads that have a ready move, each with the thread that it picks where it picks one.
pub type Ready = BTreeMap<Who, Option<Who>>;

/// Where a run stops.
#[derive(Clone, Copy)]
pub enum Stop {
    /// As many moves were made as was asked for.
    Enough,
    /// The trace has no further line.
    Ended,
    /// The trace's first line isn't that of a trace.
    NoTrace,
    /// The line of the move with this index is misspelled.
    Misspelled { index: u64 },
    /// The move with this index isn't ready.
    Unready { index: u64, one: Move },
    /// The budget is used, and the trace goes on with the move with this index.
    Budget { index: u64 },
}

/// A trace: the bytes of its file, how many of its moves are made at most, and whether the one behind these is looked at, which
/// isn't made.
#[derive(Clone, Copy)]
pub struct Trace<'a> {
    pub bytes: &'a [u8],
    pub most: u64,
    pub looks_ahead: bool,
}

/// Who watches a run.
pub trait Watcher {
    /// It sees what stands before a move, of which it isn't known yet whether it is ready.
    fn before(&mut self, seen: &Seen<'_>, one: &Move);

    /// It sees what stands after that move, which was made; and all jobs: what is planned of each, and how those have ended that have.
    fn after(&mut self, seen: &Seen<'_>, jobs: &Jobs<Porter>, one: &Move);

    /// It sees what stands where the run stops, all jobs, and who could go on.
    fn stops(&mut self, seen: &Seen<'_>, jobs: &Jobs<Porter>, ready: &Ready, stop: Stop);
}

/// Who plays from the core with which a scenario begins. What a call may make of it, from the player before to the player after, its member says: by the
/// core that was lent, and by the answer. Who lends knows no more of that, so a clause by it says that the call was made.
pub trait Player {
    ghost plays: { Self → RunCore → Bool → Self → Type 0 };

    /// It is lent such a core, of a scenario that was read by the rules of the table, and answers whether it wants another.
    fn play(&mut self, table: &Table, scenario: &Scenario, core: &mut Core<Native, Porter>) -> bool
        requires first { IsFirst scenario.now (run_core core.old) }
        requires come { IsReachable core.old }
        requires fits { AllFit (map (λ r. r.rule) table.now.list.items) core.old.services.list }
        ensures { plays self.old (run_core core.old) result self.new };
}

/// Who has the images of a run's jobs.
pub trait Images {
    /// Why an image can't be had.
    type Fault: From<NoMemory> + Drop;

    /// The image with this name. It is asked for those of restores that no job before them makes, in their order.
    ///
    /// # Errors
    ///
    /// It hasn't that image, or can't get it.
    fn image(&mut self, name: &str) -> Result<ValidImage, Self::Fault>;
}
