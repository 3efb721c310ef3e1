//! Jobs, nesters and how jobs have ended, by words.
use fk_checkpoint::CheckpointEnd;
use fk_finish::Place;
use fk_jobs::{Ended, Finish, Jobs, PlannedJob, Porter, Task, Unmoved};
use fk_model::Who;
use fk_restore::RestoreEnd;
use fk_store::Store;
use lens_text::{Sheet, push_path};

/// Adds the path of the space with a birth number, if it is still there.
pub fn push_space(sheet: &Sheet, store: &Store, birth: u32) {
    match store.home(birth) {
        Some(who) => push_path(sheet, store, who),
        None if birth == 0 => sheet.put(b"/"),
        None => sheet.fill(b"the space @, which is gone", birth as u64, 0, 0),
    }
}

/// The slot of the nester in which a job saves or makes a subtree.
pub fn slot_of(plan: &PlannedJob) -> u8 {
    match plan.task {
        Task::Checkpoint { slot } => slot,
        Task::Restore { slot, .. } => slot,
    }
}

/// Where that slot is.
pub fn site_of(plan: &PlannedJob) -> Who {
    Who {
        space: plan.nester,
        slot: slot_of(plan),
    }
}

/// Adds which job has a number.
pub fn push_job(sheet: &Sheet, store: &Store, number: usize, plan: &PlannedJob) {
    sheet.fill(b"job @, ", number as u64, 0, 0);
    match plan.task {
        Task::Checkpoint { .. } => sheet.put(b"checkpoint of slot "),
        Task::Restore { .. } => sheet.put(b"restore in slot "),
    }
    sheet.add_number(slot_of(plan) as u64);
    sheet.put(b" of ");
    push_space(sheet, store, plan.nester);
}

/// How a job has ended, if it has.
#[derive(Clone, Copy)]
pub enum Ending<'a> {
    Waiting,
    Done,
    Foreign(&'a Place),
    Dead,
    Occupied,
    NoPort(u8),
    NoImage,
}

/// What has become of a job: how it has ended, and its first and its last move, where it has made any and has ended.
#[derive(Clone, Copy)]
pub struct Fate<'a> {
    pub ending: Ending<'a>,
    pub moves: Option<(u64, u64)>,
}

/// How a job has ended by its own moves.
fn ending_of(finish: &Finish) -> Ending<'_> {
    match finish {
        Finish::Checkpoint(CheckpointEnd::Done(_)) | Finish::Restore(RestoreEnd::Done) =>
            Ending::Done,
        Finish::Checkpoint(CheckpointEnd::Foreign(place)) => Ending::Foreign(place),
        Finish::Checkpoint(CheckpointEnd::Gone) => Ending::Dead,
        Finish::Restore(RestoreEnd::Occupied) => Ending::Occupied,
        Finish::Restore(RestoreEnd::NoPort(port)) => Ending::NoPort(*port),
    }
}

/// What has become of the job with this number. Who only asks this needs to know nothing of how jobs work.
pub fn fate_of<'a>(jobs: &'a Jobs<Porter>, number: usize) -> Fate<'a> {
    match jobs.ends().get(number) {
        Some(
            Ended::Worked {
                finish,
                begun,
                last,
            },
        ) => Fate {
            ending: ending_of(finish),
            moves: Some((*begun, *last)),
        },
        Some(Ended::Idle(Unmoved::NoImage)) => Fate {
            ending: Ending::NoImage,
            moves: None,
        },
        Some(Ended::Idle(Unmoved::Dead)) => Fate {
            ending: Ending::Dead,
            moves: None,
        },
        None => Fate {
            ending: Ending::Waiting,
            moves: None,
        },
    }
}

/// How a job has ended, by the report's word.
pub fn ending_word(ending: Ending<'_>) -> &'static str {
    match ending {
        Ending::Waiting => "waiting",
        Ending::Done => "done",
        Ending::Foreign(_) => "foreign",
        Ending::Dead => "dead",
        Ending::Occupied => "occupied",
        Ending::NoPort(_) => "noport",
        Ending::NoImage => "noimage",
    }
}
