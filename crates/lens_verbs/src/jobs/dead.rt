//! Why a job is dead, finds its slot taken, or has no image.
use crate::jobs::names::{ending_word, fate_of, push_space, site_of, slot_of};
use fk_jobs::{Jobs, PlannedJob, Porter, Source, Task};
use fk_store::Store;
use lens_text::{Sheet, push_held_there};

/// Adds what stands in a job's slot.
pub fn push_slot(sheet: &Sheet, store: &Store, plan: &PlannedJob) {
    sheet.fill(b"slot @ of ", slot_of(plan) as u64, 0, 0);
    push_space(sheet, store, plan.nester);
    sheet.put(b" is ");
    push_held_there(sheet, store, store.at(site_of(plan)));
}

/// Adds why a job is dead that has made moves of its own, or has made none.
pub fn push_dead(sheet: &Sheet, store: &Store, plan: &PlannedJob, has_moved: bool) {
    if store.is_live(plan.nester) & has_moved {
        push_slot(sheet, store, plan);
        sheet.put(b", where its first call wanted a space");
    } else {
        sheet.put(b"its nester was destroyed");
        if !has_moved {
            sheet.put(b" before its first call");
        }
    }
}

/// Adds why a restore has no image: how the job has ended that was to make it.
pub fn push_noimage(sheet: &Sheet, jobs: &Jobs<Porter>, plan: &PlannedJob) {
    match &plan.task {
        Task::Restore {
            source: Source::MadeBy(maker),
            ..
        } => {
            sheet.fill(
                b"job @, which was to make its image, ended ",
                *maker as u64,
                0,
                0,
            );
            sheet.add(ending_word(fate_of(jobs, *maker).ending));
        }
        _ => sheet.put(b"there is no image"),
    }
}
