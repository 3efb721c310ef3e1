//! How a run has ended, in a line.
use crate::hunt::drawing::Run;
use crate::jobs::{Ending, ending_word, fate_of};
use fk_jobs::{Jobs, Porter, Task};
use fk_model::Mode;
use fk_natives::{Native, Service};
use fk_report::{End, end_word};
use fk_store::Store;
use lens_text::{Sheet, next_in_tree, push_between};

/// Adds the user threads that haven't halted as they should, in the order of their paths; where the budget ended the run, faults alone.
fn push_threads(sheet: &Sheet, store: &Store, is_cut: bool) {
    let mut next = store.after(None);
    for _ in 0..u64::MAX {
        let Some(who) = next else {
            break;
        };
        if let Some(thread) = store.thread(who) {
            let is_told = match thread.mode {
                Mode::Halted(code) => code > 0,
                Mode::Native => false,
                _ => !is_cut,
            };
            if is_told {
                push_between(sheet, store, b"; thread ", who, b"");
                match thread.mode {
                    Mode::Halted(code) => sheet.fill(b" halted @", u64::from(code), 0, 0),
                    Mode::Calling => sheet.put(b" calling"),
                    _ => sheet.put(b" running"),
                }
            }
        }
        next = next_in_tree(store, who);
    }
}

/// Adds what a console was sent.
fn push_out(sheet: &Sheet, service: &Native) {
    if let Some(alias) = service.alias() {
        sheet.put(b"; out ");
        sheet.add(alias);
        for word in service.printed() {
            sheet.fill(b" @", *word, 0, 0);
        }
    }
}

/// Adds what has become of the job with a number.
fn push_fate(sheet: &Sheet, jobs: &Jobs<Porter>, number: usize) {
    let ending = fate_of(jobs, number).ending;
    sheet.put_around(b" ", ending_word(ending), b"");
    match ending {
        Ending::Foreign(place) => {
            sheet.put(b" ");
            for slot in place.path.as_slice() {
                sheet.fill(b"/@", u64::from(*slot), 0, 0);
            }
            sheet.fill(b" @", u64::from(place.field), 0, 0);
        }
        Ending::NoPort(port) => sheet.fill(b" @", u64::from(port), 0, 0),
        _ => {}
    }
}

/// Adds what has become of jobs.
fn push_jobs(sheet: &Sheet, jobs: &Jobs<Porter>) {
    for place in 0..jobs.plans().len() {
        if let Some(plan) = jobs.plans().get(place) {
            sheet.fill(b"; job @", place as u64, 0, 0);
            match &plan.task {
                Task::Checkpoint { .. } => sheet.put(b" checkpoint"),
                Task::Restore { .. } => sheet.put(b" restore"),
            }
            push_fate(sheet, jobs, place);
        }
    }
}

/// Adds how a run has ended: what its report has, in a line, but for the numbers of moves and the threads that have halted 0. Of a run that the
/// budget ended nothing is told of threads and consoles but faults, since these are at another place in each.
pub fn push_ending(sheet: &Sheet, core: &Run) {
    let end = core.ended().unwrap_or(End::Listed);
    sheet.put(b"end ");
    sheet.add(end_word(end));
    let is_cut = matches!(end, End::Budget);
    push_threads(sheet, core.kernel().store(), is_cut);
    if !is_cut {
        for (_, service) in core.services() {
            push_out(sheet, service);
        }
    }
    push_jobs(sheet, core.jobs());
}
