//! The lines of jobs that have failed.
use crate::jobs::dead::{push_dead, push_noimage, push_slot};
use crate::jobs::foreign::push_foreign;
use crate::jobs::names::{Ending, ending_word, fate_of, push_job};
use crate::jobs::noport::push_noport;
use fk_jobs::{Jobs, Porter};
use fk_store::Store;
use lens_text::Sheet;

/// Adds the line of the job with a number, where it has failed: how, by which moves, and why, by what stands there as its last move was made.
pub fn push_failed(sheet: &Sheet, store: &Store, jobs: &Jobs<Porter>, number: usize) {
    let Some(plan) = jobs.plans().get(number) else {
        return;
    };
    let fate = fate_of(jobs, number);
    match fate.ending {
        Ending::Waiting | Ending::Done => return,
        _ => {}
    }
    push_job(sheet, store, number, plan);
    sheet.put_around(b": ", ending_word(fate.ending), b"");
    match fate.moves {
        Some((begun, last)) => sheet.fill(b", moves @ to @: ", begun, last, 0),
        None => sheet.put(b": "),
    }
    match fate.ending {
        Ending::Foreign(place) => push_foreign(sheet, store, plan, place),
        Ending::Dead => push_dead(sheet, store, plan, fate.moves.is_some()),
        Ending::Occupied => {
            push_slot(sheet, store, plan);
            sheet.put(b", where the new space was to be made");
        }
        Ending::NoPort(port) => push_noport(sheet, store, jobs, plan, port),
        Ending::NoImage => push_noimage(sheet, jobs, plan),
        _ => {}
    }
    sheet.put(b"\n");
}
