//! The line of the job whose turn it is.
use crate::jobs::names::push_job;
use fk_first::Seen;
use fk_jobs::{Jobs, Porter};
use fk_model::{Body, Who};
use fk_store::Store;
use lens_text::{Sheet, push_asked, push_between};

/// Adds the spaces that a porter holds.
fn push_held(sheet: &Sheet, store: &Store, porter: Who) {
    let mut is_first = true;
    let mut next = store.after(None);
    for _ in 0..u64::MAX {
        let Some(who) = next else {
            break;
        };
        match store.at(who) {
            Some(
                Body::Space {
                    holder: Some(holder),
                    ..
                },
            ) if *holder == porter => {
                if is_first {
                    push_between(sheet, store, b", holds ", who, b"");
                } else {
                    push_between(sheet, store, b" and ", who, b"");
                }
                is_first = false;
            }
            _ => {}
        }
        next = store.after(next);
    }
}

/// Adds the line of the job whose turn it is: since when it has been at work, or when it begins, what it holds, which call comes next, and how many come
/// behind it.
pub fn push_resting(sheet: &Sheet, seen: &Seen<'_>, jobs: &Jobs<Porter>, begun: Option<u64>) {
    let number = jobs.ends().len();
    let Some(plan) = jobs.plans().get(number) else {
        return;
    };
    push_job(sheet, seen.store, number, plan);
    match begun {
        Some(begun) => sheet.fill(b": at work since move @", begun, 0, 0),
        None => {
            let form = b": not begun, since it begins after @ moves, or where nobody else can move";
            sheet.fill(form, plan.at, 0, 0);
        }
    }
    if let Some(job) = seen.job {
        push_held(sheet, seen.store, job.porter);
        sheet.put(b"; its next call is ");
        push_asked(sheet, &job.stage);
    }
    let count = jobs.plans().len();
    let behind = count.saturating_sub(number).saturating_sub(1);
    if behind > 0 {
        sheet.fill(b"; jobs behind it that wait for it: @", behind as u64, 0, 0);
    }
    sheet.put(b"\n");
}
