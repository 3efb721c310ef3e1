//! Of each thread that isn't ready, why.
use crate::jobs::JobWatch;
use crate::shows::Shows;
use crate::why::known::{Known, Locking, known_of};
use crate::why::moves::push_move;
use crate::why::reasons::push_reason;
use fk_first::{Ready, Seen, Stop};
use fk_jobs::{Jobs, Porter};
use fk_model::{Mode, Move, Who};
use lens_text::{Scene, Sheet, next_in_tree, push_asked, push_at, push_between};

/// Adds the line of a thread that isn't ready; of a porter, where its job is the one whose turn it is.
pub fn push_thread(sheet: &Sheet, known: &Known<'_, '_, '_>, who: &Who) {
    let store = known.scene.store;
    if let Some(thread) = store.thread(*who) {
        match thread.mode {
            Mode::Native => match known.seen.job {
                Some(job) if job.porter == *who => {
                    push_between(sheet, store, b"", *who, b" a porter, ");
                    push_asked(sheet, &job.stage);
                }
                _ => return,
            },
            _ => {
                push_between(sheet, store, b"", *who, b" ");
                push_at(sheet, known.scene, *who, thread);
            }
        }
        match thread.mode {
            Mode::Halted(_) => {}
            _ => {
                sheet.put(b": ");
                push_reason(sheet, known, who, thread);
            }
        }
        sheet.put(b"\n");
    }
}

/// Watches a run up to where it stops, and says there why threads aren't ready.
#[derive(Drop)]
pub struct Why {
    locking: Locking,
    jobs: JobWatch,
}

impl Why {
    /// Nothing is said yet.
    pub fn new(sheet: &Sheet) -> Why {
        Why {
            locking: Locking::new(sheet.alloc),
            jobs: JobWatch::new(sheet),
        }
    }
}

/// Says where a run stops why threads aren't ready, in the order of their paths.
fn push_why(sheet: &Sheet, known: &Known<'_, '_, '_>, ready: &Ready, stop: Stop) {
    if let Stop::Unready { one, .. } = stop {
        push_move(sheet, known, ready, &one);
    }
    let store = known.scene.store;
    let mut next = store.after(None);
    for _ in 0..u64::MAX {
        let Some(who) = next else {
            break;
        };
        if !ready.contains_key(&who) {
            push_thread(sheet, known, &who);
        }
        next = next_in_tree(store, who);
    }
}

impl Shows for Why {
    fn before(&mut self, _sheet: &Sheet, seen: &Seen<'_>, _scene: Scene<'_>, one: &Move) {
        self.locking.before(seen.store, one.who);
    }

    fn after(
        &mut self,
        sheet: &Sheet,
        seen: &Seen<'_>,
        jobs: &Jobs<Porter>,
        _scene: Scene<'_>,
        one: &Move,
    ) {
        self.locking.after(sheet, seen.store, one.who);
        self.jobs.after(sheet, seen, jobs);
    }

    /// It says why threads aren't ready, and why jobs have failed.
    fn stops(
        &mut self,
        sheet: &Sheet,
        seen: &Seen<'_>,
        jobs: &Jobs<Porter>,
        scene: Scene<'_>,
        ready: &Ready,
        stop: Stop,
    ) {
        let known = known_of(seen, scene, &self.locking.lockers);
        push_why(sheet, &known, ready, stop);
        self.jobs.push_lines(sheet, seen, jobs, false);
    }
}
