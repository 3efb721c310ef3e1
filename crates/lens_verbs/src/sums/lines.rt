//! What went wrong in a run, line by line.
use crate::jobs::JobWatch;
use crate::shows::Shows;
use crate::steps::Kept;
use crate::sums::cycles::push_cycle_of;
use crate::sums::faults::push_fault;
use crate::sums::refusals::Refusals;
use crate::why::{Known, Locking, known_of, push_thread};
use fk_first::{Ready, Seen, Stop};
use fk_isa::decode;
use fk_jobs::{Jobs, Porter};
use fk_model::operation::CALL;
use fk_model::{Mode, Move, Thread, Who};
use lens_text::{Scene, Sheet, next_in_tree, word_at};
use std::collections::BTreeSet;

/// Watches a run, and says what went wrong in it.
#[derive(Drop)]
pub struct Sums {
    locking: Locking,
    jobs: JobWatch,
    kept: Kept,
    refusals: Refusals,
}

impl Sums {
    /// Nothing is known yet.
    pub fn new(sheet: &Sheet) -> Sums {
        Sums {
            locking: Locking::new(sheet.alloc),
            jobs: JobWatch::new(sheet),
            kept: Kept::new(sheet.alloc),
            refusals: Refusals::new(sheet.alloc),
        }
    }
}

/// Notes whether a move has ended a call of a thread, and says whether the thread has halted by a fault: before the move the thread was at this.
fn note_one(
    sheet: &Sheet,
    refusals: &mut Refusals,
    scene: Scene<'_>,
    number: u64,
    mover: Who,
    kept: &(Who, Thread),
) {
    let (who, before) = kept;
    let Some(after) = scene.store.thread(*who) else {
        return;
    };
    match (before.mode, after.mode) {
        (Mode::Calling, Mode::Running) => {
            refusals.note(sheet, scene, number, kept, after.regs[0]);
        }
        // The call of a thread that was at one, and goes on, was refused.
        (Mode::Running, Mode::Running) if *who == mover => {
            if let Some(word) = word_at(scene.store, who.space, before.pc) {
                match decode(word) {
                    Some(instr) if instr.op == CALL => {
                        refusals.note(sheet, scene, number, kept, after.regs[0]);
                    }
                    _ => {}
                }
            }
        }
        (Mode::Running, Mode::Halted(code)) if (code > 0) & (*who == mover) => {
            push_fault(sheet, scene, number, *who, before, code);
        }
        _ => {}
    }
}

/// Adds the line of each thread that can't move and hasn't halted, in the order of their paths; one line for those of a cycle.
fn push_waits(sheet: &Sheet, known: &Known<'_, '_, '_>, ready: &Ready) {
    let store = known.scene.store;
    let mut told = BTreeSet::new(sheet.alloc);
    let mut next = store.after(None);
    for _ in 0..u64::MAX {
        let Some(who) = next else {
            break;
        };
        if let Some(thread) = store.thread(who) {
            let waits = match thread.mode {
                Mode::Halted(_) | Mode::Native => false,
                _ => !ready.contains_key(&who),
            };
            if waits {
                if !push_cycle_of(sheet, known, ready, &mut told, who) {
                    push_thread(sheet, known, &who);
                }
            }
        }
        next = next_in_tree(store, who);
    }
}

impl Shows for Sums {
    fn before(&mut self, sheet: &Sheet, seen: &Seen<'_>, _scene: Scene<'_>, one: &Move) {
        self.locking.before(seen.store, one.who);
        self.kept.keep(sheet, seen.store, one);
    }

    /// It says who has halted by a fault.
    fn after(
        &mut self,
        sheet: &Sheet,
        seen: &Seen<'_>,
        jobs: &Jobs<Porter>,
        scene: Scene<'_>,
        one: &Move,
    ) {
        self.locking.after(sheet, scene.store, one.who);
        self.jobs.after(sheet, seen, jobs);
        let number = seen.events.saturating_sub(1);
        for kept in &self.kept.threads {
            note_one(sheet, &mut self.refusals, scene, number, one.who, kept);
        }
    }

    /// It says which calls were refused, why jobs have failed, and who can't move; or that nothing of all this has come.
    fn stops(
        &mut self,
        sheet: &Sheet,
        seen: &Seen<'_>,
        jobs: &Jobs<Porter>,
        scene: Scene<'_>,
        ready: &Ready,
        _stop: Stop,
    ) {
        let known = known_of(seen, scene, &self.locking.lockers);
        self.refusals.push_lines(sheet);
        self.jobs.push_lines(sheet, seen, jobs, true);
        push_waits(sheet, &known, ready);
        if sheet.len() == 0 {
            sheet.put(b"no fault, no refused call, no job that failed, and nobody who waits\n");
        }
    }
}
