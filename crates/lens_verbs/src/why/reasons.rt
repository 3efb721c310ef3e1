//! Why a thread has no ready move.
use crate::why::blocked::push_blocked;
use crate::why::holds::{push_hold, push_holds};
use crate::why::known::Known;
use crate::why::places::push_whereabouts;
use crate::why::talks::push_port;
use fk_model::{Fault, Mode, Peer, Thread, Who};
use lens_text::{HALTS, Scene, Sheet, line_at, next_stage};

/// Adds why the job of a porter doesn't go on, where it is its turn.
fn push_job(sheet: &Sheet, known: &Known<'_, '_, '_>, porter: &Who) {
    let seen = known.seen;
    match seen.job {
        Some(job) if job.porter == *porter => {
            if !job.is_at_work & (job.at > seen.events) {
                let form = b"its job begins after @ moves, or where nobody else can move";
                sheet.fill(form, job.at, 0, 0);
            } else if seen.store.is_frozen(porter.space) {
                push_hold(
                    sheet,
                    known.scene,
                    b"is kept still by the hold of ",
                    *porter,
                    b"",
                );
            } else {
                push_blocked(sheet, known, *porter, &job.stage);
            }
        }
        _ => sheet.put(b"it isn't the turn of a job of it"),
    }
}

/// Adds what a thread with a fault waits for.
fn push_fault(sheet: &Sheet, scene: Scene<'_>, fault: &Fault) {
    match fault.taker {
        None => push_port(
            sheet,
            scene,
            b"waits until its fault at ",
            fault.port,
            b" is taken",
        ),
        Some(Peer::Thread(taker)) => {
            push_whereabouts(sheet, scene, b"waits until its fault is done by ", taker);
        }
        Some(_) => push_port(
            sheet,
            scene,
            b"waits until its parked fault at ",
            fault.port,
            b" is taken up",
        ),
    }
}

/// Adds why a thread has no ready move, and who could end that.
pub fn push_reason(sheet: &Sheet, known: &Known<'_, '_, '_>, who: &Who, thread: &Thread) {
    let scene = known.scene;
    let store = scene.store;
    match thread.mode {
        Mode::Native => push_job(sheet, known, who),
        Mode::Halted(code) => {
            sheet.fill(b"has halted @, ", code as u64, 0, 0);
            sheet.add(line_at(HALTS, code as u64));
        }
        _ => {
            let stops = thread.stops as u64;
            if stops > 0 {
                sheet.fill(b"is stopped, and needs @ thread_go", stops, 0, 0);
            } else if let Some(fault) = &thread.fault {
                push_fault(sheet, scene, fault);
            } else if store.is_frozen(who.space) {
                push_hold(sheet, scene, b"is kept still by the hold of ", *who, b"");
            } else if let Some(stage) = next_stage(store, *who) {
                push_blocked(sheet, known, *who, &stage);
            } else {
                push_holds(sheet, scene);
            }
        }
    }
}
