//! Threads that wait for each other in a ring.
use crate::sums::waits::{Cause, push_before, wait_of};
use crate::why::{Known, push_place};
use fk_first::Ready;
use fk_model::Who;
use lens_text::{Sheet, push_path};
use std::collections::BTreeSet;

/// Whether a thread waits in a cycle. Who is waited for is followed; a cycle that it isn't in is found by a mark, which is set anew after twice as many
/// steps each time.
fn is_in_cycle(known: &Known<'_, '_, '_>, ready: &Ready, who: Who) -> bool {
    let (mut next, mut mark) = (who, who);
    let (mut steps, mut most) = (0u64, 1u64);
    for _ in 0..u64::MAX {
        if ready.contains_key(&next) {
            break;
        }
        let Some(wait) = wait_of(known, next) else {
            break;
        };
        next = wait.other;
        if next == who {
            return true;
        }
        if next == mark {
            break;
        }
        steps = steps.saturating_add(1);
        if steps >= most {
            mark = next;
            steps = 0;
            most = most.saturating_mul(2);
        }
    }
    false
}

/// Adds the line of the cycle in which a thread waits, where it waits in one and that isn't told yet: who waits for whom, and why. Whether the thread
/// waits in one.
pub fn push_cycle_of(
    sheet: &Sheet,
    known: &Known<'_, '_, '_>,
    ready: &Ready,
    told: &mut BTreeSet<Who>,
    who: Who,
) -> bool {
    if told.contains(&who) {
        return true;
    }
    if !is_in_cycle(known, ready, who) {
        return false;
    }
    push_place(sheet, known.scene, b"a cycle: ", who);
    sheet.put(b" ");
    let mut next = who;
    for _ in 0..u64::MAX {
        if told.insert(next).is_err() {
            sheet.lacks();
        }
        let Some(wait) = wait_of(known, next) else {
            break;
        };
        push_before(sheet, known.scene.store, wait.cause);
        next = wait.other;
        if next == who {
            push_path(sheet, known.scene.store, who);
        } else {
            push_place(sheet, known.scene, b"", next);
        }
        if let Cause::Mutex(_) = wait.cause {
            sheet.put(b" has locked");
        }
        if next == who {
            break;
        }
        sheet.put(b", which ");
    }
    sheet.put(b"\n");
    true
}
