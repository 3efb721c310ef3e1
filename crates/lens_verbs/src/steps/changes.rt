//! What a move has changed of threads.
use fk_model::{Mode, Thread, Who};
use fk_store::Store;
use lens_text::{HALTS, STATUSES, Sheet, line_at, push_named, push_path};

/// Adds the registers of a thread that have changed, as `r1=5 r2=0`, behind its path where it isn't the mover, and behind those of others that begin at this
/// place.
pub fn push_changed(sheet: &Sheet, start: usize, store: &Store, mover: Who, kept: &(Who, Thread)) {
    let (who, before) = kept;
    if let Some(after) = store.thread(*who) {
        let mut is_first = true;
        for number in 0..16usize {
            let value = after.regs[number];
            if before.regs[number] != value {
                if !is_first {
                    sheet.put(b" ");
                } else {
                    if sheet.len() > start {
                        sheet.put(b"; ");
                    }
                    if *who != mover {
                        push_path(sheet, store, *who);
                        sheet.put(b" ");
                    }
                }
                is_first = false;
                sheet.fill(b"r@=@", number as u64, value, 0);
            }
        }
    }
}

/// Adds what has come of a mover's move besides its registers: of a sender how many of its words went to whom, how its call ended, how it
/// halted, which fault it raised; or that it is gone.
pub fn push_ending(
    sheet: &Sheet,
    store: &Store,
    who: Who,
    before: &Thread,
    sends: bool,
    other: Option<Who>,
) {
    let Some(after) = store.thread(who) else {
        return sheet.put(b"; it is gone from there");
    };
    if sends {
        let count = before.regs[3];
        sheet.fill(
            b"send @ of @ words",
            count.saturating_sub(after.regs[3]),
            count,
            0,
        );
        push_named(sheet, store, b" to ", other);
    }
    match after.mode {
        Mode::Running => {
            if let Mode::Calling = before.mode {
                sheet.put(b"; the call ends, ");
                sheet.add(line_at(STATUSES, after.regs[0]));
            }
        }
        Mode::Halted(code) => {
            let code = code as u64;
            sheet.fill(b"; it halts @, ", code, 0, 0);
            sheet.add(line_at(HALTS, code));
        }
        _ => {}
    }
    // Who has a fault can't move.
    if let Some(fault) = &after.fault {
        sheet.fill(b"; it misses page @, a fault at ", fault.page as u64, 0, 0);
        push_path(sheet, store, fault.port);
    }
}
