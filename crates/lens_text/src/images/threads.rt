//! The lines of a thread.
use crate::calls::push_call;
use crate::images::paths::push_pointer;
use crate::sheet::{Sheet, line_at};
use crate::statuses::HALTS;
use fk_image::{SpaceRec, ThreadRec};

/// Adds the lines of a thread's talk and of its fault.
fn push_dealings(sheet: &Sheet, path: &str, spaces: &[SpaceRec], thread: &ThreadRec) {
    if let Some(ref talk) = thread.talk {
        let form = if talk.turn == 1 {
            b" client's turn, words moved @\n"
        } else {
            b" server's turn, words moved @\n"
        };
        sheet.line(b"talk ", path, form, talk.moved as u64, 0);
        push_pointer(sheet, path, b" talk at ", spaces, &talk.port);
        push_pointer(sheet, path, b" talk with ", spaces, &talk.server);
    }
    if let Some(ref fault) = thread.fault {
        let page = fault.page as u64;
        if fault.write == 1 {
            sheet.line(b"fault ", path, b" write of page @\n", page, 0);
        } else {
            sheet.line(b"fault ", path, b" read of page @\n", page, 0);
        }
        push_pointer(sheet, path, b" fault at ", spaces, &fault.port);
        if let Some(ref taker) = fault.taker {
            push_pointer(sheet, path, b" fault taken by ", spaces, taker);
        }
    }
}

/// Adds the lines of a thread behind what it is and its path: what it is at, that of its stops, those of its registers that aren't 0, its talk and its fault.
pub fn push_thread(sheet: &Sheet, path: &str, spaces: &[SpaceRec], thread: &ThreadRec) {
    sheet.fill(b" at @", thread.pc, 0, 0);
    match thread.mode {
        0 => sheet.put(b", running"),
        1 => {
            sheet.put(b", calling ");
            push_call(sheet, &thread.regs, false);
        }
        _ => {
            let code = thread.code as u64;
            sheet.fill(b", halted @, ", code, 0, 0);
            sheet.add(line_at(HALTS, code));
        }
    }
    sheet.put(b"\n");
    let stops = thread.stops as u64;
    if stops > 0 {
        sheet.line(b"stops ", path, b" @\n", stops, 0);
    }
    for number in 0..16usize {
        let value = thread.regs[number];
        if value != 0 {
            sheet.line(b"register ", path, b" r@ @\n", number as u64, value);
        }
    }
    push_dealings(sheet, path, spaces, thread);
}
