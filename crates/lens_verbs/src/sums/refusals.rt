//! Calls that were refused.
use crate::sums::handles::Caller;
use crate::sums::statuses::MEANINGS;
use crate::why::push_hold;
use fk_model::{Stage, Thread, Who};
use fk_store::Store;
use lens_text::{
    STATUSES, Scene, Sheet, first_stage, handled, line_at, object_named, push_at, push_between,
    push_refused,
};
use std::alloc::Global;
use std::collections::BTreeMap;

/// How many calls ended with each status but OK, and what is told of the first.
#[derive(Drop)]
pub struct Refusals {
    counts: [u64; 20],
    firsts: BTreeMap<u64, String>,
}

/// The address that a stage names, of what it has to be a multiple, how many words of it are wanted, and whether they are written.
fn memory_of(stage: &Stage) -> Option<(u64, u64, u64, bool)> {
    match *stage {
        Stage::GetState { addr, .. } => Some((addr, 32, 32, true)),
        Stage::SetState { addr, .. } => Some((addr, 32, 32, false)),
        Stage::PageGive { addr, .. } => Some((addr, 64, 64, false)),
        Stage::PageTake { addr, .. } | Stage::PageRead { addr, .. } => Some((addr, 64, 64, true)),
        Stage::ClientSend { addr, count } | Stage::ServerSend { addr, count } => {
            Some((addr, 1, count.min(64), false))
        }
        Stage::ClientReceive { addr, room } | Stage::ServerReceive { addr, room } => {
            Some((addr, 1, room.min(64), true))
        }
        _ => None,
    }
}

/// Adds the first word that a stage can't reach, and which rule refuses that.
fn push_address(sheet: &Sheet, store: &Store, space: u32, stage: &Stage) {
    let Some((address, whole, count, writes)) = memory_of(stage) else {
        return;
    };
    if whole > 1 && address % whole > 0 {
        return sheet.fill(b"; address @ is no multiple of @", address, whole, 0);
    }
    for word in 0..count {
        let line = Sheet::new(sheet.alloc);
        push_refused(&line, store, space, address.saturating_add(word), writes);
        if line.len() > 0 {
            let line = sheet.taken(line);
            return sheet.put_around(b"; ", line.as_str(), b"");
        }
    }
}

/// Adds the hold that keeps what a stage names as it is.
fn push_holder(sheet: &Sheet, scene: Scene<'_>, space: u32, stage: &Stage) {
    let named = match *stage {
        Stage::Create { s, .. } | Stage::PageGive { s, .. } | Stage::PageTake { s, .. } => {
            handled(scene.store, space, s)
        }
        Stage::Destroy { s, x }
        | Stage::Rename { s, x, .. }
        | Stage::Point { s, x, .. }
        | Stage::Clear { s, x }
        | Stage::SetState { s, x, .. }
        | Stage::SetPtr { s, x, .. }
        | Stage::SpaceHold { s, x }
        | Stage::SpaceRelease { s, x } => object_named(scene.store, space, s, x),
        _ => None,
    };
    if let Some(object) = named {
        push_hold(sheet, scene, b"; that is the hold of ", object, b"");
    }
}

/// Adds why a call that a thread was at before the move ended with a status.
fn push_why(sheet: &Sheet, scene: Scene<'_>, who: Who, before: &Thread, status: u64) {
    sheet.add(line_at(MEANINGS, status));
    let Some(stage) = first_stage(&before.regs) else {
        return sheet.fill(b", but @", before.regs[0], 0, 0);
    };
    let caller = Caller {
        sheet,
        store: scene.store,
        space: who.space,
    };
    caller.push_all(&stage);
    match status {
        9 => push_holder(sheet, scene, who.space, &stage),
        12 => push_address(sheet, scene.store, who.space, &stage),
        _ => {}
    }
}

impl Refusals {
    /// None was refused yet.
    pub fn new(alloc: Global) -> Refusals {
        Refusals {
            counts: [0; 20],
            firsts: BTreeMap::new(alloc),
        }
    }

    /// Counts a call of a thread that a move with this number has ended with a status, and keeps what is told of the first. Before the move the
    /// thread was at this.
    pub fn note(
        &mut self,
        sheet: &Sheet,
        scene: Scene<'_>,
        number: u64,
        kept: &(Who, Thread),
        status: u64,
    ) {
        if (status == 0) | (status > 19) {
            return;
        }
        let count = self.counts[status as usize];
        self.counts[status as usize] = count.saturating_add(1);
        if count == 0 {
            let (who, before) = kept;
            let line = Sheet::new(sheet.alloc);
            line.fill(b"move @: ", number, 0, 0);
            push_between(&line, scene.store, b"", *who, b" ");
            push_at(&line, scene, *who, before);
            line.put(b": ");
            push_why(&line, scene, *who, before, status);
            if self.firsts.insert(status, sheet.taken(line)).is_err() {
                sheet.lacks();
            }
        }
    }

    /// Adds a line for each status with which calls ended.
    pub fn push_lines(&self, sheet: &Sheet) {
        for (status, first) in &self.firsts {
            let count = self.counts[(*status % 20) as usize];
            sheet.add(line_at(STATUSES, *status));
            if count == 1 {
                sheet.put(b", one call: ");
            } else {
                sheet.fill(b", @ calls, the first: ", count, 0, 0);
            }
            sheet.put_around(b"", first.as_str(), b"\n");
        }
    }
}
