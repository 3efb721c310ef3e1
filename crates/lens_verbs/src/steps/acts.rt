//! What a mover is about to do.
use crate::steps::sides::other_side;
use fk_first::Seen;
use fk_model::{Ask, Body, Mode, Move, Stage, Thread};
use fk_natives::ask;
use fk_store::Store;
use lens_text::{Sheet, next_stage, push_asked, push_call, push_instruction, push_named, word_at};

/// Adds what the native server of a port is about to do.
fn push_native_act(sheet: &Sheet, seen: &Seen<'_>, one: &Move) {
    for (port, native) in seen.services {
        if *port == one.who {
            match ask(native) {
                Some(Ask::Accept) => {
                    sheet.put(b"accept");
                    push_named(sheet, seen.store, b" of ", one.pick);
                }
                Some(Ask::Give { len, .. }) => sheet.fill(b"give @ words", len as u64, 0, 0),
                Some(Ask::Over) => sheet.put(b"over"),
                _ => break,
            }
            return push_named(sheet, seen.store, b" to ", seen.store.client_at(one.who));
        }
    }
    sheet.put(b"nothing, it is its client's turn");
}

/// Adds the stage that a thread in a call makes next, with the other side of its talk or fault, or its pick.
fn push_stage(sheet: &Sheet, store: &Store, one: &Move, thread: &Thread) {
    push_call(sheet, &thread.regs, true);
    if let Some(stage) = next_stage(store, one.who) {
        let other = other_side(store, one.who, &stage);
        match stage {
            Stage::ClientSend { .. }
            | Stage::ClientOver
            | Stage::ClientOverRef { .. }
            | Stage::ServerOverRef { .. }
            | Stage::ServerSend { .. }
            | Stage::ServerOver => push_named(sheet, store, b" to ", other),
            Stage::Disconnect | Stage::ServerEnd | Stage::FaultDone => {
                push_named(sheet, store, b" with ", other);
            }
            _ => push_named(sheet, store, b" of ", one.pick),
        }
    }
}

/// Adds what a mover is about to do.
pub fn push_act(sheet: &Sheet, seen: &Seen<'_>, one: &Move) {
    match seen.store.at(one.who) {
        Some(Body::Thread(thread)) => match thread.mode {
            Mode::Running => match word_at(seen.store, one.who.space, thread.pc) {
                Some(word) => push_instruction(sheet, word),
                None => sheet.put(b"a word of a page that isn't there"),
            },
            Mode::Calling => push_stage(sheet, seen.store, one, thread),
            Mode::Halted(_) => sheet.put(b"nothing, it has halted"),
            Mode::Native => match seen.job {
                Some(job) if job.porter == one.who => push_asked(sheet, &job.stage),
                _ => sheet.put(b"nothing, it isn't the turn of a job of it"),
            },
        },
        Some(Body::Port { .. }) => push_native_act(sheet, seen, one),
        Some(_) => sheet.put(b"nothing, it is no thread"),
        None => sheet.put(b"nothing, nobody is there"),
    }
}
