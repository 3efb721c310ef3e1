//! Threads in words.
use crate::calls::{first_stage, push_call};
use crate::instructions::push_instruction;
use crate::programs::{Scene, push_place};
use crate::sheet::{Sheet, line_at};
use crate::statuses::HALTS;
use crate::store::names::{push_between, push_path};
use fk_model::{Mode, Peer, Stage, Thread, Turn, Who};
use fk_store::{Reach, Store};

/// The word at an address of a space, if its page is there.
pub fn word_at(store: &Store, space: u32, address: u64) -> Option<u64> {
    if let Reach::Home { space, page } = store.reach_word(space, address, false) {
        if let Some(words) = store.page(space, page) {
            return Some(words[(address % 64) as usize]);
        }
    }
    None
}

/// The stage that a thread makes next, where it is in a call.
pub fn next_stage(store: &Store, who: Who) -> Option<Stage> {
    match store.thread(who) {
        Some(thread) => match thread.mode {
            Mode::Calling => first_stage(&thread.regs),
            _ => None,
        },
        None => None,
    }
}

/// Adds at which address a thread is, and by which line of its program's text.
fn push_counter(sheet: &Sheet, scene: Scene<'_>, who: Who, thread: &Thread) {
    sheet.add_number(thread.pc);
    push_place(sheet, scene, b" (", who.space, thread.pc, b")");
    sheet.put(b": ");
}

/// Adds what a thread does next: the instruction, or what is left of its call.
pub fn push_at(sheet: &Sheet, scene: Scene<'_>, who: Who, thread: &Thread) {
    match thread.mode {
        Mode::Running => {
            sheet.put(b"running at ");
            push_counter(sheet, scene, who, thread);
            match word_at(scene.store, who.space, thread.pc) {
                Some(word) => push_instruction(sheet, word),
                None => sheet.put(b"no page is there"),
            }
        }
        Mode::Calling => {
            sheet.put(b"calling at ");
            push_counter(sheet, scene, who, thread);
            push_call(sheet, &thread.regs, false);
        }
        Mode::Halted(code) => {
            let code = code as u64;
            sheet.fill(b"halted @ at ", code, 0, 0);
            push_counter(sheet, scene, who, thread);
            sheet.add(line_at(HALTS, code));
        }
        Mode::Native => sheet.put(b"a porter"),
    }
}

/// Adds who serves a talk, or has taken a fault.
fn push_peer(sheet: &Sheet, store: &Store, peer: Peer) {
    match peer {
        Peer::Thread(who) => push_path(sheet, store, who),
        Peer::Service => sheet.put(b"the port's native server"),
        Peer::Parked => sheet.put(b"nobody yet (parked)"),
    }
}

/// Adds a thread: what it does next, how often it is stopped, its talk as a client, its fault.
pub fn push_thread(sheet: &Sheet, scene: Scene<'_>, who: Who, thread: &Thread) {
    let store = scene.store;
    push_at(sheet, scene, who, thread);
    match thread.stops {
        0 => {}
        1 => sheet.put(b"; stopped once"),
        stops => sheet.fill(b"; stopped @ times", stops as u64, 0, 0),
    }
    if let Some(ref talk) = thread.talk {
        push_between(sheet, store, b"; talk at ", talk.port, b" with ");
        push_peer(sheet, store, talk.peer);
        let moved = talk.moved as u64;
        match talk.turn {
            Turn::Client => sheet.fill(b", client's turn, words moved @", moved, 0, 0),
            Turn::Server => sheet.fill(b", server's turn, words moved @", moved, 0, 0),
        }
    }
    if let Some(ref fault) = thread.fault {
        let page = fault.page as u64;
        if fault.write {
            sheet.fill(b"; fault, write of page @", page, 0, 0);
        } else {
            sheet.fill(b"; fault, read of page @", page, 0, 0);
        }
        match fault.taker {
            Some(taker) => {
                push_between(sheet, store, b", at ", fault.port, b", taken by ");
                push_peer(sheet, store, taker);
            }
            None => push_between(sheet, store, b", raised at ", fault.port, b""),
        }
    }
}
