//! A line a move.
use crate::steps::acts::push_act;
use crate::steps::changes::{push_changed, push_ending};
use crate::steps::kept::Kept;
use crate::steps::servers::{ServerState, push_news, state_of};
use crate::steps::sides::other_side;
use fk_first::Seen;
use fk_model::{Mode, Move, Stage, Who};
use lens_text::{Scene, Sheet, next_stage, push_between, push_place};
use std::alloc::Global;

/// The label and the line at which a user thread is; nothing of anybody else.
fn place_of(sheet: &Sheet, scene: Scene<'_>, who: Who) -> String {
    let place = Sheet::new(sheet.alloc);
    if let Some(thread) = scene.store.thread(who) {
        match thread.mode {
            Mode::Native => {}
            _ => push_place(&place, scene, b"", who.space, thread.pc, b""),
        }
    }
    sheet.taken(place)
}

/// Writes a line for each move of a run from one on. All else that it has is what was known before the move.
#[derive(Drop)]
pub struct Steps {
    /// The first of these moves.
    first: u64,
    /// The trace's own line, the move's number, who moves, and what that does where it isn't to send words, with tabs between them.
    head: String,
    /// The mover is to send words.
    pub sends: bool,
    /// To whom these go.
    pub other: Option<Who>,
    /// The label and the line at which the mover was.
    place: String,
    /// The threads that the move may change.
    pub kept: Kept,
    /// What native servers were at.
    pub servers: Vec<ServerState>,
}

impl Steps {
    /// It knows of no move yet.
    pub fn new(alloc: Global, first: u64) -> Steps {
        Steps {
            first,
            head: String::new(alloc),
            sends: false,
            other: None,
            place: String::new(alloc),
            kept: Kept::new(alloc),
            servers: Vec::new(alloc),
        }
    }

    /// It sees what stands before a move.
    pub fn before(&mut self, sheet: &Sheet, seen: &Seen<'_>, scene: Scene<'_>, one: &Move) {
        if seen.events < self.first {
            return;
        }
        let store = seen.store;
        let who = one.who;
        let head = Sheet::new(sheet.alloc);
        head.fill(b"@.@", who.space as u64, who.slot as u64, 0);
        if let Some(pick) = one.pick {
            head.fill(b" @.@", pick.space as u64, pick.slot as u64, 0);
        }
        head.fill(b"\t@", seen.events, 0, 0);
        push_between(&head, store, b"\t", who, b"\t");
        self.sends = false;
        if let Some(stage) = next_stage(store, who) {
            self.sends = matches!(stage, Stage::ClientSend { .. } | Stage::ServerSend { .. });
            self.other = other_side(store, who, &stage);
        }
        if !self.sends {
            push_act(&head, seen, one);
        }
        self.head = sheet.taken(head);
        self.kept.keep(sheet, store, one);
        self.place = place_of(sheet, scene, who);
        self.servers.clear();
        for (_, native) in seen.services {
            if self.servers.push(state_of(native)).is_err() {
                sheet.lacks();
            }
        }
    }

    /// It sees what stands after that move, and writes its line where that is asked for: what was known before it, of a sender how many of
    /// its words went, how it ended, the registers that changed, the mover's first, what native servers were told, and at which label and line the mover was.
    pub fn after(&self, sheet: &Sheet, seen: &Seen<'_>, one: &Move) {
        if seen.events <= self.first {
            return;
        }
        let store = seen.store;
        sheet.add(self.head.as_str());
        // Of a native server there is nothing more to say than its act.
        match self.kept.threads.first() {
            Some((who, before)) if *who == one.who => {
                push_ending(sheet, store, *who, before, self.sends, self.other);
            }
            _ => {}
        }
        sheet.put(b"\t");
        let start = sheet.len();
        for kept in &self.kept.threads {
            push_changed(sheet, start, store, one.who, kept);
        }
        sheet.put(b"\t");
        let start = sheet.len();
        for place in 0..self.servers.len() {
            if let Some((port, native)) = seen.services.get(place) {
                push_news(sheet, start, store, *port, native, &self.servers[place]);
            }
        }
        sheet.put_around(b"\t", self.place.as_str(), b"\n");
    }
}
