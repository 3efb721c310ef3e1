//! Threads as they were before a move.
use crate::steps::few::{Few, few_changed};
use fk_model::{Move, Thread, Who};
use fk_store::Store;
use lens_text::Sheet;
use std::alloc::Global;

/// Threads as they were before a move.
#[derive(Drop)]
pub struct Kept {
    /// Whom the move may change; none where these may be many.
    pub few: Option<Few>,
    /// The threads that it may change, with what they were at: the mover first, where it is one.
    pub threads: Vec<(Who, Thread)>,
}

impl Kept {
    /// Nothing is known yet.
    pub fn new(alloc: Global) -> Kept {
        Kept {
            few: None,
            threads: Vec::new(alloc),
        }
    }

    /// Keeps what somebody is at, if that is a thread.
    fn keep_one(&mut self, sheet: &Sheet, store: &Store, who: Who) {
        if let Some(thread) = store.thread(who) {
            if self.threads.push((who, *thread)).is_err() {
                sheet.lacks();
            }
        }
    }

    /// Keeps what all threads but the mover are at.
    fn keep_others(&mut self, sheet: &Sheet, store: &Store, mover: Who) {
        let mut next = store.after(None);
        for _ in 0..u64::MAX {
            let Some(who) = next else {
                break;
            };
            if who != mover {
                self.keep_one(sheet, store, who);
            }
            next = store.after(next);
        }
    }

    /// Keeps what the threads are at that a move may change.
    pub fn keep(&mut self, sheet: &Sheet, store: &Store, one: &Move) {
        let mover = one.who;
        self.few = few_changed(store, one);
        self.threads.clear();
        self.keep_one(sheet, store, mover);
        let Some(few) = self.few else {
            return self.keep_others(sheet, store, mover);
        };
        for who in &few {
            if *who != mover {
                self.keep_one(sheet, store, *who);
            }
        }
    }
}
