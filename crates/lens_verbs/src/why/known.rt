//! What is known where it is asked why somebody can't move.
use fk_first::Seen;
use fk_model::{Stage, Who};
use fk_store::Store;
use lens_text::{Scene, Sheet, handled, next_stage};
use std::alloc::Global;
use std::collections::BTreeMap;

/// Who has locked a mutex last, by what the run so far tells.
pub type Lockers = BTreeMap<Who, Who>;

/// What is known where it is asked why somebody can't move.
#[derive(Clone, Copy)]
pub struct Known<'s, 'c, 'l> {
    pub seen: &'s Seen<'s>,
    pub scene: Scene<'c>,
    pub lockers: &'l Lockers,
}

/// What is known there, beside who has locked a mutex last.
pub fn known_of<'s, 'c, 'l>(
    seen: &'s Seen<'s>,
    scene: Scene<'c>,
    lockers: &'l Lockers,
) -> Known<'s, 'c, 'l> {
    Known {
        seen,
        scene,
        lockers,
    }
}

/// Watches who locks mutexes.
#[derive(Drop)]
pub struct Locking {
    pub lockers: Lockers,
    /// The mutex that the mover is to lock, where it isn't locked. Where it is after the move, that has locked it.
    mutex: Option<Who>,
}

impl Locking {
    /// Nobody has locked anything yet.
    pub fn new(alloc: Global) -> Locking {
        Locking {
            lockers: BTreeMap::new(alloc),
            mutex: None,
        }
    }

    /// It sees what stands before a move of somebody.
    pub fn before(&mut self, store: &Store, mover: Who) {
        self.mutex = None;
        let Some(Stage::MutexLock { m } | Stage::MutexTrylock { m }) = next_stage(store, mover)
        else {
            return;
        };
        if let Some(mutex) = handled(store, mover.space, m) {
            if let Some(false) = store.mutex(mutex) {
                self.mutex = Some(mutex);
            }
        }
    }

    /// It sees what stands after that move, and notes who has locked a mutex.
    pub fn after(&mut self, sheet: &Sheet, store: &Store, mover: Who) {
        if let Some(mutex) = self.mutex {
            if let Some(true) = store.mutex(mutex) {
                if self.lockers.insert(mutex, mover).is_err() {
                    sheet.lacks();
                }
            }
        }
    }
}
