//! The page's data, move by move.
use crate::page::changes::{Known, push_objects};
use crate::page::template::{HEAD, SCRIPT};
use crate::shows::Shows;
use crate::steps::Steps;
use fk_first::{Ready, Seen, Stop};
use fk_jobs::{Jobs, Porter};
use fk_model::{Move, Who};
use lens_text::{Scene, Sheet, push_home};
use std::collections::BTreeMap;

/// Watches a run and writes its page.
#[derive(Drop)]
pub struct Page {
    /// A line a move.
    steps: Steps,
    known: Known,
    /// The names of all that is known, in the order in which it was found.
    names: Vec<Who>,
}

impl Page {
    /// Begins the page of a trace with this name. Nothing is known yet.
    pub fn new(sheet: &Sheet, name: &str) -> Page {
        sheet.put_bytes(HEAD);
        sheet.add(name);
        sheet.put(b"\nfluke-trace 1\n");
        Page {
            steps: Steps::new(sheet.alloc, 0),
            known: BTreeMap::new(sheet.alloc),
            names: Vec::new(sheet.alloc),
        }
    }

    /// Adds what isn't as it was before the last move, and at first all.
    fn push_changes(&mut self, sheet: &Sheet, scene: Scene<'_>) {
        let store = scene.store;
        if let Some(few) = &self.steps.kept.few {
            return push_objects(sheet, &mut self.known, scene, few);
        }
        sheet.put(b"=/\t/\t");
        push_home(sheet, store, 0, None);
        sheet.put(b"\n");
        let mut next = store.after(None);
        for _ in 0..u64::MAX {
            let Some(who) = next else {
                break;
            };
            if !self.known.contains_key(&who) {
                if self.names.push(who).is_err() {
                    sheet.lacks();
                }
            }
            next = store.after(next);
        }
        push_objects(sheet, &mut self.known, scene, &self.names);
    }
}

impl Shows for Page {
    /// It adds what the move before has changed.
    fn before(&mut self, sheet: &Sheet, seen: &Seen<'_>, scene: Scene<'_>, one: &Move) {
        self.push_changes(sheet, scene);
        self.steps.before(sheet, seen, scene, one);
    }

    fn after(
        &mut self,
        sheet: &Sheet,
        seen: &Seen<'_>,
        _jobs: &Jobs<Porter>,
        _scene: Scene<'_>,
        one: &Move,
    ) {
        self.steps.after(sheet, seen, one);
    }

    /// It adds what the last move has changed, and says why no further one was made.
    fn stops(
        &mut self,
        sheet: &Sheet,
        _seen: &Seen<'_>,
        _jobs: &Jobs<Porter>,
        scene: Scene<'_>,
        _ready: &Ready,
        stop: Stop,
    ) {
        self.push_changes(sheet, scene);
        match stop {
            Stop::Unready { .. } => sheet.put(b"the trace goes on with a move that isn't ready"),
            Stop::Budget { .. } => sheet.put(b"the trace goes on, but the budget is used"),
            _ => sheet.put(b"the trace has no further move"),
        }
        sheet.put_bytes(SCRIPT);
    }
}
