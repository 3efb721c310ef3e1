//! Who shows a run.
use fk_first::{Ready, Seen, Stop, Watcher};
use fk_jobs::{Jobs, Porter};
use fk_model::Move;
use lens_text::{Programs, Scene, Sheet, push_tree};

/// Who shows a run on a sheet.
pub trait Shows {
    /// It sees what stands before a move, of which it isn't known yet whether it is ready.
    fn before(&mut self, sheet: &Sheet, seen: &Seen<'_>, scene: Scene<'_>, one: &Move);

    /// It sees what stands after that move.
    fn after(
        &mut self,
        sheet: &Sheet,
        seen: &Seen<'_>,
        jobs: &Jobs<Porter>,
        scene: Scene<'_>,
        one: &Move,
    );

    /// It sees what stands where the run stops.
    fn stops(
        &mut self,
        sheet: &Sheet,
        seen: &Seen<'_>,
        jobs: &Jobs<Porter>,
        scene: Scene<'_>,
        ready: &Ready,
        stop: Stop,
    );
}

/// A watcher of the run of a scenario with these programs, who shows it. Its methods know nothing of who that is, so that they are proved once.
#[derive(Drop)]
pub struct Show<'s, 'p, T> {
    pub sheet: &'s Sheet,
    pub programs: &'p Programs,
    pub by: T,
}

/// What stands there, beside the programs.
fn scene_of<'a>(programs: &'a Programs, seen: &'a Seen<'a>) -> Scene<'a> {
    Scene {
        store: seen.store,
        programs,
    }
}

impl<T: Shows + Drop> Watcher for Show<'_, '_, T> {
    fn before(&mut self, seen: &Seen<'_>, one: &Move) {
        let scene = scene_of(self.programs, seen);
        self.by.before(self.sheet, seen, scene, one);
    }

    fn after(&mut self, seen: &Seen<'_>, jobs: &Jobs<Porter>, one: &Move) {
        let scene = scene_of(self.programs, seen);
        self.by.after(self.sheet, seen, jobs, scene, one);
    }

    fn stops(&mut self, seen: &Seen<'_>, jobs: &Jobs<Porter>, ready: &Ready, stop: Stop) {
        let scene = scene_of(self.programs, seen);
        self.by.stops(self.sheet, seen, jobs, scene, ready, stop);
    }
}

/// Shows what stands where the run stops.
#[derive(Drop)]
pub struct Tree;

impl Shows for Tree {
    fn before(&mut self, _sheet: &Sheet, _seen: &Seen<'_>, _scene: Scene<'_>, _one: &Move) {}

    fn after(
        &mut self,
        _sheet: &Sheet,
        _seen: &Seen<'_>,
        _jobs: &Jobs<Porter>,
        _scene: Scene<'_>,
        _one: &Move,
    ) {}

    fn stops(
        &mut self,
        sheet: &Sheet,
        _seen: &Seen<'_>,
        _jobs: &Jobs<Porter>,
        scene: Scene<'_>,
        _ready: &Ready,
        _stop: Stop,
    ) {
        push_tree(sheet, scene);
    }
}
