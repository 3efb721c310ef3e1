//! A run watched by `Steps`, for who keeps what its moves do.
use crate::shows::Shows;
use crate::steps::lines::Steps;
use fk_first::{Ready, Seen, Stop};
use fk_jobs::{Jobs, Porter};
use fk_model::Move;
use lens_text::{Scene, Sheet};

/// Who keeps what the moves of a run do.
pub trait Keeps {
    /// It sees what stands after a move, and what was known before it.
    fn keep(&mut self, sheet: &Sheet, steps: &Steps, seen: &Seen<'_>, one: &Move);
}

/// Watches a run for who keeps what its moves do.
#[derive(Drop)]
pub struct Stepwise<'k, K> {
    pub steps: Steps,
    pub by: &'k mut K,
}

impl<K: Keeps> Shows for Stepwise<'_, K> {
    fn before(&mut self, sheet: &Sheet, seen: &Seen<'_>, scene: Scene<'_>, one: &Move) {
        self.steps.before(sheet, seen, scene, one);
    }

    fn after(
        &mut self,
        sheet: &Sheet,
        seen: &Seen<'_>,
        _jobs: &Jobs<Porter>,
        _scene: Scene<'_>,
        one: &Move,
    ) {
        self.by.keep(sheet, &self.steps, seen, one);
    }

    fn stops(
        &mut self,
        _sheet: &Sheet,
        _seen: &Seen<'_>,
        _jobs: &Jobs<Porter>,
        _scene: Scene<'_>,
        _ready: &Ready,
        _stop: Stop,
    ) {}
}

/// Writes the line of each move.
#[derive(Drop)]
pub struct Lines;

impl Keeps for Lines {
    fn keep(&mut self, sheet: &Sheet, steps: &Steps, seen: &Seen<'_>, one: &Move) {
        steps.after(sheet, seen, one);
    }
}
