//! How far a run is, told on standard error.
use fk_causes::Gate;
use std::env;
use std::env::Env;
use std::io::Eprint;
use std::sync::atomic::{AtomicU64, Ordering};
use std::time::{Clock, Instant};

/// The clock is looked at once in so many turns.
const LOOK: u64 = 64;

/// The milliseconds between two lines, at least.
const PAUSE: u64 = 1000;

/// A gate that tells how many turns were taken, at most once a second, where that is asked for.
#[derive(Drop)]
pub struct Progress<'a, R: Clock + Eprint> {
    rt: &'a R,
    /// When it was made; none where nothing is to be told.
    made: Option<Instant>,
    /// How many turns were begun.
    turns: AtomicU64,
    /// After how many milliseconds it was told last.
    told: AtomicU64,
}

impl<'a, R: Env + AllocGlobal + Clock + Eprint> Progress<'a, R> {
    /// A gate that nobody has passed yet. It tells where the environment has the word `FLUKE_PROGRESS`, and a clock is there.
    pub fn new(rt: &'a R) -> Progress<'a, R> {
        let made = match env::var(rt, "FLUKE_PROGRESS") {
            Ok(_) => Instant::now(rt).ok(),
            Err(_) => None,
        };
        Progress {
            rt,
            made,
            turns: AtomicU64::new(0),
            told: AtomicU64::new(0),
        }
    }
}

impl<'a, R: Clock + Eprint> Progress<'a, R> {
    /// Tells that so many turns were taken, unless that was told just now.
    fn tell(&self, made: Instant, turns: u64) {
        let Ok(passed) = made.elapsed(self.rt) else {
            return;
        };
        let now = passed
            .as_secs()
            .saturating_mul(1000)
            .saturating_add(u64::from(passed.subsec_millis()));
        let told = self.told.load(Ordering::SeqCst);
        if now >= told.saturating_add(PAUSE)
            && self
                .told
                .compare_exchange(told, now, Ordering::SeqCst, Ordering::SeqCst)
                .is_ok()
        {
            // Where standard error can't be written, nobody is told.
            let _ = eprintln!(self.rt; "fluke: {turns} turns");
        }
    }
}

impl<'a, R: Clock + Eprint> Gate for Progress<'a, R> {
    fn pass(&self, _worker: u32, _turn: u64) {
        let Some(made) = self.made else {
            return;
        };
        let turns = self.turns.fetch_add(1, Ordering::SeqCst);
        if turns % LOOK == 0 {
            self.tell(made, turns);
        }
    }
}
