//! A gate that watches the workers.
use fk_causes::Gate;
use std::sync::atomic::{AtomicU64, Ordering};
use std::thread::yield_now;

/// How often who is held looks whether it may pass.
const LOOKS: u32 = 10_000_000;

/// The most moves of one turn.
const MOVES: u64 = 65;

/// Counts its calls, what it waits for, and who gave up waiting. Before its first turn it holds nobody, or by 1 the first worker until the
/// second has passed, or by 2 all others until there is a burst of more than one instruction, so that nobody is in its way; for `LOOKS`
/// looks at most.
#[derive(Drop)]
pub struct Watch {
    holds: u8,
    calls: AtomicU64,
    come: AtomicU64,
    tired: AtomicU64,
}

impl Watch {
    /// A gate that nobody has passed.
    pub fn new(holds: u8) -> Watch {
        Watch {
            holds,
            calls: AtomicU64::new(0),
            come: AtomicU64::new(0),
            tired: AtomicU64::new(0),
        }
    }

    /// Whether it was called at least once in 65 of so many moves, and what was waited for has come to who was held.
    pub fn is_well(&self, moves: u64) -> bool {
        self.holds == 0
            || (self.come.load(Ordering::SeqCst) > 0
                && self.tired.load(Ordering::SeqCst) == 0
                && self.calls.load(Ordering::SeqCst) >= moves / MOVES)
    }
}

impl Gate for Watch {
    fn pass(&self, worker: u32, turn: u64) {
        self.calls.fetch_add(1, Ordering::SeqCst);
        if self.holds == 1 && worker == 1 {
            self.come.fetch_add(1, Ordering::SeqCst);
        }
        let is_held = self.holds > 0 && turn == 0 && (self.holds == 1) == (worker == 0);
        if !is_held {
            return;
        }
        for _ in 0..LOOKS {
            if self.come.load(Ordering::SeqCst) > 0 {
                return;
            }
            yield_now();
        }
        self.tired.fetch_add(1, Ordering::SeqCst);
    }

    fn committed(&self, _worker: u32, moves: u64) {
        if self.holds == 2 && moves > 1 {
            self.come.fetch_add(1, Ordering::SeqCst);
        }
    }
}
