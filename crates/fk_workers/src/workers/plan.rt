//! Which turns of a worker are with a lease.
use fk_model::Who;

/// A burst of fewer instructions is short.
const SHORT: u64 = 16;

/// The most turns that go by without a lease.
const REST: u32 = 16;

/// So many bursts in a row may be of the thread that moved last; the next one is of another, if one is found that no other worker has.
const STAYS: u32 = 8;

/// Where none was found, twice as many, up to so many: who looks has to read what the other workers are writing.
const MOST_STAYS: u32 = 512;

/// So many turns in a row a worker waits at most where others have all who are ready out. One of them may have failed.
const WAITS: u32 = 256;

/// Which turns are with a lease: none of a worker who is alone. After a short burst 1, 2, 4 .. 16 turns go by without, after a long one
/// none: so a run of messages pays little for leases.
#[derive(Clone, Copy)]
pub(crate) struct Plan {
    /// No turn is with a lease, since there is no other worker: instructions are made where they stand.
    alone: bool,
    /// There is a lease to be committed.
    pub(crate) held: bool,
    /// So many turns go by without one.
    rest: u32,
    /// So many after the next short one.
    next: u32,
    /// So many bursts were made since another thread was sought.
    pub(crate) stays: u32,
    /// So many may be made.
    pub(crate) most: u32,
    /// Whose the last one was.
    last: Option<Who>,
    /// So many turns in a row the worker has waited.
    waited: u32,
}

impl Plan {
    pub(crate) fn new(alone: bool) -> Plan {
        Plan {
            alone,
            held: false,
            rest: 0,
            next: 1,
            stays: 0,
            most: STAYS,
            last: None,
            waited: 0,
        }
    }

    /// The next turn may be with a lease.
    pub(crate) fn leases(&self) -> bool {
        !self.alone && self.rest == 0
    }

    /// The next turn makes no move: all who are ready are out.
    pub(crate) fn waits(&self) -> bool {
        self.waited > 0
    }

    /// None could be had, since all who are ready are out. At times it makes moves nevertheless.
    pub(crate) fn wait(&mut self) {
        self.held = false;
        if self.waited < WAITS {
            self.waited += 1;
        } else {
            self.waited = 0;
        }
    }

    /// A turn goes by without a lease, or none could be had.
    pub(crate) fn pass(&mut self) {
        self.held = false;
        self.waited = 0;
        if self.rest > 0 {
            self.rest -= 1;
        } else {
            self.begin();
        }
    }

    /// A burst of so many instructions of a thread was made.
    pub(crate) fn made(&mut self, thread: Who, count: u64) {
        self.held = true;
        self.waited = 0;
        self.stay(thread);
        if count < SHORT {
            self.begin();
        } else {
            self.next = 1;
        }
    }

    /// The thread of a burst: another one is sought later where the last look has come back to the same.
    fn stay(&mut self, thread: Who) {
        if self.last != Some(thread) {
            self.last = Some(thread);
            self.stays = 0;
            self.most = STAYS;
        } else if self.stays < self.most {
            self.stays += 1;
        } else {
            self.stays = 0;
            self.most = self.most.saturating_mul(2).min(MOST_STAYS);
        }
    }

    /// So many turns go by, and the next time twice as many.
    fn begin(&mut self) {
        self.rest = self.next;
        self.next = self.next.saturating_mul(2).min(REST);
    }
}
