//! Cores make moves.
ghost use Rattle.fk_burst.specs.Burst.Commits.{CommitsSo};
ghost use Rattle.fk_core.specs.Cores.Cores.{run_core};

use crate::books::playable::{Lent, Playable, WORKERS};
use fk_burst::{Leased, commit_held, count};
use fk_core::{Core, Kernel};
use fk_jobs::JobMachine;
use fk_model::{Move, NoMemory, Who};
use fk_natives::Service;
use fk_responders::Table;

/// Where more spaces than these were made, no other thread is sought for a lease, since such a look may pass over all names.
const MOST_SPACES: u32 = 512;

impl<S: Service + Drop, W: JobMachine + Drop> Playable for Core<S, W> {
    ghost shown = { λ c. record { jobs = c.jobs.jobs; budget = c.budget; core = run_core c } };

    fn most_moves(&self) -> u64 {
        self.budget()
    }

    #[tactic(auto, using(crate::proofs::InBooks::Coming::has_come_to, crate::proofs::InBooks::Coming::has_ended, crate::proofs::InBooks::Coming::stays, crate::proofs::InBooks::Coming::was_first, crate::proofs::InBooks::Coming::some_lacked))]
    fn make_any(&mut self, table: &Table) -> Result<Option<Move>, NoMemory> {
        self.advance(table)
    }

    #[tactic(auto, using(crate::proofs::InBooks::Coming::has_come_by, crate::proofs::InBooks::Coming::has_ended_by, crate::proofs::InBooks::Coming::stays, crate::proofs::InBooks::Coming::was_first_by, crate::proofs::InBooks::Coming::some_lacked))]
    fn make_some(&mut self, table: &Table, most: u64) -> Result<Option<(Move, u64)>, NoMemory> {
        self.advance_by(table, most)
    }

    #[tactic(auto, using(crate::proofs::InBooks::Coming::was_made, crate::proofs::InBooks::Coming::was_unready, crate::proofs::InBooks::Coming::was_same, crate::proofs::InBooks::Coming::was_lacking, crate::proofs::InBooks::Coming::lacked))]
    fn make(&mut self, table: &Table, m: &Move) -> Result<bool, NoMemory> {
        if self.is_below_budget() {
            self.go(table, m)
        } else {
            Ok(false)
        }
    }

    fn lease(&self, out: &[Option<Who>; WORKERS], stays: bool, lease: &mut Leased) -> Lent {
        // A job's moves come at every other plain one, so bursts would make it late.
        if self.jobs().current().is_some() {
            return Lent::Refused;
        }
        if stays && renews(self, self.last_thread(), out, lease) {
            return Lent::Renewed;
        }
        if self.kernel().store().next_birth() > MOST_SPACES {
            return Lent::Refused;
        }
        lease_other(self, out, lease)
    }

    fn burst(&mut self, lease: &Leased) -> bool {
        let left = self.budget() - self.events();
        let made = count(lease);
        if made > left {
            return false;
        }
        Core::burst(
            self,
            lease.thread(),
            made,
            |kernel: &mut Kernel| -> bool
                ensures { CommitsSo lease.entry.now left kernel.old result kernel.new }
            { commit_held(kernel, lease, left) },
        )
    }
}

/// A lease is renewed with the first of the ready that isn't out.
fn lease_other<S: Service + Drop, W: JobMachine + Drop>(
    core: &Core<S, W>,
    out: &[Option<Who>; WORKERS],
    lease: &mut Leased,
) -> Lent {
    let mut after = None;
    for _ in 0..WORKERS {
        let Some(who) = core.next_thread(after) else {
            break;
        };
        if !is_out(out, who) {
            return renewed(lease.renew(core.kernel(), who));
        }
        if after == Some(who) {
            break;
        }
        after = Some(who);
    }
    // Whoever was looked at is out; where nobody was, nobody is ready.
    if after.is_some() {
        Lent::AllOut
    } else {
        Lent::Refused
    }
}

/// What comes of it where somebody wasn't out.
fn renewed(is: bool) -> Lent {
    if is { Lent::Renewed } else { Lent::Refused }
}

/// A lease is renewed with this thread, unless it is out.
fn renews<S: Service + Drop, W: JobMachine + Drop>(
    core: &Core<S, W>,
    thread: Option<Who>,
    out: &[Option<Who>; WORKERS],
    lease: &mut Leased,
) -> bool {
    match thread {
        Some(who) => {
            if is_out(out, who) {
                false
            } else {
                lease.renew(core.kernel(), who)
            }
        }
        None => false,
    }
}

/// Whether a name is among those that are out.
fn is_out(out: &[Option<Who>; WORKERS], who: Who) -> bool {
    for one in out {
        if *one == Some(who) {
            return true;
        }
    }
    false
}
