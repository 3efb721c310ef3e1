//! Leases: a copy of a running thread that a worker takes with it.
ghost use Rattle.std.specs.Prelude.{◌≡◌, ◌≤◌, ◌+◌, ◌↔◌, None, Some, IfSome, IsSome, IsTrue};
ghost use Rattle.std.specs.Bool.{OnTrue, OnFalse};
ghost use Rattle.fk_kernel.specs.Kernels.{world_of};
ghost use Rattle.fk_model.specs.declared.moves.Ask.TheVariants as asks;
ghost use Rattle.fk_model.specs.Moves.{IsReady};
ghost use Rattle.fk_model.specs.Searches.{thread_at};
ghost use Rattle.fk_model.specs.Valid.{IsPaged};
ghost use Rattle.fk_model.specs.Who.{named};
ghost use Rattle.fk_plans.specs.Plans.Effects as effects;
ghost use Rattle.fk_store.specs.Store.Bodies.{mode_by};
ghost use Rattle.fk_store.specs.Store.Paths.{path, place};
ghost use Rattle.fk_store.specs.Store.World.{world};
ghost use Rattle.laws_bursts.specs.Bursts as bursts;
ghost use Rattle.fk_burst.specs.Copies.Copies.{burst_of};
ghost use Rattle.fk_burst.specs.Burst.Kept.{IsKept};
ghost use Rattle.fk_burst.specs.Burst.Leases.{most, IsCopied, IsLeased, IsReadyToRun};

use crate::copies::Copied;
use fk_kernel::Kernel;
use fk_model::{Ask, Mode, Move, Thread, Who};
use fk_store::Store;
use std::marker::Model;

/// The most instructions that one `run` makes.
const MOST: u64 = 64;

/// A thread with its copy: as it was when the lease was taken, and as the instructions since then have left it.
#[derive(Drop)]
pub struct Leased {
    pub(crate) thread: Who,
    pub(crate) taken: Copied,
    pub(crate) copy: Copied,
    pub(crate) count: u64,
}

impl Model for Leased {
    ghost use Rattle.fk_burst.specs.Burst.Kept.{IsKept};
    ghost use Rattle.fk_burst.specs.Burst.Lease.{Lease, coded_lease};

    ghost Value = { Lease };

    ghost coded = { coded_lease };

    ghost view = { λ l. record { thread = l.thread; taken = l.taken; copy = l.copy; count = l.count } };

    ghost invariant = { λ l. IsKept (record { thread = l.thread; taken = l.taken; copy = l.copy; count = l.count }) };
}

impl Leased {
    /// Whose it is.
    pub fn thread(&self) -> Who
        ensures { result ≡ self.now.thread }
    {
        self.thread
    }

    /// A lease of nobody, to be renewed: no instruction can be made in it.
    pub fn blank() -> Leased
        ensures idle { bursts.instructed (burst_of result.copy) ≡ None }
        ensures count { result.count ≡ 0 }
    {
        let taken = Copied::blank();
        Leased {
            thread: Who { space: 0, slot: 0 },
            taken,
            copy: taken,
            count: 0,
        }
    }

    /// Becomes a lease of the thread in a slot: what `lease` gives, in place, since a lease is large. Says whether the thread is ready in
    /// running mode.
    pub fn renew(&mut self, k: &Kernel, thread: Who) -> bool
        ensures ready { IsTrue result ↔ IsReadyToRun (world_of k.now) thread }
        ensures leased { OnTrue result (IsLeased (world_of k.now) thread self.new) }
    {
        k.names();
        if is_ready_to_run(k, thread) {
            self.take(k.store(), thread)
        } else {
            false
        }
    }

    /// Becomes a copy of the thread in a slot, and says whether one is there.
    fn take(&mut self, store: &Store, thread: Who) -> bool
        requires { IsPaged (world store.now) }
        ensures some { OnTrue result (IsCopied store.now thread self.new) }
        ensures none { OnFalse result (None ≡ thread_at (world store.now) (place (path store.now) thread)) }
    {
        match store.thread(thread) {
            Some(there) => {
                self.thread = thread;
                self.taken.fill(store, thread.space, there);
                self.copy = self.taken;
                self.count = 0;
                true
            }
            None => false,
        }
    }

    /// What its type keeps. Nothing is done: by this call it is had of the whole.
    pub(crate) fn keeps(&self)
        ensures { IsKept self.now }
    {
        let _count = &self.count;
    }
}

/// Whether a thread is in running mode.
fn runs(thread: &Thread) -> bool
    ensures { result ≡ effects.is_running_mode (mode_by thread.now.mode thread.now.regs) }
{
    match thread.mode {
        Mode::Running => true,
        Mode::Calling => false,
        Mode::Halted(_) => false,
        Mode::Native => false,
    }
}

/// Whether a thread in running mode is in a slot.
fn is_running(store: &Store, who: Who) -> bool
    ensures { result ≡ effects.is_running (thread_at (world store.now) (place (path store.now) who)) }
{
    match store.thread(who) {
        Some(thread) => runs(thread),
        None => false,
    }
}

/// Whether the move of the thread in a slot is ready, which picks nobody.
fn is_ready(k: &Kernel, thread: Who) -> bool
    ensures { IsTrue result ↔ IsReady (world_of k.now) (named (world_of k.now) thread) None asks.Run }
{
    let m = Move {
        who: thread,
        pick: None,
    };
    k.ready(&m, &Ask::Run)
}

/// Whether the thread in a slot is ready in running mode.
pub(crate) fn is_ready_to_run(k: &Kernel, thread: Who) -> bool
    ensures { IsTrue result ↔ IsReadyToRun (world_of k.now) thread }
{
    k.names();
    if is_running(k.store(), thread) {
        is_ready(k, thread)
    } else {
        false
    }
}

/// A copy of the thread in a slot, with those pages of its space that are there among the page of its counter and the three after it.
/// There is none exactly where the thread isn't ready in running mode.
pub fn lease(k: &Kernel, thread: Who) -> Option<Leased>
    ensures ready { IsSome result ↔ IsReadyToRun (world_of k.now) thread }
    ensures leased { IfSome result (λ l. IsLeased (world_of k.now) thread l) }
{
    let mut l = Leased::blank();
    if l.renew(k, thread) { Some(l) } else { None }
}

/// Makes at most so many instructions, up to one that can't be made, and says how many they were.
#[tactic(auto, using(crate::proofs::InBurst::Runs::made_none, crate::proofs::InBurst::Runs::run_ended, crate::proofs::InBurst::Runs::count_ended))]
fn make(copied: &mut Copied, most: u64) -> u64
    ensures made { bursts.made result (burst_of copied.old) ≡ Some (burst_of copied.new) }
    ensures run { burst_of copied.new ≡ bursts.run most (burst_of copied.old) }
    ensures count { result ≡ bursts.count most (burst_of copied.old) }
    ensures few { result ≤ most }
    ensures first { copied.new.first ≡ copied.old.first }
{
    for event in 0..most {
        if !copied.instruct() {
            return event;
        }
    }
    most
}

/// Makes 64 instructions, or as many as the count still has room for. It stops earlier exactly before a call, before a halt, and before a
/// word of a page that the lease doesn't have.
#[tactic(auto, using(crate::proofs::InBurst::Leasing::kept_more))]
pub fn run(l: &mut Leased)
    ensures copy { burst_of l.new.copy ≡ bursts.run (most l.old.count) (burst_of l.old.copy) }
    ensures count { l.new.count ≡ l.old.count + bursts.count (most l.old.count) (burst_of l.old.copy) }
    ensures thread { l.new.thread ≡ l.old.thread }
    ensures taken { l.new.taken ≡ l.old.taken }
{
    let most = MOST.min(u64::MAX - l.count);
    l.count += make(&mut l.copy, most);
}

/// How many instructions have been made since the lease was taken.
pub fn count(l: &Leased) -> u64
    ensures { result ≡ l.now.count }
{
    l.count
}
