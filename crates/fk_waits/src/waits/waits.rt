//! The lists of those who wait.
ghost use Rattle.std.specs.Prelude.{◌≡◌, ◌≢◌, ◌≤◌, ◌+◌, ◌-◌, ◌<◌, ◌^◌, [], length, false, true, IfOk, OnOk, if◌then◌else◌};
ghost use Rattle.std.specs.Bool.{OnTrue, OnFalse};
ghost use Rattle.fk_waits.specs.Causes.Causes.{is_same_cause};
ghost use Rattle.fk_waits.specs.Waits.Lists as lists;
ghost use Rattle.fk_waits.specs.Waits.Lists.{Lists, first_queued, first_ready, is_cause, left, parked, passed, renamed, settled, stands, woken, IsLast};
ghost use Rattle.fk_waits.specs.Waits.Lists.{IsLastFor, StandOnce};
ghost use Rattle.fk_model.specs.declared.names.Who as names_of;

use crate::waits::threads::Threads;
use fk_model::{NoMemory, Who};
use std::alloc::Global;
use std::marker::Model;

/// Room is made for fewer threads than these.
const MOST: usize = 1 << 62;

/// The threads that are ready, in order, and those that are queued, each behind its cause, in the order in which they were parked.
#[derive(Drop)]
pub struct Waits {
    threads: Threads,
    queued: u64,
    /// The thread that was put last of all, where it is known, and its cause. So nobody is moved who stands there already.
    last: Option<Who>,
    cause: Option<Who>,
}

impl Model for Waits {
    ghost use Rattle.fk_waits.specs.Waits.Lists.{Lists};

    ghost Value = { Lists };

    ghost use Rattle.fk_waits.specs.Waits.Threads.{lists_of, IsHeld};

    ghost view = { λ w. lists_of w.threads };

    ghost invariant = { λ w. IsHeld w.threads w.queued w.last w.cause };
}

impl Waits {
    /// Both lists are empty, and there is no room yet.
    ///
    /// # Errors
    ///
    /// There is no memory for the heads of the lists.
    pub fn new(alloc: Global) -> Result<Waits, NoMemory>
        ensures { IfOk result (λ w. w ≡ record { ready = []; queued = []; spare = 0 }) }
    {
        let threads = Threads::new(alloc)?;
        Ok(Waits {
            threads,
            queued: 0,
            last: None,
            cause: None,
        })
    }

    /// Makes room for so many more threads. The lists stay.
    ///
    /// # Errors
    ///
    /// There is no memory for them.
    pub fn reserve(&mut self, threads: u64) -> Result<(), NoMemory>
        ensures spare { OnOk result (threads ≤ self.new.spare) }
        ensures ready { self.new.ready ≡ self.old.ready }
        ensures queued { self.new.queued ≡ self.old.queued }
        ensures kept { self.old.spare ≤ self.new.spare }
    {
        let more = threads as usize;
        if more >= MOST {
            return Err(NoMemory);
        }
        let seats = self.threads.len() + more;
        if seats >= MOST {
            return Err(NoMemory);
        }
        if seats <= self.threads.seats() {
            return Ok(());
        }
        self.threads.reserve(seats)
    }

    /// Each thread stands once. What the type keeps is seen where it is made alone; by this call it is had above.
    pub fn once(&self)
        ensures { StandOnce self.now }
    {
        let _queued = self.queued;
    }

    /// A thread is taken out of where it is and goes last of the queued, with this cause.
    pub fn park(&mut self, thread: Who, cause: Who)
        requires { stands thread self.old ≡ false → 1 ≤ self.old.spare }
        ensures { self.new ≡ parked thread cause self.old }
    {
        self.settle(thread, Some(cause));
    }

    /// A thread is taken out of where it is and goes last of the ready.
    pub fn wake(&mut self, thread: Who)
        requires { stands thread self.old ≡ false → 1 ≤ self.old.spare }
        ensures { self.new ≡ woken thread self.old }
    {
        self.settle(thread, None);
    }

    /// All are ready.
    pub fn wake_all(&mut self)
        ensures queued { self.new.queued ≡ [] }
        ensures stands { (thread : names_of.Who) → stands thread self.new ≡ stands thread self.old }
        ensures spare { self.new.spare ≡ self.old.spare }
    {
        self.last = None;
        self.threads.wake_all();
        self.queued = 0;
    }

    /// A thread is taken out. Where it was in a list, there is room for one more.
    pub fn leave(&mut self, thread: Who)
        ensures { self.new ≡ left thread self.old }
    {
        let waited = self.threads.leave(thread);
        self.queued = counted(self.queued, waited, false);
        self.last = last_without(thread, self.last);
    }

    /// A name stands wherever another stood, as a thread and as a cause. It stood nowhere.
    pub fn rename(&mut self, from: Who, to: Who)
        requires thread { stands to self.old ≡ false }
        requires cause { is_cause to self.old.queued ≡ false }
        ensures { self.new ≡ renamed from to self.old }
    {
        self.last = None;
        self.threads.rename_cause(from, to);
        self.threads.rename_thread(from, to);
    }

    /// The first thread that is queued at a cause.
    pub fn first(&self, cause: Who) -> Option<Who>
        ensures { result ≡ first_queued cause self.now.queued }
    {
        self.threads.first(Some(cause))
    }

    /// A thread stands in one of the lists.
    pub fn has(&self, thread: Who) -> bool
        ensures { result ≡ stands thread self.now }
    {
        self.threads.has(thread)
    }

    /// The front of the ready goes last.
    pub fn pass(&mut self)
        ensures { self.new ≡ passed self.old }
    {
        self.once();
        if let Some(thread) = self.next() {
            self.wake(thread);
        }
    }

    /// The front of the ready.
    pub fn next(&self) -> Option<Who>
        ensures { result ≡ first_ready self.now.ready }
    {
        self.threads.first(None)
    }

    /// Who is ready and stands behind a thread that is, if the lists have both. It is a hint: nothing is said of it.
    pub fn behind(&self, thread: Who) -> Option<Who> {
        self.threads.behind(thread)
    }

    /// A thread was queued, and nobody was moved after it, as far as is known. It is a hint: nothing is said of it.
    pub fn has_parked(&self, thread: Who) -> bool {
        is_known(self.last, thread) && self.cause.is_some()
    }

    /// A thread is known to be the last of the ready: nobody was moved after it.
    pub fn is_last(&self, thread: Who) -> bool
        ensures { OnTrue result (IsLast thread self.now.ready) }
    {
        self.is_settled(thread, None)
    }

    /// A thread is known to stand last with this cause, or last of the ready.
    fn is_settled(&self, thread: Who, cause: Option<Who>) -> bool
        ensures { OnTrue result (IsLastFor thread cause self.now) }
    {
        is_put(self.last, self.cause, thread, cause)
    }

    /// There is room for one more.
    pub fn has_room(&self) -> bool
        ensures room { OnTrue result (1 ≤ self.now.spare) }
        ensures full { OnFalse result (self.now.spare ≡ 0) }
    {
        self.threads.len() < self.threads.seats()
    }

    /// Nobody is ready.
    pub fn is_idle(&self) -> bool
        ensures none { OnTrue result (self.now.ready ≡ []) }
        ensures some { OnFalse result (self.now.ready ≢ []) }
    {
        !(self.queued < self.threads.len() as u64)
    }

    /// How many threads are queued.
    pub fn len(&self) -> u64
        ensures { result ≡ length self.now.queued }
    {
        self.queued
    }

    /// A thread goes last of the queued, or of the ready where it has no cause.
    fn settle(&mut self, thread: Who, cause: Option<Who>)
        requires { stands thread self.old ≡ false → 1 ≤ self.old.spare }
        ensures { self.new ≡ settled thread cause self.old }
    {
        self.once();
        if self.is_settled(thread, cause) {
            return;
        }
        self.put_last(thread, cause);
    }

    /// A thread that may stand anywhere goes last of the queued, or of the ready where it has no cause.
    fn put_last(&mut self, thread: Who, cause: Option<Who>)
        requires { stands thread self.old ≡ false → 1 ≤ self.old.spare }
        ensures { self.new ≡ settled thread cause self.old }
    {
        let waited = self.threads.settle(thread, cause);
        self.queued = counted(self.queued, waited, cause.is_some());
        self.last = Some(thread);
        self.cause = cause;
    }
}

/// How many are queued once one was and is no more, or wasn't and is.
fn counted(queued: u64, was: bool, is: bool) -> u64
    requires some { was ≡ true → 1 ≤ queued }
    requires few { queued < 2 ^ 62 }
    ensures { result ≡ (if was then queued - 1 else queued) + (if is then 1 else 0) }
{
    let others = if was { queued - 1 } else { queued };
    if is { others + 1 } else { others }
}

/// Who was put last of all, as far as it is known, once a thread has gone out of where it was.
fn last_without(thread: Who, last: Option<Who>) -> Option<Who>
    ensures { result ≡ lists.last_without thread last }
{
    match last {
        Some(who) if who == thread => None,
        _ => last,
    }
}

/// Who was put last of all, as far as it is known, is this one.
fn is_known(last: Option<Who>, thread: Who) -> bool
    ensures { result ≡ lists.is_known last thread }
{
    match last {
        Some(last) => last == thread,
        None => false,
    }
}

/// Two threads wait for the same, or both are ready.
fn is_equal(one: Option<Who>, other: Option<Who>) -> bool
    ensures { result ≡ is_same_cause one other }
{
    match one {
        Some(one) => match other {
            Some(other) => one == other,
            None => false,
        },
        None => match other {
            Some(_) => false,
            None => true,
        },
    }
}

/// Who was put last of all, and its cause, are these.
fn is_put(last: Option<Who>, its: Option<Who>, thread: Who, cause: Option<Who>) -> bool
    ensures { result ≡ lists.is_put last its thread cause }
{
    is_known(last, thread) && is_equal(its, cause)
}
