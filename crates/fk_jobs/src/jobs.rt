//! Jobs, one after the other.
ghost use Rattle.std.specs.Prelude.{◌≡◌, ◌<◌, ◌≤◌, ◌++◌, ◌∷◌, [], true, Some, None, IfOk, IfSome, IsSome, OnOk, OnErr};
ghost use Rattle.std.specs.Prelude.{length, map, take, vec_capacity, option_map, is_some};
ghost use Rattle.std.specs.List.{slice_get};
ghost use Rattle.fk_model.specs.declared.moves.Ask.TheVariants as asks;
ghost use Rattle.laws_house.specs.Laws.{NameUsersSlots};
ghost use Rattle.laws_jobs.specs.Machines.{no_words};
ghost use Rattle.fk_jobs.specs.Ended.{unmoved_of, shown_ends};
ghost use Rattle.fk_jobs.specs.Jobs.{job_of, current, first_of, state_of, grows_by, call_with, asked_by, begun_from, hears, passed, with_idle};
ghost use Rattle.fk_jobs.specs.Jobs.{made_state, HasEnded};
ghost use Rattle.fk_jobs.specs.Fitting.{picks_nobody};

use crate::begins::{can_begin, first_call, make};
use crate::ended::{Ended, Unmoved};
use crate::job_machine::JobMachine;
use crate::plan::PlannedJob;
use fk_model::{Answer, NoMemory, Stage};
use std::alloc::Global;
use std::marker::Model;

/// Jobs, one after the other.
#[derive(Drop)]
pub struct Jobs<W: JobMachine + Drop> {
    alloc: Global,
    plans: Vec<PlannedJob>,
    ends: Vec<Ended>,
    /// The machine of the one whose turn it is, once it is made.
    porter: Option<W>,
    /// The place of its first move, once it has made one.
    begun: Option<u64>,
    /// It may lack its machine, or room.
    used: bool,
}

impl<W: JobMachine + Drop> Model for Jobs<W> {
    ghost use Rattle.std.specs.Prelude.{◌≡◌, ◌≤◌, false, not, map, length, vec_capacity};
    ghost use Rattle.std.specs.List.{slice_get};
    ghost use Rattle.laws_house.specs.Laws.{NameUsersSlots};
    ghost use Rattle.fk_jobs.specs.Ended as ended;
    ghost use Rattle.fk_jobs.specs.Jobs as queues;

    ghost Value = { queues.Queue };

    ghost view = { λ s. record {
      jobs = map queues.job_of s.plans.items;
      ends = ended.shown_ends s.ends.items;
      work = queues.shown_work W.state s.porter s.begun;
      ready = not s.used;
    } };

    ghost invariant = { λ s. (length s.plans.items ≤ vec_capacity s.ends)
        × NameUsersSlots (map queues.job_of s.plans.items)
        × queues.IsSeated W.state s.porter s.begun (ended.shown_ends s.ends.items)
        (slice_get (map queues.job_of s.plans.items) (length (ended.shown_ends s.ends.items)))
        × (s.used ≡ false → queues.IsReadied W.has_room s.porter (queues.first_of (ended.shown_ends s.ends.items)
        (slice_get (map queues.job_of s.plans.items) (length (ended.shown_ends s.ends.items))))) };
}

/// The place of a job's first move, which is this one where it has made none.
fn begun_from(begun: Option<u64>, events: u64) -> u64
    ensures { result ≡ begun_from begun events }
{
    match begun {
        Some(begun) => begun,
        None => events,
    }
}

/// Adds how a job has ended.
fn add_end(ends: &mut Vec<Ended>, end: Ended)
    requires { length ends.old.items < vec_capacity ends.old }
    ensures ends { ends.new.items ≡ ends.old.items ++ end ∷ [] }
    ensures room { vec_capacity ends.old ≤ vec_capacity ends.new }
{
    ends.push(end).unwrap();
}

/// Makes the machine of the job whose turn it is. It stands apart, since it is rare and takes much room.
#[inline(never)]
fn make_new<W: JobMachine + Drop>(
    alloc: Global,
    plans: &[PlannedJob],
    ends: &[Ended],
    porter: &mut Option<W>,
) -> Result<(), NoMemory>
    requires { NameUsersSlots (map job_of plans.now) }
    ensures made { OnOk result (option_map W.state porter.new
        ≡ first_of (shown_ends ends.now) (slice_get (map job_of plans.now) (length (shown_ends ends.now)))) }
    ensures lacking { OnErr result (porter.new ≡ porter.old) }
    ensures grows { OnErr result (grows_by
        (first_of (shown_ends ends.now) (slice_get (map job_of plans.now) (length (shown_ends ends.now)))) ≡ true) }
{
    *porter = make(alloc, plans, ends)?;
    Ok(())
}

/// Makes the machine of the job whose turn it is, where it isn't made yet.
fn make_in<W: JobMachine + Drop>(
    alloc: Global,
    plans: &[PlannedJob],
    ends: &[Ended],
    porter: &mut Option<W>,
) -> Result<(), NoMemory>
    requires { NameUsersSlots (map job_of plans.now) }
    ensures made { OnOk result (option_map W.state porter.new
        ≡ made_state W.state porter.old (first_of (shown_ends ends.now) (slice_get (map job_of plans.now) (length (shown_ends ends.now))))) }
    ensures lacking { OnErr result (porter.new ≡ porter.old) }
    ensures grows { OnErr result (grows_by (made_state W.state porter.old
        (first_of (shown_ends ends.now) (slice_get (map job_of plans.now) (length (shown_ends ends.now))))) ≡ true) }
{
    if porter.is_none() {
        make_new(alloc, plans, ends, porter)?;
    }
    Ok(())
}

/// Makes room for an answer to a machine, where there is one.
fn reserve_in<W: JobMachine>(porter: &mut Option<W>) -> Result<(), NoMemory>
    ensures same { option_map W.state porter.new ≡ option_map W.state porter.old }
    ensures room { OnOk result (IfSome porter.new W.has_room) }
    ensures grows { OnErr result (grows_by (option_map W.state porter.old) ≡ true) }
{
    match porter {
        Some(porter) => porter.reserve(),
        None => Ok(()),
    }
}

impl<W: JobMachine + Drop> Jobs<W> {
    /// Jobs of which none has begun.
    ///
    /// # Errors
    ///
    /// There is no memory for their ends.
    pub fn new(alloc: Global, plans: Vec<PlannedJob>) -> Result<Jobs<W>, NoMemory>
        requires slots { NameUsersSlots (map job_of plans.items) }
        ensures jobs { IfOk result (λ jobs. jobs.jobs ≡ map job_of plans.items) }
        ensures ends { IfOk result (λ jobs. jobs.ends ≡ []) }
        ensures work { IfOk result (λ jobs. jobs.work ≡ None) }
    {
        let mut ends = Vec::new(alloc);
        if ends.reserve(plans.len()).is_err() {
            return Err(NoMemory);
        }
        Ok(Jobs {
            alloc,
            plans,
            ends,
            porter: None,
            begun: None,
            used: true,
        })
    }

    /// What is planned of the one whose turn it is.
    pub fn current(&self) -> Option<&PlannedJob>
        ensures { option_map (λ plan. job_of plan.now) result ≡ current self.now }
    {
        self.plans.get(self.ends.len())
    }

    /// Whether it has made a move.
    pub fn is_at_work(&self) -> bool
        ensures { result ≡ is_some self.now.work }
    {
        self.porter.is_some() && self.begun.is_some()
    }

    /// Whether it can begin, as a restore can that has an image.
    pub fn can_begin(&self) -> bool
        ensures { result ≡ is_some (first_of self.now.ends (current self.now)) }
    {
        can_begin(self.plans.as_slice(), self.ends.as_slice())
    }

    /// Its next call, whose words are written over zeros.
    pub fn next(&self, words: &mut [u64; 64]) -> Option<Stage>
        requires { words.old ≡ no_words }
        ensures next { call_with result words.new ≡ asked_by (state_of self.now) }
        ensures plain { IfSome (call_with result words.new) (λ ask. picks_nobody ask ≡ true) }
    {
        match &self.porter {
            Some(porter) => porter.next(words),
            None => first_call(self.plans.as_slice(), self.ends.as_slice()),
        }
    }

    /// Its next call, where it surely goes with no words: then no room for words is needed.
    pub fn bare(&self) -> Option<Stage>
        ensures { IfSome result (λ stage. asked_by (state_of self.now) ≡ Some (asks.Call stage no_words)) }
    {
        match &self.porter {
            Some(porter) => porter.bare(),
            None => None,
        }
    }

    /// Makes room for one answer, and changes nothing else.
    ///
    /// # Errors
    ///
    /// There is no memory for it.
    #[inline(never)]
    pub fn reserve(&mut self) -> Result<(), NoMemory>
        ensures jobs { self.new.jobs ≡ self.old.jobs }
        ensures ends { self.new.ends ≡ self.old.ends }
        ensures work { self.new.work ≡ self.old.work }
        ensures ready { OnOk result (self.new.ready ≡ true) }
        ensures grows { OnErr result (grows_by (state_of self.old) ≡ true) }
    {
        if self.used {
            make_in(
                self.alloc,
                self.plans.as_slice(),
                self.ends.as_slice(),
                &mut self.porter,
            )?;
            reserve_in(&mut self.porter)?;
            self.used = false;
        }
        Ok(())
    }

    /// Takes the answer to its next call, which was the move at this place of the history.
    pub fn absorb(&mut self, events: u64, answer: &Answer)
        requires { self.old.ready ≡ true }
        ensures { self.new ≡ hears self.old events answer.now.status (take answer.now.len answer.now.words) }
    {
        let Some(porter) = &mut self.porter else {
            return;
        };
        porter.absorb(answer);
        let goes_on = porter.is_at_call();
        self.begun = Some(begun_from(self.begun, events));
        self.used = true;
        if goes_on {
            return;
        }
        self.pass(events);
    }

    /// The one at work has ended with the move at this place. It stands apart, since it is rare and takes much room.
    #[inline(never)]
    fn pass(&mut self, last: u64)
        requires work { IsSome self.old.work }
        requires over { HasEnded self.old.work }
        ensures { self.new ≡ passed self.old last }
    {
        let porter = self.porter.take().unwrap();
        let begun = self.begun.take().unwrap();
        let finish = porter.finish().unwrap();
        let ended = Ended::Worked {
            finish,
            begun,
            last,
        };
        add_end(&mut self.ends, ended);
        self.used = true;
    }

    /// The one whose turn it is has ended without a move. It stands apart too.
    #[inline(never)]
    pub fn end_idle(&mut self, why: Unmoved)
        requires there { IsSome (current self.old) }
        requires idle { self.old.work ≡ None }
        ensures { self.new ≡ with_idle self.old (unmoved_of why) }
    {
        self.begun = None;
        self.porter = None;
        add_end(&mut self.ends, Ended::Idle(why));
        self.used = true;
    }

    /// How those have ended that have.
    pub fn ends(&self) -> &[Ended]
        ensures { shown_ends result.now ≡ self.now.ends }
    {
        self.ends.as_slice()
    }

    /// How those have ended that have, handed out.
    pub fn into_ends(self) -> Vec<Ended>
        ensures { shown_ends result.items ≡ self.ends }
    {
        self.ends
    }

    /// What is planned of all, in the order of the file.
    pub fn plans(&self) -> &[PlannedJob]
        ensures { map job_of result.now ≡ self.now.jobs }
    {
        self.plans.as_slice()
    }
}
