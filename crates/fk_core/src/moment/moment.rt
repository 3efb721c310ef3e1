//! What there is to look at, and the job whose turn it is.
ghost use Rattle.std.specs.Prelude.{◌≡◌, ◌↔◌, ◌<◌, IsTrue, length};
ghost use Rattle.fk_jobs.specs.Jobs.{current};
ghost use Rattle.fk_core.specs.Moment.Moments.{core_at, seen, porter_of, is_porter, is_timely, has_come};

use fk_jobs::{JobMachine, Jobs};
use fk_model::Who;
use fk_model::limits::LAST_PORTER_SLOT;
use fk_natives::Service;
use fk_served::{Kernel, Services};

/// A kernel with its native servers and its jobs, and how many moves it has made of how many.
#[derive(Drop)]
pub struct Moment<'a, S: Service + Drop, W: JobMachine + Drop> {
    pub(crate) kernel: &'a Kernel,
    pub(crate) services: &'a Services<S>,
    pub(crate) jobs: &'a Jobs<W>,
    pub(crate) budget: u64,
    pub(crate) events: u64,
    /// The thread that has moved last, after which the next is sought.
    pub(crate) last: Option<Who>,
}

impl<'a, S: Service + Drop, W: JobMachine + Drop> Moment<'a, S, W> {
    /// The moment at which so many moves are made of so many, and this thread has moved last.
    pub fn of(
        kernel: &'a Kernel,
        services: &'a Services<S>,
        jobs: &'a Jobs<W>,
        budget: u64,
        events: u64,
        last: Option<Who>,
    ) -> Moment<'a, S, W>
        ensures kernel { result.kernel.now ≡ kernel.now }
        ensures services { result.services.now ≡ services.now }
        ensures jobs { result.jobs.now ≡ jobs.now }
        ensures budget { result.budget ≡ budget }
        ensures events { result.events ≡ events }
        ensures seen { seen result ≡ core_at kernel.now services.now.list jobs.now events }
    {
        Moment {
            kernel,
            services,
            jobs,
            budget,
            events,
            last,
        }
    }

    /// How many moves were made.
    pub fn events(&self) -> u64
        ensures { result ≡ self.now.events }
    {
        self.events
    }

    /// The thread that has moved last, but where it was the last to be queued: no move of it is ready then.
    pub fn last_up(&self) -> Option<Who> {
        match self.last {
            Some(who) if self.kernel.waits().has_parked(who) => None,
            last => last,
        }
    }

    /// How many servers there are.
    pub fn servers(&self) -> usize
        ensures { result ≡ length self.now.services.now.list }
    {
        self.services.len()
    }

    /// Whether the budget has a move more.
    pub fn is_below_budget(&self) -> bool
        ensures { IsTrue result ↔ (self.now.events < self.now.budget) }
    {
        self.events < self.budget
    }

    /// The porter of the job whose turn it is.
    pub fn porter(&self) -> Option<Who>
        ensures { result ≡ porter_of (current self.now.jobs.now) }
    {
        let plan = self.jobs.current()?;
        Some(Who {
            space: plan.nester,
            slot: LAST_PORTER_SLOT as u8,
        })
    }

    /// Whether a name is its.
    pub fn is_porter(&self, who: Who) -> bool
        ensures { result ≡ is_porter self.now.jobs.now who }
    {
        self.porter() == Some(who)
    }

    /// Whether the job has made a move, or its time has come.
    pub fn is_timely(&self) -> bool
        ensures { result ≡ is_timely self.now.jobs.now self.now.events }
    {
        match self.jobs.current() {
            Some(plan) => self.jobs.is_at_work() || plan.at <= self.events,
            None => false,
        }
    }

    /// Whether the number of moves is even and the budget has one more, and the time has come of the job whose turn it is.
    pub fn has_come(&self) -> bool
        ensures { result ≡ has_come self.now.jobs.now self.now.budget self.now.events }
    {
        self.is_timely() && self.events % 2 == 0 && self.events < self.budget
    }
}
