//! When a job is due, and which ends without a move.
ghost use Rattle.std.specs.Prelude.{◌≡◌, ◌↔◌, Some, None, IsTrue, IfSome, IfNone};
ghost use Rattle.laws_runs.specs.Cores as runs;
ghost use Rattle.laws_runs.specs.Cores.{IsGone, IsOtherReady, EndsFor, EndsNow};
ghost use Rattle.fk_jobs.specs.Ended.{unmoved_of};
ghost use Rattle.fk_jobs.specs.Jobs.{current, job_of};
ghost use Rattle.fk_served.specs.Kernels.{world_of as world};
ghost use Rattle.fk_core.specs.Moment.Moments.{house, seen, IsDue};

use crate::moment::moment::Moment;
use fk_jobs::{JobMachine, PlannedJob, Unmoved};
use fk_natives::Service;

impl<'a, S: Service + Drop, W: JobMachine + Drop> Moment<'a, S, W> {
    /// Whether a user or a server has a ready move.
    fn is_other_ready(&self) -> bool
        ensures { IsTrue result ↔ IsOtherReady (house self.now.jobs.now.jobs) (seen self.now) }
    {
        self.find_other().is_some()
    }

    /// Whether the job whose turn it is is due: it has made a move, or its time has come, or nobody else can move.
    pub fn is_due(&self) -> bool
        ensures { IsTrue result ↔ IsDue self.now.jobs.now.jobs (seen self.now) }
    {
        if self.jobs.current().is_none() {
            return false;
        }
        self.is_timely() || !self.is_other_ready()
    }

    /// Why it ends without a move, if it does: it is due, and can't begin, having no image, or no nester any more.
    pub fn can_end(&self) -> Option<Unmoved>
        ensures some { IfSome result (λ why. EndsNow (house self.now.jobs.now.jobs) (seen self.now) (unmoved_of why)) }
        ensures none { IfNone result ((why : runs.Unmoved) → EndsNow (house self.now.jobs.now.jobs) (seen self.now) why → ⊥) }
    {
        match self.jobs.current() {
            Some(plan) => self.end_of(plan),
            None => None,
        }
    }

    /// The same of the job that is planned so. Whether it is due is looked at last.
    fn end_of(&self, plan: &PlannedJob) -> Option<Unmoved>
        requires its { Some (job_of plan.now) ≡ current self.now.jobs.now }
        ensures some { IfSome result (λ why. EndsNow (house self.now.jobs.now.jobs) (seen self.now) (unmoved_of why)) }
        ensures none { IfNone result ((why : runs.Unmoved) → EndsNow (house self.now.jobs.now.jobs) (seen self.now) why → ⊥) }
    {
        let why = self.hindrance(plan)?;
        if self.is_due() { Some(why) } else { None }
    }

    /// Why it can't begin, where it hasn't begun.
    fn hindrance(&self, plan: &PlannedJob) -> Option<Unmoved>
        requires its { Some (job_of plan.now) ≡ current self.now.jobs.now }
        ensures some { IfSome result (λ why. (self.now.jobs.now.work ≡ None)
            × EndsFor (house self.now.jobs.now.jobs) (seen self.now) (job_of plan.now) (unmoved_of why)) }
        ensures none { IfNone result (self.now.jobs.now.work ≡ None
            → (why : runs.Unmoved) → EndsFor (house self.now.jobs.now.jobs) (seen self.now) (job_of plan.now) why → ⊥) }
    {
        if self.jobs.is_at_work() {
            None
        } else if !self.jobs.can_begin() {
            Some(Unmoved::NoImage)
        } else if self.is_gone(plan) {
            Some(Unmoved::Dead)
        } else {
            None
        }
    }

    /// Whether its nester is gone.
    fn is_gone(&self, plan: &PlannedJob) -> bool
        ensures { IsTrue result ↔ IsGone (world self.now.kernel.now) plan.now.nester }
    {
        self.kernel.names();
        !self.kernel.store().is_live(plan.nester)
    }
}
