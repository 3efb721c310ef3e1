//! Jobs that end without a move.
ghost use Rattle.std.specs.Prelude.{◌≡◌};
ghost use Rattle.laws_runs.specs.Cores.{Settles};
ghost use Rattle.fk_core.specs.Cores.Cores.{house, run_core};

use crate::cores::turns::Core;
use fk_jobs::JobMachine;
use fk_natives::Service;

impl<S: Service + Drop, W: JobMachine + Drop> Core<S, W> {
    /// Each job ends that is due and can't begin.
    #[inline(always)]
    pub(crate) fn settle(&mut self)
        ensures settles { Settles (house self.old.jobs.jobs) (run_core self.old) (run_core self.new) }
        ensures kernel { self.new.kernel ≡ self.old.kernel }
        ensures services { self.new.services ≡ self.old.services }
        ensures jobs { self.new.jobs.jobs ≡ self.old.jobs.jobs }
        ensures budget { self.new.budget ≡ self.old.budget }
        ensures events { self.new.events ≡ self.old.events }
    {
        // Mostly none is left.
        if self.jobs.current().is_none() {
            return;
        }
        // One that is at work ends by its moves alone.
        if self.jobs.is_at_work() {
            return;
        }
        self.settle_idle();
    }

    /// The same, where the one whose turn it is has made no move.
    #[inline(never)]
    fn settle_idle(&mut self)
        ensures settles { Settles (house self.old.jobs.jobs) (run_core self.old) (run_core self.new) }
        ensures kernel { self.new.kernel ≡ self.old.kernel }
        ensures services { self.new.services ≡ self.old.services }
        ensures jobs { self.new.jobs.jobs ≡ self.old.jobs.jobs }
        ensures budget { self.new.budget ≡ self.old.budget }
        ensures events { self.new.events ≡ self.old.events }
    {
        while let Some(why) = self.can_end() {
            self.jobs.end_idle(why);
        }
    }
}
