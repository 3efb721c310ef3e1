//! Which moves are ready.
ghost use Rattle.std.specs.Prelude.{◌≡◌, ◌↔◌, true, IsTrue, IfSome};
ghost use Rattle.fk_served.specs.Served.{asked};
ghost use Rattle.laws_moves.specs.Whole.Runnable.{has_all_words};
ghost use Rattle.fk_core.specs.Moment.Moments.{seen, is_porter, IsReadyNow, IsAskedMove, IsCalledMove};
ghost use Rattle.fk_served.specs.Kernels.{world_of as world};

use crate::moment::moment::Moment;
use fk_jobs::JobMachine;
use fk_model::{Ask, Move, Who};
use fk_natives::Service;
use fk_served::asking::{asked_by, is_ready};

impl<'a, S: Service + Drop, W: JobMachine + Drop> Moment<'a, S, W> {
    /// What a mover asks for that is no job's porter: what it gives is words. Whoever isn't a served port runs.
    pub fn ask(&self, who: Who) -> Option<Ask>
        ensures asked { result ≡ asked self.now.services.now.list (world self.now.kernel.now) who }
        ensures words { IfSome result (λ ask. has_all_words ask ≡ true) }
    {
        asked_by(self.kernel, self.services, who)
    }

    /// Whether a move is ready: what its mover asks for is, and a job's is due.
    pub fn ready(&self, m: &Move) -> bool
        ensures { IsTrue result ↔ IsReadyNow self.now m.now }
    {
        if self.is_porter(m.who) {
            self.ready_job(m)
        } else {
            self.ready_asked(m)
        }
    }

    /// The same of a move whose name is no porter's.
    fn ready_asked(&self, m: &Move) -> bool
        ensures { IsTrue result ↔ IsAskedMove self.now.jobs.now.jobs (seen self.now) m.now }
    {
        is_ready(self.kernel, self.services, m)
    }

    /// The same of a job's move.
    pub(crate) fn ready_job(&self, m: &Move) -> bool
        requires { is_porter self.now.jobs.now m.now.who ≡ true }
        ensures { IsTrue result ↔ IsReadyNow self.now m.now }
    {
        if self.is_called(m) {
            self.is_due()
        } else {
            false
        }
    }

    /// Whether the call that the job asks for whose turn it is is ready, were it due.
    fn is_called(&self, m: &Move) -> bool
        ensures { IsTrue result ↔ IsCalledMove self.now.jobs.now (seen self.now) m.now }
    {
        let mut words = [0; 64];
        match self.jobs.next(&mut words) {
            Some(stage) => self.kernel.ready(m, &Ask::Call { stage, words }),
            None => false,
        }
    }
}
