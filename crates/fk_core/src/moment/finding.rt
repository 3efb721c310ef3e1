//! A look for a move that is ready.
ghost use Rattle.std.specs.Prelude.{◌≡◌, true, IfSome, IfNone};
ghost use Rattle.fk_core.specs.Moment.Moments.{house, seen, is_porter, has_come, IsReadyNow, MayBeMade, IsOthersMove, IsAnyMove, AreUsersIdle};
ghost use Rattle.fk_served.specs.Kernels.{world_of as world};
ghost use Rattle.laws_runs.specs.Cores.{IsOtherReady};

use crate::moment::moment::Moment;
use fk_jobs::JobMachine;
use fk_model::Move;
use fk_natives::Service;

impl<'a, S: Service + Drop, W: JobMachine + Drop> Moment<'a, S, W> {
    /// A thread's move that is ready.
    fn user(&self) -> Option<Move>
        ensures ready { IfSome result (λ m. IsReadyNow self.now m) }
        ensures other { IfSome result (λ m. IsOthersMove self.now.jobs.now.jobs (seen self.now) m) }
        ensures none { IfNone result (AreUsersIdle self.now.jobs.now (world self.now.kernel.now)) }
    {
        self.kernel.any_besides(self.porter())
    }

    /// A move of a user or a server that is ready: a thread's, or else a server's act.
    pub(crate) fn find_other(&self) -> Option<Move>
        ensures ready { IfSome result (λ m. IsReadyNow self.now m) }
        ensures other { IfSome result (λ m. IsOthersMove self.now.jobs.now.jobs (seen self.now) m) }
        ensures none { IfNone result (IsOtherReady (house self.now.jobs.now.jobs) (seen self.now) → ⊥) }
    {
        match self.user() {
            Some(m) => Some(m),
            None => self.find_act(self.services.len()),
        }
    }

    /// The move of the job whose turn it is, where it is due and ready.
    pub fn job_move(&self) -> Option<Move>
        ensures ready { IfSome result (λ m. IsReadyNow self.now m) }
        ensures porter { IfSome result (λ m. is_porter self.now.jobs.now m.who ≡ true) }
        ensures none { IfNone result ((m : _) → is_porter self.now.jobs.now m.who ≡ true → IsReadyNow self.now m → ⊥) }
    {
        let who = self.porter()?;
        let m = Move { who, pick: None };
        if self.ready_job(&m) { Some(m) } else { None }
    }

    /// The same at an even number of moves, where its time has come.
    pub fn job_first(&self) -> Option<Move>
        ensures ready { IfSome result (λ m. MayBeMade self.now m) }
        ensures porter { IfSome result (λ m. is_porter self.now.jobs.now m.who ≡ true) }
        ensures none { IfNone result (has_come self.now.jobs.now self.now.budget self.now.events ≡ true
            → (m : _) → is_porter self.now.jobs.now m.who ≡ true → IsReadyNow self.now m → ⊥) }
    {
        if self.has_come() {
            self.job_move()
        } else {
            None
        }
    }

    /// A move that is ready: a thread's, or else a server's act, or else the due job's.
    pub fn find(&self) -> Option<Move>
        ensures ready { IfSome result (λ m. IsReadyNow self.now m) }
        ensures none { IfNone result (IsAnyMove self.now.jobs.now.jobs (seen self.now) → ⊥) }
    {
        match self.user() {
            Some(m) => Some(m),
            None => self.find_besides(),
        }
    }

    /// A move that is ready, where no thread's is: a server's act, or else the due job's.
    pub fn find_besides(&self) -> Option<Move>
        requires { AreUsersIdle self.now.jobs.now (world self.now.kernel.now) }
        ensures ready { IfSome result (λ m. IsReadyNow self.now m) }
        ensures none { IfNone result (IsAnyMove self.now.jobs.now.jobs (seen self.now) → ⊥) }
    {
        match self.find_act(self.services.len()) {
            Some(m) => Some(m),
            None => self.job_move(),
        }
    }
}
