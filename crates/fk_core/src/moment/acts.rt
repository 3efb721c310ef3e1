//! Acts of servers.
ghost use Rattle.std.specs.Prelude.{◌≡◌, ◌≤◌, false, IfSome, IfNone, length};
ghost use Rattle.fk_core.specs.Moment.Moments.{seen, is_porter, porter_of, IsReadyNow, IsOthersMove};
ghost use Rattle.fk_jobs.specs.Jobs.{current};
ghost use Rattle.fk_served.specs.Acts.{HasNoAct, HaveNoActs};
ghost use Rattle.fk_served.specs.Kernels.{world_of as world};

use crate::moment::moment::Moment;
use fk_jobs::JobMachine;
use fk_links::connecting_to;
use fk_model::{Move, Who};
use fk_natives::Service;
use fk_served::asking::{act_unless, find_act};

impl<'a, S: Service + Drop, W: JobMachine + Drop> Moment<'a, S, W> {
    /// A ready act of the server of a port that isn't the name of the porter whose job's turn it is.
    pub fn act_besides(&self, port: Who) -> Option<Move>
        ensures ready { IfSome result (λ m. IsReadyNow self.now m) }
        ensures other { IfSome result (λ m. IsOthersMove self.now.jobs.now.jobs (seen self.now) m) }
        ensures none { IfNone result (is_porter self.now.jobs.now port ≡ false → HasNoAct self.now.services.now.list (world self.now.kernel.now) port) }
    {
        act_unless(self.kernel, self.services, self.porter(), port)
    }

    /// A ready act of a server from a place up to another.
    fn act_between(&self, from: usize, to: usize) -> Option<Move>
        requires { to ≤ length self.now.services.now.list }
        ensures ready { IfSome result (λ m. IsReadyNow self.now m) }
        ensures other { IfSome result (λ m. IsOthersMove self.now.jobs.now.jobs (seen self.now) m) }
        ensures none { IfNone result (HaveNoActs self.now.services.now.list (world self.now.kernel.now) (porter_of (current self.now.jobs.now)) from to) }
    {
        find_act(self.kernel, self.services, self.porter(), from, to)
    }

    /// A ready act of the server at a place, where there is one.
    pub fn act_at(&self, at: usize) -> Option<Move>
        ensures { IfSome result (λ m. IsReadyNow self.now m) }
    {
        if at < self.services.len() {
            self.act_met(self.services.port(at))
        } else {
            None
        }
    }

    /// A ready act of the server of a port, where it has something to give or somebody is queued at the port.
    pub fn act_met(&self, port: Who) -> Option<Move>
        ensures { IfSome result (λ m. IsReadyNow self.now m) }
    {
        if self.may_act(port) {
            self.act_besides(port)
        } else {
            None
        }
    }

    /// The server of a port is at its own turn, or somebody is queued there. It is a hint: nothing is said of it. Who has come to the port and hasn't been
    /// looked at yet is among the ready, and is queued once that is done.
    fn may_act(&self, port: Who) -> bool {
        self.services.left(port).is_some() || self.kernel.waits().first(port).is_some()
    }

    /// A server's act that is ready: of the one at whose port the thread that moved last is at its connect, or else of any up to a place.
    pub fn find_act(&self, to: usize) -> Option<Move>
        requires { to ≤ length self.now.services.now.list }
        ensures ready { IfSome result (λ m. IsReadyNow self.now m) }
        ensures other { IfSome result (λ m. IsOthersMove self.now.jobs.now.jobs (seen self.now) m) }
        ensures none { IfNone result (HaveNoActs self.now.services.now.list (world self.now.kernel.now) (porter_of (current self.now.jobs.now)) 0 to) }
    {
        match self.met() {
            Some(m) => Some(m),
            None => self.act_between(0, to),
        }
    }

    /// A ready act of the server at whose port the thread that moved last is at its connect. So most who come are met, however many servers
    /// nobody comes to.
    fn met(&self) -> Option<Move>
        ensures ready { IfSome result (λ m. IsReadyNow self.now m) }
        ensures other { IfSome result (λ m. IsOthersMove self.now.jobs.now.jobs (seen self.now) m) }
    {
        let who = self.last?;
        let store = self.kernel.store();
        let port = connecting_to(store, who, store.thread(who)?)?;
        self.act_besides(port)
    }
}
