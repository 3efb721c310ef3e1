//! Acts of native servers that are made where their words stand.
ghost use Rattle.std.specs.Prelude.{◌≡◌, ◌<◌, Some, true, false, IfSome, IsSome, OnErr, map};
ghost use Rattle.std.specs.Bool.{OnTrue, OnFalse};
ghost use Rattle.fk_model.specs.declared.moves.Ask.TheVariants as asks;
ghost use Rattle.fk_core.specs.Rounds.Acted.{act_of};
ghost use Rattle.fk_core.specs.Rounds.Kernels.{world_of as world};
ghost use Rattle.fk_core.specs.Rounds.Served.{asked, AllFit};
ghost use Rattle.fk_core.specs.Cores.Cores.{run_core, is_porter, may_lack_asked, IsAdvanced, IsAdvancedOrOver, IsAskedMove, IsTried};
ghost use Rattle.fk_core.specs.Cores.Goings.{IsReachable};

use crate::cores::turns::Core;
use fk_jobs::JobMachine;
use fk_model::{Move, NoMemory, Who};
use fk_natives::Service;
use fk_responders::Table;
use fk_served::asking::left_by;

impl<S: Service + Drop, W: JobMachine + Drop> Core<S, W> {
    /// Hands over the turn of a port's server, where its client receives, and answers whether it did; else all is as before.
    fn pass_at(&mut self, table: &Table, port: Who) -> bool
        requires few { self.old.events < self.old.budget }
        requires other { is_porter self.old.jobs port ≡ false }
        requires asked { asked self.old.services.list (world self.old.kernel) port ≡ Some asks.Over }
        requires ready { self.old.services.ready ≡ true }
        requires fits { AllFit (map (λ r. r.rule) table.now.list.items) self.old.services.list }
        ensures made { OnTrue result (IsAdvanced self.old.jobs.jobs self.old.budget (run_core self.old) (Some (act_of port)) (run_core self.new)) }
        ensures kernel { OnFalse result (self.new.kernel ≡ self.old.kernel) }
        ensures events { OnFalse result (self.new.events ≡ self.old.events) }
        ensures services { OnFalse result (self.new.services.list ≡ self.old.services.list) }
        ensures queue { OnFalse result (self.new.jobs ≡ self.old.jobs) }
        ensures fits { AllFit (map (λ r. r.rule) table.now.list.items) self.new.services.list }
        ensures budget { self.new.budget ≡ self.old.budget }
        ensures jobs { self.new.jobs.jobs ≡ self.old.jobs.jobs }
    {
        if !self.kernel.pass(port) {
            return false;
        }
        self.services.hear_over(table, port);
        self.events += 1;
        self.rounds.hear(Some(port));
        self.settle();
        true
    }

    /// Makes the act of the server of a port, where it is at its own turn and its client receives, and answers whether it did; else, and for want of memory,
    /// all is as before. Its words go from where they stand into its client's page.
    #[inline(never)]
    pub(crate) fn act_at(&mut self, table: &Table, port: Who) -> bool
        requires few { self.old.events < self.old.budget }
        requires other { is_porter self.old.jobs port ≡ false }
        requires fits { AllFit (map (λ r. r.rule) table.now.list.items) self.old.services.list }
        ensures made { OnTrue result (IsAdvanced self.old.jobs.jobs self.old.budget (run_core self.old) (Some (act_of port)) (run_core self.new)) }
        ensures kernel { OnFalse result (self.new.kernel ≡ self.old.kernel) }
        ensures events { OnFalse result (self.new.events ≡ self.old.events) }
        ensures services { OnFalse result (self.new.services.list ≡ self.old.services.list) }
        ensures queue { OnFalse result (self.new.jobs ≡ self.old.jobs) }
        ensures fits { AllFit (map (λ r. r.rule) table.now.list.items) self.new.services.list }
        ensures budget { self.new.budget ≡ self.old.budget }
        ensures jobs { self.new.jobs.jobs ≡ self.old.jobs.jobs }
    {
        let Ok(()) = self.services.reserve() else {
            return false;
        };
        let Some(left) = left_by(&self.kernel, &self.services, port) else {
            return false;
        };
        if left.is_empty() {
            return self.pass_at(table, port);
        }
        let Some(count) = self.kernel.give(port, left) else {
            return false;
        };
        self.services.hear_given(table, port, count);
        self.events += 1;
        self.rounds.hear(Some(port));
        self.settle();
        true
    }

    /// The port whose server heard of the last move, but where the look goes round and where the budget is used.
    fn heard(&self) -> Option<Who>
        ensures few { IsSome result → self.now.events < self.now.budget }
        ensures other { IfSome result (λ port. is_porter self.now.jobs port ≡ false) }
    {
        let Some(port) = self.rounds.heard(&self.moment()) else {
            return None;
        };
        if self.is_porter(port) {
            return None;
        }
        Some(port)
    }

    /// Makes the act of the server that heard of the last move, where it is at its own turn and its client receives.
    fn act_on(&mut self, table: &Table) -> Option<Move>
        requires fits { AllFit (map (λ r. r.rule) table.now.list.items) self.old.services.list }
        ensures advanced { IsAdvanced self.old.jobs.jobs self.old.budget (run_core self.old) result (run_core self.new) }
        ensures fits { AllFit (map (λ r. r.rule) table.now.list.items) self.new.services.list }
        ensures budget { self.new.budget ≡ self.old.budget }
        ensures jobs { self.new.jobs.jobs ≡ self.old.jobs.jobs }
    {
        let Some(port) = self.heard() else {
            return None;
        };
        if self.act_at(table, port) {
            return Some(Move {
                who: port,
                pick: None,
            });
        }
        None
    }

    /// Makes the act of the server that heard of the last move, or else any move that is ready, of whoever comes next.
    pub(crate) fn go_answered(&mut self, table: &Table) -> Result<Option<Move>, NoMemory>
        requires fits { AllFit (map (λ r. r.rule) table.now.list.items) self.old.services.list }
        requires come { IsReachable self.old }
        ensures made { IsAdvancedOrOver self.old.jobs.jobs self.old.budget (run_core self.old) (run_core self.new) result }
        ensures fits { AllFit (map (λ r. r.rule) table.now.list.items) self.new.services.list }
        ensures budget { self.new.budget ≡ self.old.budget }
        ensures jobs { self.new.jobs.jobs ≡ self.old.jobs.jobs }
    {
        match self.act_on(table) {
            Some(m) => Ok(Some(m)),
            None => self.go_ready(table),
        }
    }

    /// Makes a move of a user or a server where it is ready, by what it asks for: a server's act where its words stand.
    pub(crate) fn go_acting(&mut self, table: &Table, m: &Move) -> Result<bool, NoMemory>
        requires other { is_porter self.old.jobs m.now.who ≡ false }
        requires few { self.old.events < self.old.budget }
        requires fits { AllFit (map (λ r. r.rule) table.now.list.items) self.old.services.list }
        ensures tried { IsTried (IsAskedMove self.old.jobs.jobs (run_core self.old) m.now)
            (may_lack_asked (run_core self.old) m.now ≡ true) self.old.jobs.jobs (run_core self.old) m.now (run_core self.new) result }
        ensures lacking_kernel { OnErr result (self.new.kernel ≡ self.old.kernel) }
        ensures fits { AllFit (map (λ r. r.rule) table.now.list.items) self.new.services.list }
        ensures budget { self.new.budget ≡ self.old.budget }
        ensures jobs { self.new.jobs.jobs ≡ self.old.jobs.jobs }
    {
        if m.pick.is_some() {
            return self.go_asked(table, m);
        }
        if self.act_at(table, m.who) {
            return Ok(true);
        }
        self.go_asked(table, m)
    }
}
