//! How a run ends.
ghost use Rattle.std.specs.Prelude.{◌↔◌, IsTrue};
ghost use Rattle.fk_core.specs.Moment.Moments.{seen, IsAnyMove};
ghost use Rattle.fk_core.specs.Moment.Ends.{IsAtRest, IsEnded};
ghost use Rattle.fk_served.specs.Kernels.{world_of as world};

use crate::moment::moment::Moment;
use fk_jobs::JobMachine;
use fk_natives::Service;
use fk_report::{End, all_halted};

impl<'a, S: Service + Drop, W: JobMachine + Drop> Moment<'a, S, W> {
    /// How the run has ended: with the budget used while a move is ready, or with none ready, and then whether every user
    /// thread has halted. It hasn't while a move is ready and the budget has one more.
    pub fn ended(&self) -> Option<End>
        ensures { IsEnded self.now.jobs.now.jobs self.now.budget (seen self.now) result }
    {
        if !self.has_move() {
            Some(self.at_rest())
        } else if self.is_below_budget() {
            None
        } else {
            Some(End::Budget)
        }
    }

    /// How a run ends in which no move is ready.
    fn at_rest(&self) -> End
        ensures { IsAtRest (world self.now.kernel.now) result }
    {
        if all_halted(self.kernel.store()) {
            End::Halted
        } else {
            End::Quiet
        }
    }

    /// Whether a move is left: one is ready, whatever the budget.
    pub fn has_move(&self) -> bool
        ensures { IsTrue result ↔ IsAnyMove self.now.jobs.now.jobs (seen self.now) }
    {
        self.find().is_some()
    }
}
