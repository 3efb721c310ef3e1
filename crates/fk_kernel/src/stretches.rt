//! Instructions of a thread, one after the other, where its pages stand.
ghost use Rattle.std.specs.Prelude.{◌≡◌, ◌≤◌, ◌<◌, true, None};
ghost use Rattle.std.specs.Bool.{OnTrue, OnFalse};
ghost use Rattle.fk_model.specs.declared.moves.Ask.TheVariants as asks;
ghost use Rattle.fk_model.specs.Outcomes.Said.{Nothing};
ghost use Rattle.fk_model.specs.Searches.{thread_at};
ghost use Rattle.fk_model.specs.Who.{event_of, named};
ghost use Rattle.fk_plans.specs.Plans.Effects.{is_running};
ghost use Rattle.fk_kernel.specs.Events.{step_of, IsReadyEvent};
ghost use Rattle.fk_kernel.specs.Kernels.{world_of};
ghost use Rattle.fk_kernel.specs.Stretches.{IsBurst};

use crate::Kernel;
use fk_model::Who;
use fk_plans::wakes::Touched;
use fk_turns::steps::after_still;

impl Kernel {
    /// Makes instructions of the thread in a slot, at most so many, and says how many they were: up to one that is a call, would halt, or needs
    /// a page that its space hasn't itself. It makes none where the thread doesn't run or isn't free to. Where it makes none, all stays as it
    /// is.
    pub fn run_on(&mut self, thread: Who, most: u64) -> u64
        ensures ran { 0 < result → IsBurst (world_of self.old) (named (world_of self.old) thread) result (world_of self.new) }
        ensures none { result ≡ 0 → self.new ≡ self.old }
        ensures few { result ≤ most }
    {
        self.store.names();
        let made = fk_stretch::run(&mut self.store, thread, most);
        if made == 0 {
            return 0;
        }
        // And so they do in the world that is left.
        self.store.names();
        let alone = Touched::Few {
            first: None,
            second: None,
            third: None,
        };
        after_still(&mut self.turns, &self.store, thread, &alone, true);
        made
    }

    /// Enters the call at which the thread in a slot is, where it runs, its registers name one and the move is ready, and answers whether it did; else all
    /// stays as it is.
    pub fn enter(&mut self, thread: Who) -> bool
        ensures made { OnTrue result (IsReadyEvent (world_of self.old) (event_of (world_of self.old) asks.Run (record { who = thread; pick = None }))
            × (step_of (world_of self.old) (event_of (world_of self.old) asks.Run (record { who = thread; pick = None }))
            ≡ record { world = world_of self.new; said = Nothing })) }
        ensures ran { OnTrue result (is_running (thread_at (world_of self.old) (named (world_of self.old) thread)) ≡ true) }
        ensures same { OnFalse result (self.new ≡ self.old) }
    {
        self.store.names();
        fk_turns::steps::enter(&mut self.store, &mut self.turns, thread)
    }
}
