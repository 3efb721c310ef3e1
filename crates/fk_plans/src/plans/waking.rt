//! Falling asleep on a condition, and waking all who sleep there.
ghost use Rattle.std.specs.Prelude.{◌≡◌, ◌≤◌, ℕ, List, [], false};
ghost use Rattle.fk_model.specs.declared.stage.Stage.TheVariants.{CondWait};
ghost use Rattle.fk_model.specs.Moves.{closed, stepped};
ghost use Rattle.fk_model.specs.Outcomes.{done};
ghost use Rattle.fk_model.specs.Outcomes.Said.{Nothing};
ghost use Rattle.fk_model.specs.SyncRows.{sleepers};
ghost use Rattle.fk_store.specs.Store.Paths.{path, place};
ghost use Rattle.fk_store.specs.Store.Threads.{todo_at};
ghost use Rattle.fk_store.specs.Store.World.{world};
ghost use Rattle.fk_changes.specs.Threads.Firsts.{IsFirst};
ghost use Rattle.fk_plans.specs.Plans.Plans.{caller_by};
ghost use Rattle.fk_plans.specs.Plans.Verdicts.{IsVerdict};

use crate::plans::plan::{Deed, Plan, Verdict};
use fk_changes::readers::Caller;
use fk_changes::threads::{Answers, finish, wake_all};
use fk_model::Who;
use fk_store::Store;

/// Each thread of a user's space that sleeps on a condition wakes up, and then the user's stage is
/// done.
pub fn wake_sleepers(store: &mut Store, caller: Caller, cond: u64)
    requires user { caller.is_porter ≡ false }
    ensures step { (words : List ℕ) → let c = caller_by (path store.old) caller words in
        stepped (world store.old) (closed c (done c (sleepers (world store.old) c.space cond) []))
        ≡ record { world = world store.new; said = Nothing } }
{
    wake_all(store, caller.who.space, cond);
    finish(store, caller.who, Answers::Nothing);
}

/// A mutex of the caller's space is unlocked, and the caller, who is about to wait on a condition,
/// falls asleep.
pub fn sleeps(store: &Store, caller: Caller, cond: u64, m: u64) -> Verdict
    requires slot { m ≤ 255 }
    requires first { IsFirst (CondWait cond m) (todo_at (world store.now) (place (path store.now) caller.who)) }
    ensures verdict { result ≡ Verdict.Goes (Plan.Two (Deed.Locks (record { space = caller.who.space; slot = m }) false) (Deed.Sleeps caller.who cond m)) }
    ensures fits { IsVerdict store.now caller result }
{
    let mutex = Who {
        space: caller.who.space,
        slot: m as u8,
    };
    let thread = caller.who;
    let locked = false;
    Verdict::Goes(Plan::Two(
        Deed::Locks { mutex, locked },
        Deed::Sleeps {
            thread,
            cond,
            mutex: m,
        },
    ))
}
