//! Words that go to a thread that receives them.
ghost use Rattle.std.specs.Prelude.{◌≡◌, false, List, ℕ};
ghost use Rattle.fk_model.specs.Moves.{closed, stepped};
ghost use Rattle.fk_model.specs.Outcomes.Said.{Nothing};
ghost use Rattle.fk_model.specs.World.{apply_all};
ghost use Rattle.fk_store.specs.Store.Paths.{path};
ghost use Rattle.fk_store.specs.Store.World.{world, IsLive};
ghost use Rattle.fk_plans.specs.Plans.Movings.{plan_of, verdict_of};
ghost use Rattle.fk_plans.specs.Plans.Plans.{caller_by, changes_by, IsPlan};
ghost use Rattle.fk_plans.specs.Plans.Verdicts.{outcome_by};

use crate::plans::blocks::{Block, send_block};
use crate::plans::plan::{Moving, Plan};
use fk_changes::readers::Caller;
use fk_changes::threads::{Answers, advance, answered, count_moved, finish};
use fk_model::{Ptr, Turn, Who};
use fk_store::Store;

/// Words of a page go to a page of a receiver, and its talk and both ends have moved so many more.
#[tactic(auto, unfolding(fk_model::specs::World::apply_all))]
pub fn send_words(store: &mut Store, block: Block, client: Who, receiver: Who, sender: Who)
    requires fits { IsPlan (path store.old) (world store.old) (Plan.Moves block client receiver sender) }
    ensures world { (given : List ℕ) → world store.new
        ≡ apply_all (changes_by (path store.old) given (Plan.Moves block client receiver sender) (world store.old)) (world store.old) }
    ensures paths { path store.new ≡ path store.old }
{
    let count = u64::from(block.count);
    send_block(store, block);
    count_moved(store, client, block.count);
    advance(store, receiver, count);
    advance(store, sender, count);
}

/// A reference takes a pointer, the receive of the thread that awaited it is done, and the turn is this
/// side's.
#[tactic(auto, unfolding(fk_model::specs::World::apply_all))]
pub fn hand_over(store: &mut Store, reference: Who, to: Ptr, receiver: Who, client: Who, turn: Turn)
    requires fits { IsPlan (path store.old) (world store.old) (Plan.HandsOver reference to receiver client turn) }
    ensures world { (given : List ℕ) → world store.new
        ≡ apply_all (changes_by (path store.old) given (Plan.HandsOver reference to receiver client turn) (world store.old)) (world store.old) }
    ensures paths { path store.new ≡ path store.old }
{
    store.point(reference, to);
    finish(store, receiver, answered(Some(true)));
    store.pass_turn(client, turn);
}

/// Makes what words that move come to: they go to the receiver, and with the last of them the sender's
/// stage is done.
#[tactic(auto, unfolding(fk_model::specs::World::apply_all))]
pub fn move_words(store: &mut Store, caller: Caller, moving: &Moving)
    requires user { caller.is_porter ≡ false }
    requires live { IsLive store.old caller.who }
    requires fits { IsPlan (path store.old) (world store.old) (plan_of moving.now) }
    ensures step { (words : List ℕ) → let c = caller_by (path store.old) caller words in
        stepped (world store.old) (closed c (outcome_by (world store.old) (path store.old) c (verdict_of moving.now)))
        ≡ record { world = world store.new; said = Nothing } }
{
    send_words(
        store,
        moving.block,
        moving.client,
        moving.receiver,
        moving.sender,
    );
    if moving.last {
        finish(store, caller.who, Answers::Nothing);
    }
}
