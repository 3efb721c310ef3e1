//! Carrying a verdict out.
ghost use Rattle.std.specs.Prelude.{◌≡◌, ℕ, Bool, List, false, true, IfOk, IsOk, OnErr, OnOk, length};
ghost use Rattle.fk_model.specs.Moves.{closed, stepped};
ghost use Rattle.fk_model.specs.Outcomes.Outcome.{Refused};
ghost use Rattle.fk_model.specs.World.{apply, apply_all};
ghost use Rattle.fk_store.specs.Store.Moves.{said_by};
ghost use Rattle.fk_store.specs.Store.Paths.{path, place};
ghost use Rattle.fk_store.specs.Store.World.{world, IsLive};
ghost use Rattle.fk_plans.specs.declared.plans.plan.News as news_of;
ghost use Rattle.fk_plans.specs.declared.plans.plan.Plan as plans;
ghost use Rattle.fk_plans.specs.Plans.Plans.{caller_by, change_by, changes_by, IsDeed, IsPlan, IsSure};
ghost use Rattle.fk_plans.specs.Plans.Verdicts.{hearer, outcome_by, news_by, tells, IsNews, IsPlanOf, IsRecordOf, IsVerdict, IsSureVerdict};
ghost use Rattle.fk_plans.specs.Plans.Hearers.{told_port, IsPadded};

use crate::plans::blocks::{copy_page, send_block};
use crate::plans::destroying::destroy;
use crate::plans::instructions::run;
use crate::plans::making::{make, make_held};
use crate::plans::moving::{hand_over, send_words};
use crate::plans::plan::{Deed, News, Plan, Verdict};
use crate::plans::recording::{Record, set_record, told_record, write_record};
use crate::plans::renaming::rename;
use crate::plans::sources::give;
use crate::plans::telling::{said_of, told, told_four, told_page};
use crate::plans::waking::wake_sleepers;
use fk_changes::readers::Caller;
use fk_changes::threads::{
    Answers, Four, advance, answered, count_moved, end_well, fall_asleep, finish, wake,
};
use fk_model::status::OK;
use fk_model::{NoMemory, Said, Who};
use fk_store::Store;

/// Does a deed.
fn carry(store: &mut Store, deed: &Deed)
    requires fits { IsDeed (path store.old) (world store.old) deed.now }
    ensures world { world store.new ≡ apply (change_by (path store.old) deed.now (world store.old)) (world store.old) }
    ensures paths { path store.new ≡ path store.old }
{
    match *deed {
        Deed::Locks { mutex, locked } => store.set_locked(mutex, locked),
        Deed::Points { object, to } => store.point(object, to),
        Deed::Wakes { thread, mutex } => wake(store, thread, mutex),
        Deed::Sleeps {
            thread,
            cond,
            mutex,
        } => fall_asleep(store, thread, cond, mutex),
        Deed::Records { object, to, at } => write_record(store, object, to, at),
        Deed::Sends(block) => send_block(store, block),
        Deed::Counts { client, count } => count_moved(store, client, count),
        Deed::Shifts { thread, count } => advance(store, thread, u64::from(count)),
        Deed::Ends { thread, status } => store.end_call(thread, status),
        Deed::Finishes { thread, came } => finish(store, thread, answered(came)),
        Deed::Passes { client, turn } => store.pass_turn(client, turn),
        Deed::Unlinks { client } => store.set_talk(client, None),
        Deed::Links { client, talk } => store.set_talk(client, Some(talk)),
        Deed::Serves { client, peer } => store.set_peer(client, peer),
        Deed::Frees { thread } => store.set_fault(thread, None),
        Deed::Raises { thread, fault } => store.set_fault(thread, Some(fault)),
        Deed::Takes { thread, taker } => store.set_taker(thread, Some(taker)),
        Deed::Holds { space, holder } => store.set_holder(space, holder),
        Deed::Stops { thread, stops } => store.set_stops(thread, stops),
        Deed::Copies { from, to } => copy_page(store, from, to),
        Deed::Drops { space, page } => store.drop_page(space, page),
    }
}

/// Does all of a plan. For want of memory all stays as it was.
///
/// # Errors
///
/// There is no memory for an object or a page; the store is as before then.
#[tactic(auto, unfolding(fk_model::specs::World::apply_all))]
pub fn carry_all(
    store: &mut Store,
    caller: Caller,
    given: &[u64],
    plan: &Plan,
) -> Result<(), NoMemory>
    requires fits { IsPlanOf store.old caller plan.now }
    requires given { caller.is_porter ≡ true → length given.now ≡ 64 }
    ensures world { OnOk result (world store.new ≡ apply_all (changes_by (path store.old) given.now plan.now (world store.old)) (world store.old)) }
    ensures err { OnErr result (store.new ≡ store.old) }
    ensures sure { IsSure plan.now → IsOk result }
    ensures places { (other : Who) → IsLive store.old other → place (path store.new) other ≡ place (path store.old) other }
{
    match plan {
        Plan::Nothing => {}
        Plan::One(a) => carry(store, a),
        Plan::Two(a, b) => {
            carry(store, a);
            carry(store, b);
        }
        Plan::Moves {
            block,
            client,
            receiver,
            sender,
        } => send_words(store, *block, *client, *receiver, *sender),
        Plan::HandsOver {
            reference,
            to,
            receiver,
            client,
            turn,
        } => hand_over(store, *reference, *to, *receiver, *client, *turn),
        Plan::Makes { object, kind } => return make(store, *object, *kind),
        Plan::MakesHeld { object, holder } => return make_held(store, *object, *holder),
        Plan::Gives {
            space,
            page,
            source,
        } => return give(store, given, *space, *page, *source),
    }
    Ok(())
}

/// Does all of a plan, and then the caller's stage is done.
fn finish_all(
    store: &mut Store,
    caller: Caller,
    given: &[u64],
    plan: &Plan,
    answers: Answers,
) -> Result<Said, NoMemory>
    requires live { caller.is_porter ≡ false → IsLive store.old caller.who }
    requires fits { IsVerdict store.old caller (Verdict.Done plan.now answers) }
    requires given { caller.is_porter ≡ true → length given.now ≡ 64 }
    ensures step { IfOk result (λ said. let c = caller_by (path store.old) caller given.now in
        stepped (world store.old) (closed c (outcome_by (world store.old) (path store.old) c (Verdict.Done plan.now answers)))
        ≡ record { world = world store.new; said = said_by (path store.new) said }) }
    ensures padded { IfOk result (λ said. IsPadded said) }
    ensures err { OnErr result (store.new ≡ store.old) }
    ensures sure { IsSure plan.now → IsOk result }
{
    carry_all(store, caller, given, plan)?;
    if caller.is_porter {
        return Ok(told(OK, answers));
    }
    finish(store, caller.who, answers);
    Ok(Said::Nothing)
}

/// Does all of a plan, and then the caller's whole call ends well.
fn end_all(
    store: &mut Store,
    caller: Caller,
    given: &[u64],
    plan: &Plan,
    answers: Four,
) -> Result<Said, NoMemory>
    requires live { caller.is_porter ≡ false → IsLive store.old caller.who }
    requires fits { IsPlanOf store.old caller plan.now }
    requires given { caller.is_porter ≡ true → length given.now ≡ 64 }
    ensures step { IfOk result (λ said. let c = caller_by (path store.old) caller given.now in
        stepped (world store.old) (closed c (outcome_by (world store.old) (path store.old) c (Verdict.Ends plan.now answers)))
        ≡ record { world = world store.new; said = said_by (path store.new) said }) }
    ensures padded { IfOk result (λ said. IsPadded said) }
    ensures err { OnErr result (store.new ≡ store.old) }
    ensures sure { IsSure plan.now → IsOk result }
{
    carry_all(store, caller, given, plan)?;
    if caller.is_porter {
        return Ok(told_four(answers));
    }
    end_well(store, caller.who, answers);
    Ok(Said::Nothing)
}

/// Carries out a verdict on the first stage of a call, and ends the caller's own part. A porter gives
/// 64 words, a user any. For want of memory all stays as it was.
///
/// # Errors
///
/// There is no memory for an object or a page; the store is as before then.
pub fn carry_out(
    store: &mut Store,
    caller: Caller,
    given: &[u64],
    verdict: &Verdict,
) -> Result<Said, NoMemory>
    requires live { caller.is_porter ≡ false → IsLive store.old caller.who }
    requires fits { IsVerdict store.old caller verdict.now }
    requires given { caller.is_porter ≡ true → length given.now ≡ 64 }
    ensures step { IfOk result (λ said. let c = caller_by (path store.old) caller given.now in
        stepped (world store.old) (closed c (outcome_by (world store.old) (path store.old) c verdict.now))
        ≡ record { world = world store.new; said = said_by (path store.new) said }) }
    ensures padded { IfOk result (λ said. IsPadded said) }
    ensures told { (plan : plans.Plan) (news : news_of.News) (last : Bool) →
        verdict.now ≡ Verdict.Tells plan news last → IfOk result (λ said. told_port said ≡ hearer news) }
    ensures err { OnErr result (store.new ≡ store.old) }
    ensures sure { IsSureVerdict verdict.now → IsOk result }
{
    match verdict {
        Verdict::Runs(effect) => run(store, caller.who, *effect),
        Verdict::Refused(status) => return Ok(refuse(store, caller, *status)),
        Verdict::Waits => {}
        Verdict::Done(plan, answers) => {
            return finish_all(store, caller, given, plan, *answers);
        }
        Verdict::Ends(plan, answers) => {
            return end_all(store, caller, given, plan, *answers);
        }
        Verdict::Shows { plan, space, page } => {
            let said = told_page(store, *space, *page);
            carry_all(store, caller, given, plan)?;
            return Ok(said);
        }
        Verdict::ShowsRecord { object } => return Ok(told_record(store, *object)),
        Verdict::Sets { object, from } => {
            return Ok(finish_set(store, caller, given, *object, *from));
        }
        Verdict::Renames { object, slot } => return Ok(rename(store, caller, *object, *slot)),
        Verdict::Destroys { object, last } => return Ok(destroy(store, caller, *object, *last)),
        Verdict::WakesAll { cond } => wake_sleepers(store, caller, *cond),
        Verdict::Goes(plan) => carry_all(store, caller, given, plan)?,
        Verdict::Tells { plan, news, last } => {
            return tell(store, caller, given, plan, news, *last);
        }
        Verdict::Faults { page, write, port } => {
            store.raise(caller.who, *page, *write, *port);
        }
    }
    Ok(Said::Nothing)
}

/// Makes of an object what a record says, and then the caller's stage is done.
fn finish_set(store: &mut Store, caller: Caller, given: &[u64], object: Who, from: Record) -> Said
    requires fits { IsRecordOf store.old caller from }
    requires given { caller.is_porter ≡ true → length given.now ≡ 64 }
    ensures step { let c = caller_by (path store.old) caller given.now in
        stepped (world store.old) (closed c (outcome_by (world store.old) (path store.old) c (Verdict.Sets object from)))
        ≡ record { world = world store.new; said = said_by (path store.new) result } }
    ensures padded { IsPadded result }
{
    set_record(store, given, object, from);
    if caller.is_porter {
        return told(OK, Answers::Nothing);
    }
    finish(store, caller.who, Answers::Nothing);
    Said::Nothing
}

/// Does all of a plan, tells a native server, and then a user's stage may be done.
fn tell(
    store: &mut Store,
    caller: Caller,
    given: &[u64],
    plan: &Plan,
    news: &News,
    last: bool,
) -> Result<Said, NoMemory>
    requires user { caller.is_porter ≡ false }
    requires live { IsLive store.old caller.who }
    requires news { IsNews store.old news.now }
    requires fits { IsPlanOf store.old caller plan.now }
    ensures step { IfOk result (λ said. let c = caller_by (path store.old) caller given.now in
        stepped (world store.old) (tells c (changes_by (path store.old) given.now plan.now (world store.old))
        (news_by (world store.old) (path store.old) news.now) last)
        ≡ record { world = world store.new; said = said_by (path store.new) said }) }
    ensures padded { IfOk result (λ said. IsPadded said) }
    ensures told { IfOk result (λ said. told_port said ≡ hearer news.now) }
    ensures err { OnErr result (store.new ≡ store.old) }
    ensures sure { IsSure plan.now → IsOk result }
{
    let said = said_of(store, news);
    carry_all(store, caller, given, plan)?;
    if last {
        finish(store, caller.who, Answers::Nothing);
    }
    Ok(said)
}

/// The stage of a caller is refused: the call of a user ends with the status, a porter is told it.
#[tactic(auto, unfolding(fk_model::specs::World::apply_all))]
fn refuse(store: &mut Store, caller: Caller, status: u8) -> Said
    ensures step { (words : List ℕ) → let c = caller_by (path store.old) caller words in
        stepped (world store.old) (closed c (Refused status)) ≡ record { world = world store.new; said = said_by (path store.new) result } }
    ensures padded { IsPadded result }
{
    if caller.is_porter {
        return told(status, Answers::Nothing);
    }
    store.end_call(caller.who, status);
    Said::Nothing
}
