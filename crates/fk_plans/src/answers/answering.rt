//! Carrying out what a porter's stage comes to.
ghost use Rattle.std.specs.Prelude.{◌≡◌, List, ℕ, true, IsOk, OnErr, OnOk, length};
ghost use Rattle.fk_model.specs.Moves.{closed, stepped};
ghost use Rattle.fk_store.specs.Store.Moves.{said_by};
ghost use Rattle.fk_store.specs.Store.Paths.{path};
ghost use Rattle.fk_store.specs.Store.World.{world};
ghost use Rattle.fk_plans.specs.Plans.Hearers.{IsPadded};
ghost use Rattle.fk_plans.specs.Plans.Plans.{caller_by, IsSure};
ghost use Rattle.fk_plans.specs.Plans.Verdicts.{outcome_by, IsPlanOf, IsRecordOf, IsVerdict, IsSureVerdict};
ghost use Rattle.fk_plans.specs.Answers.Rooms.{IsRoom};

use crate::answers::laying::{lay, lay_four, lay_page, lay_record};
use crate::plans::{Plan, Record, Verdict, carry_all, carry_out, set_record};
use fk_changes::readers::Caller;
use fk_changes::threads::{Answers, Four};
use fk_model::status::OK;
use fk_model::{NoMemory, Said, Who};
use fk_store::Store;

/// Does all of a plan, and then a porter's stage is done.
fn answer_plan(
    store: &mut Store,
    caller: Caller,
    given: &[u64],
    plan: &Plan,
    answers: Answers,
    said: &mut Said,
) -> Result<(), NoMemory>
    requires porter { caller.is_porter ≡ true }
    requires room { IsRoom said.old }
    requires fits { IsVerdict store.old caller (Verdict.Done plan.now answers) }
    requires given { length given.now ≡ 64 }
    ensures step { OnOk result (let c = caller_by (path store.old) caller given.now in
        stepped (world store.old) (closed c (outcome_by (world store.old) (path store.old) c (Verdict.Done plan.now answers)))
        ≡ record { world = world store.new; said = said_by (path store.new) said.new }) }
    ensures padded { OnOk result (IsPadded said.new) }
    ensures err { OnErr result (store.new ≡ store.old) }
    ensures sure { IsSure plan.now → IsOk result }
{
    carry_all(store, caller, given, plan)?;
    lay(said, OK, answers);
    Ok(())
}

/// Answers a porter's stage that is done with four numbers.
fn answer_four(
    store: &mut Store,
    caller: Caller,
    given: &[u64],
    plan: &Plan,
    answers: Four,
    said: &mut Said,
) -> Result<(), NoMemory>
    requires porter { caller.is_porter ≡ true }
    requires room { IsRoom said.old }
    requires fits { IsPlanOf store.old caller plan.now }
    requires given { length given.now ≡ 64 }
    ensures step { OnOk result (let c = caller_by (path store.old) caller given.now in
        stepped (world store.old) (closed c (outcome_by (world store.old) (path store.old) c (Verdict.Ends plan.now answers)))
        ≡ record { world = world store.new; said = said_by (path store.new) said.new }) }
    ensures padded { OnOk result (IsPadded said.new) }
    ensures err { OnErr result (store.new ≡ store.old) }
    ensures sure { IsSure plan.now → IsOk result }
{
    carry_all(store, caller, given, plan)?;
    lay_four(said, answers);
    Ok(())
}

/// Answers a porter's stage that shows a page as it was before.
fn answer_page(
    store: &mut Store,
    caller: Caller,
    given: &[u64],
    plan: &Plan,
    space: u32,
    page: u8,
    said: &mut Said,
) -> Result<(), NoMemory>
    requires room { IsRoom said.old }
    requires fits { IsVerdict store.old caller (Verdict.Shows plan.now space page) }
    requires given { length given.now ≡ 64 }
    ensures step { OnOk result (let c = caller_by (path store.old) caller given.now in
        stepped (world store.old) (closed c (outcome_by (world store.old) (path store.old) c (Verdict.Shows plan.now space page)))
        ≡ record { world = world store.new; said = said_by (path store.new) said.new }) }
    ensures padded { OnOk result (IsPadded said.new) }
    ensures err { OnErr result (store.new ≡ store.old) }
    ensures sure { IsSure plan.now → IsOk result }
{
    lay_page(store, said, space, page);
    carry_all(store, caller, given, plan)
}

/// Answers a porter's stage that shows a record.
fn answer_record(store: &Store, caller: Caller, object: Who, said: &mut Said)
    requires room { IsRoom said.old }
    requires fits { IsVerdict store.now caller (Verdict.ShowsRecord object) }
    ensures step { (words : List ℕ) → let c = caller_by (path store.now) caller words in
        stepped (world store.now) (closed c (outcome_by (world store.now) (path store.now) c (Verdict.ShowsRecord object)))
        ≡ record { world = world store.now; said = said_by (path store.now) said.new } }
    ensures padded { IsPadded said.new }
{
    lay_record(store, said, object);
}

/// Answers a porter's stage by which an object takes a record.
fn answer_set(
    store: &mut Store,
    caller: Caller,
    given: &[u64],
    object: Who,
    from: Record,
    said: &mut Said,
)
    requires porter { caller.is_porter ≡ true }
    requires room { IsRoom said.old }
    requires fits { IsRecordOf store.old caller from }
    requires given { length given.now ≡ 64 }
    ensures step { let c = caller_by (path store.old) caller given.now in
        stepped (world store.old) (closed c (outcome_by (world store.old) (path store.old) c (Verdict.Sets object from)))
        ≡ record { world = world store.new; said = said_by (path store.new) said.new } }
    ensures padded { IsPadded said.new }
{
    set_record(store, given, object, from);
    lay(said, OK, Answers::Nothing);
}

/// What any other verdict tells.
#[inline(never)]
fn answer_other(
    store: &mut Store,
    caller: Caller,
    given: &[u64],
    verdict: &Verdict,
    said: &mut Said,
) -> Result<(), NoMemory>
    requires porter { caller.is_porter ≡ true }
    requires fits { IsVerdict store.old caller verdict.now }
    requires given { length given.now ≡ 64 }
    ensures step { OnOk result (let c = caller_by (path store.old) caller given.now in
        stepped (world store.old) (closed c (outcome_by (world store.old) (path store.old) c verdict.now))
        ≡ record { world = world store.new; said = said_by (path store.new) said.new }) }
    ensures padded { OnOk result (IsPadded said.new) }
    ensures err { OnErr result (store.new ≡ store.old) }
    ensures sure { IsSureVerdict verdict.now → IsOk result }
{
    *said = carry_out(store, caller, given, verdict)?;
    Ok(())
}

/// Carries out a verdict on a stage of a porter, who gives 64 words, and lays what it tells into the room. For want of memory the store stays as it was.
///
/// # Errors
///
/// There is no memory for an object or a page; the store is as before then.
pub fn answer(
    store: &mut Store,
    caller: Caller,
    given: &[u64],
    verdict: &Verdict,
    said: &mut Said,
) -> Result<(), NoMemory>
    requires porter { caller.is_porter ≡ true }
    requires fits { IsVerdict store.old caller verdict.now }
    requires given { length given.now ≡ 64 }
    requires room { IsRoom said.old }
    ensures step { OnOk result (let c = caller_by (path store.old) caller given.now in
        stepped (world store.old) (closed c (outcome_by (world store.old) (path store.old) c verdict.now))
        ≡ record { world = world store.new; said = said_by (path store.new) said.new }) }
    ensures padded { OnOk result (IsPadded said.new) }
    ensures err { OnErr result (store.new ≡ store.old) }
    ensures sure { IsSureVerdict verdict.now → IsOk result }
{
    match verdict {
        Verdict::Refused(status) => {
            lay(said, *status, Answers::Nothing);
            Ok(())
        }
        Verdict::Done(plan, answers) => answer_plan(store, caller, given, plan, *answers, said),
        Verdict::Ends(plan, answers) => answer_four(store, caller, given, plan, *answers, said),
        Verdict::Shows { plan, space, page } => {
            answer_page(store, caller, given, plan, *space, *page, said)
        }
        Verdict::ShowsRecord { object } => {
            answer_record(store, caller, *object, said);
            Ok(())
        }
        Verdict::Sets { object, from } => {
            answer_set(store, caller, given, *object, *from, said);
            Ok(())
        }
        _ => answer_other(store, caller, given, verdict, said),
    }
}
