//! The match from a stage to its judge.
ghost use Rattle.std.specs.Prelude.{◌≡◌, Bool, Option, true, false, IfOk, length};
ghost use Rattle.fk_model.specs.Moves as machine;
ghost use Rattle.fk_model.specs.Moves.{allowed_row, stage_row};
ghost use Rattle.fk_model.specs.Places.{Path};
ghost use Rattle.fk_model.specs.Valid.{IsValid};
ghost use Rattle.fk_store.specs.Store.Moves.{picked_by};
ghost use Rattle.fk_store.specs.Store.Paths.{path, place};
ghost use Rattle.fk_store.specs.Store.Threads.{todo_at};
ghost use Rattle.fk_store.specs.Store.World.{world, IsLive, IsSpace};
ghost use Rattle.fk_plans.specs.Plans.Plans.{caller_by};
ghost use Rattle.fk_plans.specs.Plans.Verdicts.{Judges, JudgesGiven, IsVerdict, IsSureVerdict, outcome_by, outcome_of};
ghost use Rattle.fk_calls.specs.Calls.Rows as stages;
ghost use Rattle.fk_calls.specs.Calls.Rows.{are_given, takes_memory, IsFirst};

use fk_changes::readers::Caller;
use fk_faults::{fault_done, fault_park, fault_set};
use fk_links::{connect, disconnect, link_park, link_set, wait};
use fk_model::status::DENIED;
use fk_model::{Stage, Turn, Who};
use fk_objects::{clear, count_in, create, destroy, locate, point, rename, search};
use fk_plans::Verdict;
use fk_spaces::{
    hold_set, page_give, page_next, page_read, page_take, space_hold, space_make_held,
    space_release, thread_go, thread_stop,
};
use fk_state::{get_ptr, get_state, set_ptr, set_state};
use fk_store::Store;
use fk_sync::{
    cond_asleep, cond_broadcast, cond_signal, cond_wait, mutex_lock, mutex_trylock, mutex_unlock,
};
use fk_transfer::{over, over_ref, receive, receive_ref, send};

/// A stage that may pick whom it acts on.
pub fn chooses(stage: &Stage) -> bool
    ensures { result ≡ machine.chooses stage.now }
{
    matches!(stage, Stage::Wait { .. } | Stage::CondSignal { .. })
}

/// A stage by which a porter makes a talk or a fault again.
pub fn restores(stage: &Stage) -> bool
    ensures { result ≡ stages.restores stage.now }
{
    matches!(
        stage,
        Stage::LinkSet { .. }
            | Stage::LinkPark { .. }
            | Stage::FaultSet { .. }
            | Stage::FaultPark { .. }
    )
}

/// A stage that porters alone make: it makes a part of a saved subtree again, or counts pointers.
fn is_for_porters(stage: &Stage) -> bool
    ensures { result ≡ machine.is_for_porters stage.now }
{
    matches!(
        stage,
        Stage::CountIn { .. }
            | Stage::LinkSet { .. }
            | Stage::LinkPark { .. }
            | Stage::FaultSet { .. }
            | Stage::FaultPark { .. }
            | Stage::HoldSet { .. }
            | Stage::SpaceMakeHeld { .. }
    )
}

/// A stage that users alone make: on mutexes and conditions, or in a talk.
fn is_for_users(stage: &Stage) -> bool
    ensures { result ≡ machine.is_for_users stage.now }
{
    matches!(
        stage,
        Stage::MutexLock { .. }
            | Stage::MutexTrylock { .. }
            | Stage::MutexUnlock { .. }
            | Stage::CondWait { .. }
            | Stage::CondAsleep { .. }
            | Stage::CondSignal { .. }
            | Stage::CondBroadcast { .. }
            | Stage::Connect { .. }
            | Stage::ClientReceive { .. }
            | Stage::ClientSend { .. }
            | Stage::ClientOver
            | Stage::Disconnect
            | Stage::ClientOverRef { .. }
            | Stage::ClientReceiveRef { .. }
            | Stage::ServerReceive { .. }
            | Stage::ServerSend { .. }
            | Stage::ServerOver
            | Stage::ServerEnd
            | Stage::ServerOverRef { .. }
            | Stage::ServerReceiveRef { .. }
    )
}

/// What a stage comes to that users alone make, by its row.
#[inline(always)]
fn row_of_users(
    store: &Store,
    caller: Caller,
    stage: &Stage,
    pick: Option<Who>,
) -> Result<Verdict, u8>
    requires user { caller.is_porter ≡ false }
    requires live { IsLive store.now caller.who }
    requires valid { IsValid (world store.now) }
    requires first { IsFirst stage.now (todo_at (world store.now) (place (path store.now) caller.who)) }
    requires stage { machine.is_for_users stage.now ≡ true }
    ensures row { Judges store.now caller result (λ w c. stage_row w c (picked_by (path store.now) pick) stage.now) }
    ensures sure { IfOk result IsSureVerdict }
{
    match *stage {
        Stage::MutexLock { m } => mutex_lock(store, caller, m),
        Stage::MutexTrylock { m } => mutex_trylock(store, caller, m),
        Stage::MutexUnlock { m } => mutex_unlock(store, caller, m),
        Stage::CondWait { c, m } => cond_wait(store, caller, c, m),
        Stage::CondAsleep { c, m } => cond_asleep(store, caller, c, m),
        Stage::CondSignal { c } => cond_signal(store, caller, c, pick),
        Stage::CondBroadcast { c } => cond_broadcast(store, caller, c),
        Stage::Connect { h } => connect(store, caller, h),
        Stage::ClientReceive { addr, room } => receive(store, caller, Turn::Client, addr, room),
        Stage::ClientSend { addr, count } => send(store, caller, Turn::Client, addr, count),
        Stage::ClientOver => over(store, caller, Turn::Client),
        Stage::ClientOverRef { reference } => over_ref(store, caller, Turn::Client, reference),
        Stage::ClientReceiveRef {
            addr,
            room,
            reference,
        } => receive_ref(store, caller, Turn::Client, addr, room, reference),
        Stage::Disconnect => disconnect(store, caller, Turn::Client),
        Stage::ServerReceive { addr, room } => receive(store, caller, Turn::Server, addr, room),
        Stage::ServerSend { addr, count } => send(store, caller, Turn::Server, addr, count),
        Stage::ServerOver => over(store, caller, Turn::Server),
        Stage::ServerOverRef { reference } => over_ref(store, caller, Turn::Server, reference),
        Stage::ServerReceiveRef {
            addr,
            room,
            reference,
        } => receive_ref(store, caller, Turn::Server, addr, room, reference),
        Stage::ServerEnd => disconnect(store, caller, Turn::Server),
        _ => unreachable!(),
    }
}

/// What a stage comes to that porters alone make, by its row, with the words that the porter gives.
#[inline(always)]
fn row_of_porters(
    store: &Store,
    caller: Caller,
    given: &[u64],
    stage: &Stage,
) -> Result<Verdict, u8>
    requires space { IsSpace store.now caller.who.space }
    requires live { IsLive store.now caller.who }
    requires given { length given.now ≡ 64 }
    requires words { are_given stage.now given.now ≡ true }
    requires stage { machine.is_for_porters stage.now ≡ true }
    ensures row { (pick : Option Path) → JudgesGiven store.now caller given.now result (λ w c. stage_row w c pick stage.now) }
    ensures sure { takes_memory true stage.now ≡ false → IfOk result IsSureVerdict }
{
    match *stage {
        Stage::CountIn { base, s, x } => count_in(store, caller, base, s, x),
        Stage::LinkSet { s, x, port, server } => {
            link_set(store, caller, given, s, x, port, server)
        }
        Stage::LinkPark { s, x, port } => link_park(store, caller, given, s, x, port),
        Stage::FaultSet { s, x, port, taker } => fault_set(store, caller, given, s, x, port, taker),
        Stage::FaultPark { s, x, port, taken } => {
            fault_park(store, caller, given, s, x, port, taken)
        }
        Stage::HoldSet { s, x, thread } => hold_set(store, caller, s, x, thread),
        Stage::SpaceMakeHeld { x } => space_make_held(store, caller, x),
        _ => unreachable!(),
    }
}

/// What a stage comes to that anybody makes, by its row. A porter gives these words.
#[inline(always)]
fn row_of_anybody(
    store: &Store,
    caller: Caller,
    given: &[u64],
    stage: &Stage,
    pick: Option<Who>,
) -> Result<Verdict, u8>
    requires space { IsSpace store.now caller.who.space }
    requires live { IsLive store.now caller.who }
    requires valid { IsValid (world store.now) }
    requires first { IsFirst stage.now (todo_at (world store.now) (place (path store.now) caller.who)) }
    requires given { caller.is_porter ≡ true → length given.now ≡ 64 }
    requires users { machine.is_for_users stage.now ≡ false }
    requires porters { machine.is_for_porters stage.now ≡ false }
    ensures row { JudgesGiven store.now caller given.now result (λ w c. stage_row w c (picked_by (path store.now) pick) stage.now) }
    ensures sure { (is_porter : Bool) → takes_memory is_porter stage.now ≡ false → IfOk result IsSureVerdict }
{
    match *stage {
        Stage::Create { s, x, kind } => create(store, caller, s, x, kind),
        Stage::Destroy { s, x } => destroy(store, caller, s, x),
        Stage::Rename { s, x, y } => rename(store, caller, s, x, y),
        Stage::Search { s, from } => search(store, caller, s, from),
        Stage::Point { s, x, s2, x2 } => point(store, caller, s, x, s2, x2),
        Stage::Clear { s, x } => clear(store, caller, s, x),
        Stage::Locate { reference, s } => locate(store, caller, reference, s),
        Stage::GetState { s, x, addr } => get_state(store, caller, s, x, addr),
        Stage::SetState { s, x, addr } => set_state(store, caller, given, s, x, addr),
        Stage::GetPtr {
            s,
            x,
            field: n,
            reference: r,
        } => get_ptr(store, caller, s, x, n, r),
        Stage::SetPtr {
            s,
            x,
            field: n,
            reference: r,
        } => set_ptr(store, caller, s, x, n, r),
        Stage::SpaceHold { s, x } => space_hold(store, caller, s, x),
        Stage::SpaceRelease { s, x } => space_release(store, caller, s, x),
        Stage::ThreadStop { h } => thread_stop(store, caller, h),
        Stage::ThreadGo { h } => thread_go(store, caller, h),
        Stage::PageGive { s, page, addr } => page_give(store, caller, s, page, addr),
        Stage::PageTake { s, page, addr } => page_take(store, caller, s, page, addr),
        Stage::PageRead { s, page, addr } => page_read(store, caller, s, page, addr),
        Stage::PageNext { s, from } => page_next(store, caller, s, from),
        Stage::Wait { set } => wait(store, caller, set, pick),
        Stage::FaultDone => fault_done(store, caller),
        _ => unreachable!(),
    }
}

/// What a stage comes to that users alone make. A porter is denied it.
#[inline(always)]
fn judged_of_users(
    store: &Store,
    caller: Caller,
    stage: &Stage,
    pick: Option<Who>,
) -> Result<Verdict, u8>
    requires live { IsLive store.now caller.who }
    requires valid { IsValid (world store.now) }
    requires first { IsFirst stage.now (todo_at (world store.now) (place (path store.now) caller.who)) }
    requires stage { machine.is_for_users stage.now ≡ true }
    ensures row { Judges store.now caller result (λ w c. allowed_row w c (picked_by (path store.now) pick) stage.now) }
    ensures sure { IfOk result IsSureVerdict }
{
    if caller.is_porter {
        return Err(DENIED);
    }
    row_of_users(store, caller, stage, pick)
}

/// What a stage comes to that porters alone make, with the words that a porter gives. A user is denied it.
#[inline(always)]
fn judged_of_porters(
    store: &Store,
    caller: Caller,
    given: &[u64],
    stage: &Stage,
) -> Result<Verdict, u8>
    requires space { IsSpace store.now caller.who.space }
    requires live { IsLive store.now caller.who }
    requires given { caller.is_porter ≡ true → length given.now ≡ 64 }
    requires words { caller.is_porter ≡ true → are_given stage.now given.now ≡ true }
    requires stage { machine.is_for_porters stage.now ≡ true }
    ensures row { (pick : Option Path) → JudgesGiven store.now caller given.now result (λ w c. allowed_row w c pick stage.now) }
    ensures sure { takes_memory caller.is_porter stage.now ≡ false → IfOk result IsSureVerdict }
{
    if caller.is_porter {
        return row_of_porters(store, caller, given, stage);
    }
    Err(DENIED)
}

/// What a stage comes to, where a porter gives these words, or why it is refused. One for the other kind of caller is
/// denied.
///
/// # Errors
///
/// DENIED for the other kind of caller, and else the status with which its judge refuses it.
#[inline(always)]
pub fn judged(
    store: &Store,
    caller: Caller,
    given: &[u64],
    stage: &Stage,
    pick: Option<Who>,
) -> Result<Verdict, u8>
    requires space { IsSpace store.now caller.who.space }
    requires live { IsLive store.now caller.who }
    requires valid { IsValid (world store.now) }
    requires first { IsFirst stage.now (todo_at (world store.now) (place (path store.now) caller.who)) }
    requires given { caller.is_porter ≡ true → length given.now ≡ 64 }
    requires words { caller.is_porter ≡ true → are_given stage.now given.now ≡ true }
    ensures row { let c = caller_by (path store.now) caller given.now in
        outcome_of (world store.now) (path store.now) c result ≡ allowed_row (world store.now) c (picked_by (path store.now) pick) stage.now }
    ensures fits { IfOk result (IsVerdict store.now caller) }
    ensures sure { takes_memory caller.is_porter stage.now ≡ false → IfOk result IsSureVerdict }
{
    if is_for_users(stage) {
        return judged_of_users(store, caller, stage, pick);
    }
    if is_for_porters(stage) {
        return judged_of_porters(store, caller, given, stage);
    }
    row_of_anybody(store, caller, given, stage, pick)
}

/// What a stage comes to, as a verdict: a refusal is one too.
pub fn judge(
    store: &Store,
    caller: Caller,
    given: &[u64],
    stage: &Stage,
    pick: Option<Who>,
) -> Verdict
    requires space { IsSpace store.now caller.who.space }
    requires live { IsLive store.now caller.who }
    requires valid { IsValid (world store.now) }
    requires first { IsFirst stage.now (todo_at (world store.now) (place (path store.now) caller.who)) }
    requires given { caller.is_porter ≡ true → length given.now ≡ 64 }
    requires words { caller.is_porter ≡ true → are_given stage.now given.now ≡ true }
    ensures row { let c = caller_by (path store.now) caller given.now in
        outcome_by (world store.now) (path store.now) c result ≡ allowed_row (world store.now) c (picked_by (path store.now) pick) stage.now }
    ensures fits { IsVerdict store.now caller result }
    ensures sure { takes_memory caller.is_porter stage.now ≡ false → IsSureVerdict result }
{
    match judged(store, caller, given, stage, pick) {
        Ok(verdict) => verdict,
        Err(status) => Verdict::Refused(status),
    }
}
