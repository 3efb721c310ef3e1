//! What a move comes to.
ghost use Rattle.std.specs.Prelude.{◌≡◌, ℕ, List, length, Option, true, false, Some, IsSome, IfSome, IfNone};
ghost use Rattle.fk_model.specs.declared.moves.Ask.TheVariants as asks;
ghost use Rattle.fk_model.specs.Holds as holds;
ghost use Rattle.fk_model.specs.Moves.{IsReady};
ghost use Rattle.fk_model.specs.Outcomes.Outcome.{Waits};
ghost use Rattle.fk_model.specs.Places.{Path};
ghost use Rattle.fk_model.specs.Valid.{IsValid};
ghost use Rattle.fk_model.specs.Searches.{thread_at};
ghost use Rattle.fk_plans.specs.Plans.Effects.{is_running};
ghost use Rattle.fk_store.specs.Store.Bodies.{mode_by, thread_by};
ghost use Rattle.fk_store.specs.Store.Paths.{path, place};
ghost use Rattle.fk_store.specs.Store.Threads.{is_free_at};
ghost use Rattle.fk_store.specs.Store.World.{world, IsSpace};
ghost use Rattle.fk_calls.specs.Acts.Acts.{is_act};
ghost use Rattle.fk_calls.specs.Calls.Doings.{IsAtStage};
ghost use Rattle.fk_calls.specs.Calls.Judgements.{IsJudged, IsMoving, IsReadyMove, outcome_of, words_of};
ghost use Rattle.fk_calls.specs.Calls.Rows.{are_given, are_given_for};

use crate::calls::codes::begins_with_send;
use crate::calls::doing::{Doing, doing_of, is_free_porter, next_of};
use crate::calls::rows;
use fk_changes::readers::Caller;
use fk_model::{Ask, Mode, Move, Stage, Thread, Turn, Who};
use fk_plans::{Moving, Verdict};
use fk_store::Store;
use fk_transfer::moving;

/// Who moves, whether its stage may pick, and what the move comes to.
#[derive(Clone, Copy)]
pub struct Judgement {
    pub caller: Caller,
    pub chooses: bool,
    pub verdict: Verdict,
}

/// What the move of a user or a porter comes to; none where it is never ready.
pub fn judge(store: &Store, m: &Move, ask: &Ask) -> Option<Judgement>
    requires valid { IsValid (world store.now) }
    requires thread { is_act ask.now ≡ false }
    requires words { are_given_for ask.now ≡ true }
    ensures judged { IfSome result (λ judgement. IsJudged store.now m.now ask.now judgement) }
    ensures never { IfNone result (IsReadyMove store.now m.now ask.now → ⊥) }
{
    match ask {
        Ask::Run => judge_user(store, m),
        Ask::Call { stage, words } => judge_porter(store, m, stage, words),
        Ask::Accept | Ask::Give { .. } | Ask::Over => unreachable!(),
    }
}

/// The words that a porter gives; a user gives none.
pub fn given(ask: &Ask) -> &[u64]
    ensures { result.now ≡ words_of ask.now }
{
    match ask {
        Ask::Call { words, .. } => words,
        Ask::Run | Ask::Accept | Ask::Give { .. } | Ask::Over => &[],
    }
}

/// The free user that runs whose instruction a move is.
#[inline(always)]
pub fn running<'a>(store: &'a Store, who: Who, ask: &Ask) -> Option<&'a Thread>
    ensures run { IsSome result → ask.now ≡ asks.Run }
    ensures free { IsSome result → is_free_at (world store.now) (place (path store.now) who) ≡ true }
    ensures running { IsSome result → is_running (thread_at (world store.now) (place (path store.now) who)) ≡ true }
    ensures there { IfSome result (λ thread. Some (thread_by (path store.now) thread.now) ≡ thread_at (world store.now) (place (path store.now) who)) }
{
    match ask {
        Ask::Run => running_user(store, who),
        Ask::Call { .. } | Ask::Accept | Ask::Give { .. } | Ask::Over => None,
    }
}

/// Whether a free user is in a slot. Else no move of it is ready, whomever it picks. So who looks for a ready move
/// asks this first, which needs no judgement.
pub fn may_move(store: &Store, who: Who) -> bool
    ensures { result ≡ false → (pick : Option Path) → IsReady (world store.now) (place (path store.now) who) pick asks.Run → ⊥ }
{
    match free_user(store, who) {
        Some(_) => true,
        None => false,
    }
}

/// The free user in a slot, where it runs.
#[inline(always)]
pub fn running_user<'a>(store: &'a Store, who: Who) -> Option<&'a Thread>
    ensures free { IsSome result → is_free_at (world store.now) (place (path store.now) who) ≡ true }
    ensures running { IsSome result → is_running (thread_at (world store.now) (place (path store.now) who)) ≡ true }
    ensures there { IfSome result (λ thread. Some (thread_by (path store.now) thread.now) ≡ thread_at (world store.now) (place (path store.now) who)) }
{
    match free_user(store, who) {
        Some(thread) => match thread.mode {
            Mode::Running => Some(thread),
            Mode::Calling | Mode::Halted(_) | Mode::Native => None,
        },
        None => None,
    }
}

/// The free user in a slot.
#[tactic(auto, unfolding(fk_store::specs::Store::Threads::is_free_at))]
#[inline(always)]
pub fn free_user<'a>(store: &'a Store, who: Who) -> Option<&'a Thread>
    ensures free { IsSome result → is_free_at (world store.now) (place (path store.now) who) ≡ true }
    ensures held { IfNone result (is_free_at (world store.now) (place (path store.now) who) ≡ false) }
    ensures space { IsSome result → IsSpace store.now who.space }
    ensures there { IfSome result (λ thread. Some (thread_by (path store.now) thread.now) ≡ thread_at (world store.now) (place (path store.now) who)) }
    ensures sized { IfSome result (λ thread. length thread.now.regs ≡ 16) }
{
    match store.thread(who) {
        Some(thread) => {
            if is_free(store, who, thread) {
                Some(thread)
            } else {
                None
            }
        }
        None => None,
    }
}

/// The thread in a slot is a free user.
#[tactic(auto, unfolding(fk_store::specs::Store::Threads::is_free_at))]
#[inline(always)]
fn is_free(store: &Store, who: Who, thread: &Thread) -> bool
    requires there { Some (thread_by (path store.now) thread.now) ≡ thread_at (world store.now) (place (path store.now) who) }
    ensures { result ≡ is_free_at (world store.now) (place (path store.now) who) }
{
    !is_held(store, who.space)
        && thread.stops == 0
        && thread.fault.is_none()
        && is_user(thread.mode)
}

/// A space is held, or one above it. Mostly nothing is held at all.
#[inline(always)]
fn is_held(store: &Store, space: u32) -> bool
    ensures { result ≡ holds.is_frozen (world store.now) (path store.now space) }
{
    if !store.is_any_held() {
        return false;
    }
    store.is_frozen(space)
}

/// Whether a thread in this mode runs or calls.
#[inline(always)]
pub fn is_user(mode: Mode) -> bool
    ensures { (registers : List ℕ) → result ≡ holds.is_user (mode_by mode registers) }
{
    match mode {
        Mode::Running | Mode::Calling => true,
        Mode::Halted(_) | Mode::Native => false,
    }
}

/// The words that a move of a free user sends to a thread that receives them; none where it isn't so.
pub fn moving_of(store: &Store, m: &Move, ask: &Ask) -> Option<Moving>
    requires valid { IsValid (world store.now) }
    ensures { IfSome result (λ moving. IsMoving store.now m.now ask.now moving) }
{
    match ask {
        Ask::Run => user_moving(store, m),
        Ask::Call { .. } | Ask::Accept | Ask::Give { .. } | Ask::Over => None,
    }
}

/// The words that a move of a user sends to a thread that receives them; none where it isn't so.
fn user_moving(store: &Store, m: &Move) -> Option<Moving>
    requires valid { IsValid (world store.now) }
    ensures { IfSome result (λ moving. IsMoving store.now m.now asks.Run moving) }
{
    // Other calls needn't be looked at.
    if !begins_with_send(store.thread(m.who)?.regs[0]) {
        return None;
    }
    if !store.is_free(m.who) {
        return None;
    }
    match doing_of(store, m.who) {
        Doing::Stage(stage) => stage_moving(store, m, &stage),
        Doing::Instruction | Doing::Nothing => None,
    }
}

/// The words that this stage of a free user, the first of its call, sends to a thread that receives them; none where it isn't so.
fn stage_moving(store: &Store, m: &Move, stage: &Stage) -> Option<Moving>
    requires valid { IsValid (world store.now) }
    requires free { is_free_at (world store.now) (place (path store.now) m.now.who) ≡ true }
    requires at { IsAtStage (world store.now) (place (path store.now) m.now.who) stage.now }
    ensures { IfSome result (λ moving. IsMoving store.now m.now asks.Run moving) }
{
    let caller = Caller {
        who: m.who,
        is_porter: false,
    };
    match *stage {
        Stage::ClientSend { addr, count } => moving(store, caller, Turn::Client, addr, count),
        Stage::ServerSend { addr, count } => moving(store, caller, Turn::Server, addr, count),
        _ => None,
    }
}

/// What the move of a user comes to.
fn judge_user(store: &Store, m: &Move) -> Option<Judgement>
    requires valid { IsValid (world store.now) }
    ensures judged { IfSome result (λ judgement. IsJudged store.now m.now asks.Run judgement) }
    ensures never { IfNone result (outcome_of store.now m.now asks.Run ≡ Waits) }
{
    let thread = match free_user(store, m.who) {
        Some(thread) => thread,
        None => return None,
    };
    let caller = Caller {
        who: m.who,
        is_porter: false,
    };
    match next_of(thread) {
        Doing::Instruction => Some(Judgement {
            caller,
            chooses: false,
            verdict: fk_user::judge(store, caller, thread),
        }),
        Doing::Stage(stage) => Some(Judgement {
            caller,
            chooses: rows::chooses(&stage),
            verdict: rows::judge(store, caller, &[], &stage, m.pick),
        }),
        Doing::Nothing => None,
    }
}

/// What a stage that a porter asks for comes to.
#[inline(never)]
fn judge_porter(store: &Store, m: &Move, stage: &Stage, words: &[u64; 64]) -> Option<Judgement>
    requires valid { IsValid (world store.now) }
    requires words { are_given stage.now words.now ≡ true }
    ensures judged { IfSome result (λ judgement. IsJudged store.now m.now (asks.Call stage.now words.now) judgement) }
    ensures never { IfNone result (outcome_of store.now m.now (asks.Call stage.now words.now) ≡ Waits) }
{
    if !is_free_porter(store, m.who) {
        return None;
    }
    let caller = Caller {
        who: m.who,
        is_porter: true,
    };
    Some(Judgement {
        caller,
        chooses: rows::chooses(stage),
        verdict: rows::judge(store, caller, words, stage, m.pick),
    })
}
