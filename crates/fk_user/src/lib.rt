//! Instructions: what one instruction of a running thread comes to, over the pages of its space.
//!
//! It stands on `fk_plans`, `fk_isa` and `fk_stages`, and promises that its verdict stands for the
//! outcome of the instruction in the abstract machine, and can be carried out. `enters` tells of a call
//! alone whether it is the instruction. `asked` is what a word asks for, also of a thread that has no kernel.
#![tactic(auto)]

ghost use Rattle.std.specs.Prelude.{◌≡◌, ℕ, List, Some, true, false};
ghost use Rattle.std.specs.Bool.{OnTrue};
ghost use Rattle.fk_plans.specs.declared.plans.plan.Verdict.TheVariants as verdicts;
ghost use Rattle.fk_model.specs.Calls.{todo_of};
ghost use Rattle.fk_store.specs.Store.Bodies.{thread_by};
ghost use Rattle.fk_store.specs.Store.Paths.{path, place};
ghost use Rattle.fk_store.specs.Store.World.{world};
ghost use Rattle.fk_plans.specs.Plans.Effects.{is_running};
ghost use Rattle.fk_plans.specs.Plans.Plans.{caller_by};
ghost use Rattle.fk_plans.specs.Plans.Verdicts.{outcome_by, IsVerdict, IsSureVerdict};
ghost use Rattle.fk_user.specs.Effects.{IsInstruction, verdict_of};
ghost use Rattle.fk_user.specs.Running.{run_at};
ghost use Rattle.fk_model.specs.Searches.{thread_at};

mod effect;

use effect::{effect_of, is_entry};
pub use effect::{Instruction, asked};
use fk_changes::readers::Caller;
use fk_model::{Mode, Thread};
use fk_plans::{Effect, Verdict};
use fk_store::Store;

/// What the instruction of a running thread comes to. It is the thread of the caller's name.
#[tactic(auto, unfolding(crate::specs::Running::run_at))]
#[inline(always)]
pub fn instruction(store: &Store, caller: Caller, thread: &Thread) -> Instruction
    requires user { caller.is_porter ≡ false }
    requires there { Some (thread_by (path store.now) thread.now) ≡ thread_at (world store.now) (place (path store.now) caller.who) }
    requires running { is_running (thread_at (world store.now) (place (path store.now) caller.who)) ≡ true }
    ensures row { (words : List ℕ) → outcome_by (world store.now)
        (path store.now) (caller_by (path store.now) caller words) (verdict_of result) ≡ run_at todo_of (world store.now) (place (path store.now) caller.who) }
    ensures fits { IsVerdict store.now caller (verdict_of result) }
    ensures instruction { IsInstruction store.now thread.now.regs (verdict_of result) }
    ensures sure { IsSureVerdict (verdict_of result) }
{
    match thread.mode {
        Mode::Running => effect_of(store, caller.who, thread),
        _ => unreachable!(),
    }
}

/// The instruction of a running thread is a call, and its registers name one, so that the thread enters it. Where its word isn't at hand it may be so
/// and isn't told. It is the thread of the caller's name.
#[tactic(auto, unfolding(crate::specs::Running::run_at))]
#[inline(always)]
pub fn enters(store: &Store, caller: Caller, thread: &Thread) -> bool
    requires user { caller.is_porter ≡ false }
    requires there { Some (thread_by (path store.now) thread.now) ≡ thread_at (world store.now) (place (path store.now) caller.who) }
    requires running { is_running (thread_at (world store.now) (place (path store.now) caller.who)) ≡ true }
    ensures row { OnTrue result ((words : List ℕ) → outcome_by (world store.now) (path store.now) (caller_by (path store.now) caller words)
        (verdicts.Runs Effect.Enters) ≡ run_at todo_of (world store.now) (place (path store.now) caller.who)) }
    ensures fits { OnTrue result (IsVerdict store.now caller (verdicts.Runs Effect.Enters)) }
    ensures instruction { OnTrue result (IsInstruction store.now thread.now.regs (verdicts.Runs Effect.Enters)) }
{
    match thread.mode {
        Mode::Running => is_entry(store, caller.who, thread),
        _ => unreachable!(),
    }
}

/// What the instruction of a running thread comes to, as a verdict on the thread's stage.
pub fn judge(store: &Store, caller: Caller, thread: &Thread) -> Verdict
    requires user { caller.is_porter ≡ false }
    requires there { Some (thread_by (path store.now) thread.now) ≡ thread_at (world store.now) (place (path store.now) caller.who) }
    requires running { is_running (thread_at (world store.now) (place (path store.now) caller.who)) ≡ true }
    ensures row { (words : List ℕ) → outcome_by (world store.now)
        (path store.now) (caller_by (path store.now) caller words) result ≡ run_at todo_of (world store.now) (place (path store.now) caller.who) }
    ensures fits { IsVerdict store.now caller result }
    ensures instruction { IsInstruction store.now thread.now.regs result }
    ensures sure { IsSureVerdict result }
{
    instruction(store, caller, thread).verdict()
}
