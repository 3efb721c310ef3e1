//! Which moves are ready, and making them.
ghost use Rattle.std.specs.Prelude.{◌≡◌, ◌↔◌, ◌&&◌, ℕ, List, None, true, false, IsTrue, IsOk, IfOk, OnErr, option_map, if◌then◌else◌};
ghost use Rattle.std.specs.Bool.{OnTrue, OnFalse};
ghost use Rattle.fk_model.specs.declared.moves.Ask.TheVariants as asks;
ghost use Rattle.fk_model.specs.Valid.{IsValid};
ghost use Rattle.fk_model.specs.Searches.{thread_at};
ghost use Rattle.fk_plans.specs.Plans.Effects.{effect_by, is_running, of_running, IsEffect};
ghost use Rattle.fk_plans.specs.Plans.Hearers.{IsPadded};
ghost use Rattle.fk_store.specs.Store.Moves.{picked_by};
ghost use Rattle.fk_store.specs.Store.Paths.{path, place, HasOwnPath};
ghost use Rattle.fk_store.specs.Store.World.{world};
ghost use Rattle.fk_calls.specs.Acts.Acts.{is_act};
ghost use Rattle.fk_calls.specs.Calls.Judgements.{client_by, is_fit_move, IsEnded, IsMoving, IsReadyMove, IsRun, IsStepTo, TellsTouched, may_lack};
ghost use Rattle.fk_plans.specs.Plans.Verdicts.{hearer_of, IsVerdict};
ghost use Rattle.fk_store.specs.Store.Named.{Each};
ghost use Rattle.fk_calls.specs.Calls.Tried.{IsMade, HasEnded, IsTold, IsToldPadded, IsUnready, IsLacking, TellsOf};
ghost use Rattle.fk_calls.specs.Calls.Runs.{has_run, has_run_on, is_under_way_at, leaves_running, touched_by};
ghost use Rattle.fk_plans.specs.Wakes.Touches.{is_making};
ghost use Rattle.fk_calls.specs.Calls.Rows as stages;
ghost use Rattle.fk_calls.specs.Calls.Rows.{are_given_for};

use crate::calls::judging::{given, judge, moving_of, running, running_user};
use crate::calls::rows::restores;
use crate::calls::taking::raise_judged;
use fk_changes::readers::Caller;
use fk_model::{Ask, Move, NoMemory, Said, Stage, Who};
use fk_plans::endings::ended_by;
use fk_plans::wakes::{Touched, touched_by_move};
use fk_plans::{
    Effect, Moving, News, Verdict, carry_out, is_effect_ready, is_moving_ready, is_ready,
    make_effect, move_words,
};
use fk_store::Store;
use fk_user::Instruction;

/// What a move tells, and the port whose native server lost its client by it, if one did.
#[derive(Clone, Copy)]
pub struct Told {
    pub said: Said,
    pub ended: Option<Who>,
}

/// Whether a move is ready. It may name what isn't there, which is never ready. It needn't be fit.
pub fn ready(store: &Store, m: &Move, ask: &Ask) -> bool
    requires valid { IsValid (world store.now) }
    ensures { IsTrue result ↔ IsReadyMove store.now m.now ask.now }
{
    match ask {
        Ask::Run => ready_user(store, m),
        Ask::Call { stage, .. } => {
            if restores(stage) {
                return may_restore(store, m, stage);
            }
            ready_given(store, m, ask)
        }
        Ask::Accept | Ask::Give { .. } | Ask::Over => crate::acts::ready(store, m, ask),
    }
}

/// Whether a user's move is ready. Most are instructions. They need no judgement, which is large.
fn ready_user(store: &Store, m: &Move) -> bool
    requires valid { IsValid (world store.now) }
    ensures { IsTrue result ↔ IsReadyMove store.now m.now asks.Run }
{
    if let Some(thread) = running(store, m.who, &Ask::Run) {
        let caller = Caller {
            who: m.who,
            is_porter: false,
        };
        if let Instruction::Runs(effect) = fk_user::instruction(store, caller, thread) {
            return is_effect_ready(store, caller, m.pick, &effect);
        }
    }
    ready_given(store, m, &Ask::Run)
}

/// Whether a porter's move that makes a talk or a fault again is ready. It is so whatever words the
/// porter gives, and is judged by some that are in range.
fn may_restore(store: &Store, m: &Move, stage: &Stage) -> bool
    requires valid { IsValid (world store.now) }
    requires restores { stages.restores stage.now ≡ true }
    ensures { (words : List ℕ) → IsTrue result ↔ IsReadyMove store.now m.now (asks.Call stage.now words) }
{
    let ask = Ask::Call {
        stage: *stage,
        // Whether the move is ready hangs on no word, but the judge wants words in range.
        words: [1; 64],
    };
    ready_given(store, m, &ask)
}

/// Whether a move is ready for which a porter's words are in range.
fn ready_given(store: &Store, m: &Move, ask: &Ask) -> bool
    requires valid { IsValid (world store.now) }
    requires thread { is_act ask.now ≡ false }
    requires words { are_given_for ask.now ≡ true }
    ensures { IsTrue result ↔ IsReadyMove store.now m.now ask.now }
{
    match judge(store, m, ask) {
        Some(j) => is_ready(store, j.caller, j.chooses, m.pick, &j.verdict),
        None => false,
    }
}

/// Makes a move where it is ready, and gives what it tells, and the port whose native server lost its
/// client by it; none where it isn't ready, and then all stays as it is. It is fit. For want of memory all stays as
/// it was; a stage that makes an object or a page may want it.
///
/// # Errors
///
/// There is no memory for an object or a page that the move makes; all is as before then.
pub fn attempt(
    store: &mut Store,
    m: &Move,
    ask: &Ask,
    touched: &mut Touched,
) -> Result<Option<Told>, NoMemory>
    requires valid { IsValid (world store.old) }
    requires fit { is_fit_move store.old m.now ask.now ≡ true }
    ensures made { IfOk result (IsMade store.old m.now ask.now store.new) }
    ensures ended { IfOk result (HasEnded store.old store.new) }
    ensures heard { IfOk result (IsTold store.old store.new) }
    ensures padded { IfOk result IsToldPadded }
    ensures touched { IfOk result (TellsOf store.old m.now ask.now touched.new) }
    ensures unready { IfOk result (IsUnready store.old m.now ask.now store.new) }
    ensures lacking { OnErr result (IsLacking store.old m.now ask.now store.new) }
    ensures sure { may_lack store.old m.now ask.now ≡ false → IsOk result }
{
    match ask {
        Ask::Call { .. } => attempt_judged(store, m, ask, touched),
        Ask::Run | Ask::Accept | Ask::Give { .. } | Ask::Over => attempt_other(
            store, m, ask, touched,
        ),
    }
}

/// Makes a move of a user or a native server where it is ready, and gives what it tells, and the port whose native server lost its client by it; none
/// where it isn't ready. It stands apart, since a porter's call needs none of the room for what these tell.
#[inline(never)]
fn attempt_other(
    store: &mut Store,
    m: &Move,
    ask: &Ask,
    touched: &mut Touched,
) -> Result<Option<Told>, NoMemory>
    requires valid { IsValid (world store.old) }
    requires fit { is_fit_move store.old m.now ask.now ≡ true }
    ensures made { IfOk result (IsMade store.old m.now ask.now store.new) }
    ensures ended { IfOk result (HasEnded store.old store.new) }
    ensures heard { IfOk result (IsTold store.old store.new) }
    ensures padded { IfOk result IsToldPadded }
    ensures touched { IfOk result (TellsOf store.old m.now ask.now touched.new) }
    ensures unready { IfOk result (IsUnready store.old m.now ask.now store.new) }
    ensures lacking { OnErr result (IsLacking store.old m.now ask.now store.new) }
    ensures sure { may_lack store.old m.now ask.now ≡ false → IsOk result }
{
    match ask {
        Ask::Accept | Ask::Give { .. } | Ask::Over => return Ok(attempt_act(
            store, m, ask, touched,
        )),
        Ask::Run | Ask::Call { .. } => {}
    }
    // Most moves are instructions. They need no judgement, which is large.
    if let Some(thread) = running(store, m.who, ask) {
        let caller = Caller {
            who: m.who,
            is_porter: false,
        };
        if let Instruction::Runs(effect) = fk_user::instruction(store, caller, thread) {
            let registers = thread.regs;
            let counter = thread.pc;
            return Ok(attempt_instruction(store, m, ask, registers, counter, effect, touched));
        }
    }
    // Words that go to a receiver need none either.
    if let Some(moving) = moving_of(store, m, ask) {
        return Ok(attempt_moving(store, m, ask, &moving, touched));
    }
    attempt_judged(store, m, ask, touched)
}

/// Makes an act of a native server where it is ready, and gives what it tells; none where it isn't ready.
fn attempt_act(store: &mut Store, m: &Move, ask: &Ask, touched: &mut Touched) -> Option<Told>
    requires valid { IsValid (world store.old) }
    requires act { is_act ask.now ≡ true }
    ensures made { IsMade store.old m.now ask.now store.new result }
    ensures ended { HasEnded store.old store.new result }
    ensures heard { IsTold store.old store.new result }
    ensures padded { IsToldPadded result }
    ensures touched { TellsOf store.old m.now ask.now touched.new result }
    ensures unready { IsUnready store.old m.now ask.now store.new result }
{
    let client = client_of(store, m, ask);
    match crate::acts::attempt(store, m, ask) {
        // By no act does a server lose its client.
        Some(said) => {
            *touched = Touched::Few {
                first: client,
                second: None,
                third: None,
            };
            Some(Told { said, ended: None })
        }
        None => None,
    }
}

/// The client of a native server's act: the one that it picks, or has.
fn client_of(store: &Store, m: &Move, ask: &Ask) -> Option<Who>
    requires valid { IsValid (world store.now) }
    ensures { option_map (place (path store.now)) result
        ≡ client_by (world store.now) (place (path store.now) m.now.who) (picked_by (path store.now) m.now.pick) ask.now }
{
    match ask {
        Ask::Accept => m.pick,
        Ask::Run | Ask::Call { .. } | Ask::Give { .. } | Ask::Over => store.client_at(m.who),
    }
}

/// What came of a thread's instruction.
#[derive(Clone, Copy)]
pub enum Ran {
    /// It was made, and the thread runs on.
    On,
    /// It was made, and the thread halts or enters a call.
    Off,
    /// It raised a fault.
    Raised,
    /// None was made.
    Not,
}

/// Makes the next instruction of the user in a slot, or raises the fault that it comes to, where it runs and that is ready, and tells what came of it; else
/// all stays as it is. What a fault touches is laid into `touched`. No server loses its client by it. So nobody needs room here for what moves tell.
pub fn run(store: &mut Store, who: Who, touched: &mut Touched) -> Ran
    requires valid { IsValid (world store.old) }
    ensures made { OnTrue (has_run result) (IsReadyMove store.old (record { who = who; pick = None }) asks.Run
        × IsStepTo store.old (record { who = who; pick = None }) asks.Run store.new Said.Nothing) }
    ensures ended { OnTrue (has_run result) (IsEnded store.old store.new None) }
    ensures touched { OnTrue (has_run result)
        (TellsTouched store.old (record { who = who; pick = None }) asks.Run (touched_by result touched.new)) }
    ensures few { is_making (touched_by result touched.new) ≡ false }
    ensures ran { OnTrue (has_run result) (is_running (thread_at (world store.old) (place (path store.old) who)) ≡ true) }
    ensures on { OnTrue (has_run_on result) (is_under_way_at store.new who ≡ true) }
    ensures same { OnFalse (has_run result) (store.new ≡ store.old) }
{
    let Some(thread) = running_user(store, who) else {
        return Ran::Not;
    };
    let caller = Caller {
        who,
        is_porter: false,
    };
    match fk_user::instruction(store, caller, thread) {
        Instruction::Runs(effect) => {
            let registers = thread.regs;
            let counter = thread.pc;
            let m = Move { who, pick: None };
            let made = make_instruction(store, &m, registers, counter, effect);
            ran_by(made, effect)
        }
        Instruction::Faults { page, write, port } => {
            let verdict = Verdict::Faults { page, write, port };
            raised_by(raise_judged(store, who, &verdict, touched))
        }
    }
}

/// What came of an instruction that raises a fault.
#[inline(always)]
fn raised_by(raised: bool) -> Ran
    ensures made { has_run result ≡ raised }
    ensures on { has_run_on result ≡ false }
    ensures touched { (touched : Touched) → touched_by result touched ≡ (if raised then touched else Touched.Few None None None) }
{
    if raised {
        return Ran::Raised;
    }
    Ran::Not
}

/// What came of an instruction with this effect.
#[inline(always)]
fn ran_by(made: bool, effect: Effect) -> Ran
    ensures made { has_run result ≡ made }
    ensures touched { (touched : Touched) → touched_by result touched ≡ Touched.Few None None None }
    ensures on { has_run_on result ≡ (made && leaves_running effect) }
{
    if !made {
        return Ran::Not;
    }
    match effect {
        Effect::Puts { .. } | Effect::Jumps { .. } | Effect::Stores { .. } => Ran::On,
        Effect::Halts { .. } | Effect::Enters => Ran::Off,
    }
}

/// Attempts an instruction with this effect on these registers at this counter.
#[inline(always)]
fn attempt_instruction(
    store: &mut Store,
    m: &Move,
    ask: &Ask,
    registers: [u64; 16],
    counter: u64,
    effect: Effect,
    touched: &mut Touched,
) -> Option<Told>
    requires valid { IsValid (world store.old) }
    requires run { ask.now ≡ asks.Run }
    requires judged { IsRun store.old m.now asks.Run effect }
    requires at { of_running (effect_by (world store.old) (path store.old) (place (path store.old) m.now.who) effect)
        (thread_at (world store.old) (place (path store.old) m.now.who))
        ≡ effect_by (world store.old) (path store.old) (place (path store.old) m.now.who) effect registers counter }
    requires effect { IsEffect (path store.old) (world store.old) registers effect }
    ensures made { IsMade store.old m.now ask.now store.new result }
    ensures ended { HasEnded store.old store.new result }
    ensures heard { IsTold store.old store.new result }
    ensures padded { IsToldPadded result }
    ensures touched { TellsOf store.old m.now ask.now touched.new result }
    ensures unready { IsUnready store.old m.now ask.now store.new result }
{
    if make_instruction(store, m, registers, counter, effect) {
        *touched = Touched::Few {
            first: None,
            second: None,
            third: None,
        };
        Some(Told {
            said: Said::Nothing,
            ended: None,
        })
    } else {
        None
    }
}

/// Makes an instruction with this effect on these registers at this counter, where it is ready, and answers whether it is.
#[inline(always)]
pub fn make_instruction(
    store: &mut Store,
    m: &Move,
    registers: [u64; 16],
    counter: u64,
    effect: Effect,
) -> bool
    requires valid { IsValid (world store.old) }
    requires judged { IsRun store.old m.now asks.Run effect }
    requires at { of_running (effect_by (world store.old) (path store.old) (place (path store.old) m.now.who) effect)
        (thread_at (world store.old) (place (path store.old) m.now.who))
        ≡ effect_by (world store.old) (path store.old) (place (path store.old) m.now.who) effect registers counter }
    requires effect { IsEffect (path store.old) (world store.old) registers effect }
    ensures made { OnTrue result (IsReadyMove store.old m.now asks.Run × IsStepTo store.old m.now asks.Run store.new Said.Nothing) }
    ensures ended { OnTrue result (IsEnded store.old store.new None) }
    ensures on { OnTrue result (leaves_running effect ≡ true → is_under_way_at store.new m.now.who ≡ true) }
    ensures unready { OnFalse result ((IsReadyMove store.old m.now asks.Run → ⊥) × (store.new ≡ store.old)) }
{
    let caller = Caller {
        who: m.who,
        is_porter: false,
    };
    if !is_effect_ready(store, caller, m.pick, &effect) {
        return false;
    }
    // Tells that names and paths agree.
    store.names();
    make_effect(store, m.who, registers, counter, effect);
    true
}

/// Moves words to a thread that receives them, where that is ready, and gives what it tells; none where it isn't.
fn attempt_moving(
    store: &mut Store,
    m: &Move,
    ask: &Ask,
    moving: &Moving,
    touched: &mut Touched,
) -> Option<Told>
    requires valid { IsValid (world store.old) }
    requires judged { IsMoving store.old m.now ask.now moving.now }
    ensures made { IsMade store.old m.now ask.now store.new result }
    ensures ended { HasEnded store.old store.new result }
    ensures heard { IsTold store.old store.new result }
    ensures padded { IsToldPadded result }
    ensures touched { TellsOf store.old m.now ask.now touched.new result }
    ensures unready { IsUnready store.old m.now ask.now store.new result }
{
    let caller = Caller {
        who: m.who,
        is_porter: false,
    };
    if !is_moving_ready(store, caller, m.pick, moving) {
        return None;
    }
    // Tells that names and paths agree.
    store.names();
    move_words(store, caller, moving);
    *touched = Touched::Few {
        first: Some(moving.client),
        second: Some(moving.receiver),
        third: Some(moving.sender),
    };
    Some(Told {
        said: Said::Nothing,
        ended: None,
    })
}

/// Makes any move of a user or a porter where it is ready, and gives what it tells; none where it isn't ready. It is judged once.
fn attempt_judged(
    store: &mut Store,
    m: &Move,
    ask: &Ask,
    touched: &mut Touched,
) -> Result<Option<Told>, NoMemory>
    requires valid { IsValid (world store.old) }
    requires thread { is_act ask.now ≡ false }
    requires fit { is_fit_move store.old m.now ask.now ≡ true }
    ensures made { IfOk result (IsMade store.old m.now ask.now store.new) }
    ensures ended { IfOk result (HasEnded store.old store.new) }
    ensures heard { IfOk result (IsTold store.old store.new) }
    ensures padded { IfOk result IsToldPadded }
    ensures touched { IfOk result (TellsOf store.old m.now ask.now touched.new) }
    ensures unready { IfOk result (IsUnready store.old m.now ask.now store.new) }
    ensures lacking { OnErr result (IsLacking store.old m.now ask.now store.new) }
    ensures sure { may_lack store.old m.now ask.now ≡ false → IsOk result }
{
    let j = match judge(store, m, ask) {
        Some(j) => j,
        None => return Ok(None),
    };
    if !is_ready(store, j.caller, j.chooses, m.pick, &j.verdict) {
        return Ok(None);
    }
    let ended = ended_by(store, j.caller, &j.verdict);
    *touched = touched_by_move(&j.verdict);
    apart(store, j.caller, &j.verdict);
    Ok(Some(Told {
        said: carry_out(store, j.caller, given(ask), &j.verdict)?,
        ended,
    }))
}

/// The port whose server a verdict tells something has a path of its own.
pub fn apart(store: &Store, caller: Caller, verdict: &Verdict)
    requires fits { IsVerdict store.now caller verdict.now }
    ensures { Each (HasOwnPath (path store.now)) (hearer_of verdict.now) }
{
    if let Verdict::Tells { news, .. } = verdict {
        let port = match *news {
            News::Words(words) => words.port,
            News::Passed { port } | News::Ended { port } => port,
        };
        if store.at(port).is_none() {
            unreachable!();
        }
    }
}

/// Makes a move, which is ready and fit, and gives what it tells. For want of memory all stays as it was;
/// a stage that makes an object or a page may want it.
///
/// # Errors
///
/// There is no memory for an object or a page that the move makes; all is as before then.
pub fn take(store: &mut Store, m: &Move, ask: &Ask, touched: &mut Touched) -> Result<Said, NoMemory>
    requires valid { IsValid (world store.old) }
    requires ready { IsReadyMove store.old m.now ask.now }
    requires fit { is_fit_move store.old m.now ask.now ≡ true }
    ensures step { IfOk result (λ said. IsStepTo store.old m.now ask.now store.new said) }
    ensures padded { IfOk result (λ said. IsPadded said) }
    ensures touched { IfOk result (λ said. TellsTouched store.old m.now ask.now touched.new) }
    ensures lacking { OnErr result (store.new ≡ store.old) }
    ensures sure { may_lack store.old m.now ask.now ≡ false → IsOk result }
{
    match attempt(store, m, ask, touched)? {
        Some(told) => Ok(told.said),
        None => unreachable!(),
    }
}
