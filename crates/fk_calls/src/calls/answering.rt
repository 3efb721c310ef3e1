//! Porters' calls, their answers laid into the caller's room. What a move may tell takes much room, which each call on the way clears and copies; a
//! porter's answer mostly takes little of it.
ghost use Rattle.std.specs.Prelude.{◌≡◌, ◌||◌, [], is_none, true, false, IsOk, IfOk, IfSome, OnErr};
ghost use Rattle.fk_model.specs.declared.moves.Ask.TheVariants as asks;
ghost use Rattle.fk_model.specs.Moves as machine;
ghost use Rattle.fk_model.specs.Moves.{allowed_row};
ghost use Rattle.fk_model.specs.Valid.{IsValid};
ghost use Rattle.fk_plans.specs.Answers.Rooms.{IsRoom};
ghost use Rattle.fk_store.specs.Store.Moves.{picked_by};
ghost use Rattle.fk_store.specs.Store.Paths.{path, place};
ghost use Rattle.fk_store.specs.Store.Threads.{todo_at};
ghost use Rattle.fk_store.specs.Store.World.{world, IsSpace};
ghost use Rattle.fk_plans.specs.Plans.Plans.{caller_by};
ghost use Rattle.fk_plans.specs.Plans.Verdicts.{outcome_of, IsVerdict, IsSureVerdict};
ghost use Rattle.fk_calls.specs.Calls.Doings.{is_free_porter_at};
ghost use Rattle.fk_calls.specs.Calls.Rows.{takes_memory};
ghost use Rattle.fk_calls.specs.Calls.Judgements.{is_fit_move, IsJudged, may_lack};
ghost use Rattle.fk_calls.specs.Calls.Tried.{porter, tried_if, tried_of, IsMade, HasEnded, IsTold, IsToldPadded, IsUnready, IsLacking, TellsOf};

use crate::calls::doing::is_free_porter;
use crate::calls::moves::{Told, apart};
use crate::calls::rows;
use crate::calls::straight::{is_quiet, point_at, sets_pointer, show};
use fk_changes::readers::Caller;
use fk_changes::threads::Answers;
use fk_model::status::OK;
use fk_model::{Move, NoMemory, Stage, Who};
use fk_objects::{count_in, locate, point, search};
use fk_plans::answers::{answer, lay};
use fk_plans::endings::ended_by;
use fk_plans::wakes::{Touched, touched_by_move};
use fk_plans::{Plan, Verdict, is_ready};
use fk_spaces::{page_next, page_read};
use fk_state::{get_ptr, get_state};
use fk_store::Store;

/// Makes a porter's move that comes to this verdict, where it is ready, and answers whether it was.
#[inline(never)]
fn make(
    store: &mut Store,
    m: &Move,
    stage: &Stage,
    words: &[u64; 64],
    verdict: &Verdict,
    told: &mut Told,
    touched: &mut Touched,
) -> Result<bool, NoMemory>
    requires judged { IsJudged store.old m.now (asks.Call stage.now words.now)
        (record { caller = porter m.now.who; chooses = machine.chooses stage.now; verdict = verdict.now }) }
    requires valid { IsValid (world store.old) }
    requires room { IsRoom told.old.said }
    ensures made { IfOk (tried_of result told.new) (IsMade store.old m.now (asks.Call stage.now words.now) store.new) }
    ensures ended { IfOk (tried_of result told.new) (HasEnded store.old store.new) }
    ensures heard { IfOk (tried_of result told.new) (IsTold store.old store.new) }
    ensures padded { IfOk (tried_of result told.new) IsToldPadded }
    ensures touched { IfOk (tried_of result told.new) (TellsOf store.old m.now (asks.Call stage.now words.now) touched.new) }
    ensures unready { IfOk (tried_of result told.new) (IsUnready store.old m.now (asks.Call stage.now words.now) store.new) }
    ensures lacking { OnErr (tried_of result told.new) (IsLacking store.old m.now (asks.Call stage.now words.now) store.new) }
    ensures sure { may_lack store.old m.now (asks.Call stage.now words.now) ≡ false → IsOk (tried_of result told.new) }
{
    let caller = Caller {
        who: m.who,
        is_porter: true,
    };
    if !is_ready(store, caller, rows::chooses(stage), m.pick, verdict) {
        return Ok(false);
    }
    told.ended = ended_by(store, caller, verdict);
    *touched = touched_by_move(verdict);
    apart(store, caller, verdict);
    answer(store, caller, words, verdict, &mut told.said)?;
    Ok(true)
}

/// Makes a porter's move that is refused, where it is ready, and answers whether it was. It stands apart, since a verdict takes room that is cleared
/// at entry.
#[inline(never)]
fn refuse(
    store: &mut Store,
    m: &Move,
    stage: &Stage,
    words: &[u64; 64],
    status: u8,
    told: &mut Told,
    touched: &mut Touched,
) -> Result<bool, NoMemory>
    requires judged { IsJudged store.old m.now (asks.Call stage.now words.now)
        (record { caller = porter m.now.who; chooses = machine.chooses stage.now; verdict = Verdict.Refused status }) }
    requires valid { IsValid (world store.old) }
    requires room { IsRoom told.old.said }
    ensures made { IfOk (tried_of result told.new) (IsMade store.old m.now (asks.Call stage.now words.now) store.new) }
    ensures ended { IfOk (tried_of result told.new) (HasEnded store.old store.new) }
    ensures heard { IfOk (tried_of result told.new) (IsTold store.old store.new) }
    ensures padded { IfOk (tried_of result told.new) IsToldPadded }
    ensures touched { IfOk (tried_of result told.new) (TellsOf store.old m.now (asks.Call stage.now words.now) touched.new) }
    ensures unready { IfOk (tried_of result told.new) (IsUnready store.old m.now (asks.Call stage.now words.now) store.new) }
    ensures lacking { OnErr (tried_of result told.new) (IsLacking store.old m.now (asks.Call stage.now words.now) store.new) }
    ensures sure { may_lack store.old m.now (asks.Call stage.now words.now) ≡ false → IsOk (tried_of result told.new) }
{
    make(
        store,
        m,
        stage,
        words,
        &Verdict::Refused(status),
        told,
        touched,
    )
}

/// Whether a porter may pick so.
pub fn may_pick(chooses: bool, pick: Option<Who>) -> bool
    ensures { result ≡ (chooses || is_none pick) }
{
    chooses || pick.is_none()
}

/// Makes a porter's move that changes nothing and is answered a few words, where it is ready, and answers whether it was.
fn tell(
    store: &Store,
    m: &Move,
    stage: &Stage,
    words: &[u64; 64],
    answers: Answers,
    told: &mut Told,
    touched: &mut Touched,
) -> bool
    requires judged { IsJudged store.now m.now (asks.Call stage.now words.now)
        (record { caller = porter m.now.who; chooses = machine.chooses stage.now; verdict = Verdict.Done Plan.Nothing answers }) }
    requires valid { IsValid (world store.now) }
    requires room { IsRoom told.old.said }
    ensures made { IsMade store.now m.now (asks.Call stage.now words.now) store.now (tried_if result told.new) }
    ensures ended { HasEnded store.now store.now (tried_if result told.new) }
    ensures heard { IsTold store.now store.now (tried_if result told.new) }
    ensures padded { IsToldPadded (tried_if result told.new) }
    ensures touched { TellsOf store.now m.now (asks.Call stage.now words.now) touched.new (tried_if result told.new) }
    ensures unready { IsUnready store.now m.now (asks.Call stage.now words.now) store.now (tried_if result told.new) }
{
    if !may_pick(rows::chooses(stage), m.pick) {
        return false;
    }
    // Tells that names and paths agree.
    store.names();
    told.ended = None;
    *touched = Touched::Few {
        first: None,
        second: None,
        third: None,
    };
    lay(&mut told.said, OK, answers);
    true
}

/// The few words with which a porter's stage is answered by a verdict that changes nothing.
#[inline(always)]
fn few_words(verdict: &Verdict) -> Option<Answers>
    ensures { IfSome result (λ answers. verdict.now ≡ Verdict.Done Plan.Nothing answers) }
{
    let Verdict::Done(plan, answers) = verdict else {
        return None;
    };
    let Plan::Nothing = plan else {
        return None;
    };
    Some(*answers)
}

/// Makes a porter's move that comes to this verdict, which isn't a few words alone, where it is ready, and answers whether it was. What sets a pointer
/// and what shows words go straight.
fn answer_besides(
    store: &mut Store,
    m: &Move,
    stage: &Stage,
    words: &[u64; 64],
    verdict: &Verdict,
    told: &mut Told,
    touched: &mut Touched,
) -> Result<bool, NoMemory>
    requires judged { IsJudged store.old m.now (asks.Call stage.now words.now)
        (record { caller = porter m.now.who; chooses = machine.chooses stage.now; verdict = verdict.now }) }
    requires valid { IsValid (world store.old) }
    requires room { IsRoom told.old.said }
    ensures made { IfOk (tried_of result told.new) (IsMade store.old m.now (asks.Call stage.now words.now) store.new) }
    ensures ended { IfOk (tried_of result told.new) (HasEnded store.old store.new) }
    ensures heard { IfOk (tried_of result told.new) (IsTold store.old store.new) }
    ensures padded { IfOk (tried_of result told.new) IsToldPadded }
    ensures touched { IfOk (tried_of result told.new) (TellsOf store.old m.now (asks.Call stage.now words.now) touched.new) }
    ensures unready { IfOk (tried_of result told.new) (IsUnready store.old m.now (asks.Call stage.now words.now) store.new) }
    ensures lacking { OnErr (tried_of result told.new) (IsLacking store.old m.now (asks.Call stage.now words.now) store.new) }
    ensures sure { may_lack store.old m.now (asks.Call stage.now words.now) ≡ false → IsOk (tried_of result told.new) }
{
    match sets_pointer(verdict) {
        Some(set) => Ok(point_at(store, m, stage, words, verdict, set, told, touched)),
        None => {
            if is_quiet(verdict) {
                show(store, m, stage, words, verdict, told, touched)
            } else {
                make(store, m, stage, words, verdict, told, touched)
            }
        }
    }
}

/// Makes a porter's move that comes to this verdict, where it is ready, and answers whether it was. Most of what a checkpoint asks changes nothing.
fn answer_verdict(
    store: &mut Store,
    m: &Move,
    stage: &Stage,
    words: &[u64; 64],
    verdict: &Verdict,
    told: &mut Told,
    touched: &mut Touched,
) -> Result<bool, NoMemory>
    requires judged { IsJudged store.old m.now (asks.Call stage.now words.now)
        (record { caller = porter m.now.who; chooses = machine.chooses stage.now; verdict = verdict.now }) }
    requires valid { IsValid (world store.old) }
    requires room { IsRoom told.old.said }
    ensures made { IfOk (tried_of result told.new) (IsMade store.old m.now (asks.Call stage.now words.now) store.new) }
    ensures ended { IfOk (tried_of result told.new) (HasEnded store.old store.new) }
    ensures heard { IfOk (tried_of result told.new) (IsTold store.old store.new) }
    ensures padded { IfOk (tried_of result told.new) IsToldPadded }
    ensures touched { IfOk (tried_of result told.new) (TellsOf store.old m.now (asks.Call stage.now words.now) touched.new) }
    ensures unready { IfOk (tried_of result told.new) (IsUnready store.old m.now (asks.Call stage.now words.now) store.new) }
    ensures lacking { OnErr (tried_of result told.new) (IsLacking store.old m.now (asks.Call stage.now words.now) store.new) }
    ensures sure { may_lack store.old m.now (asks.Call stage.now words.now) ≡ false → IsOk (tried_of result told.new) }
{
    match few_words(verdict) {
        Some(answers) => Ok(tell(store, m, stage, words, answers, told, touched)),
        None => answer_besides(store, m, stage, words, verdict, told, touched),
    }
}

/// Makes a porter's move that was judged so, where it is ready, and answers whether it was. The judge's answer comes first, so that it is made where
/// it is read.
#[inline(always)]
fn answer_judged(
    judged: &Result<Verdict, u8>,
    store: &mut Store,
    m: &Move,
    stage: &Stage,
    words: &[u64; 64],
    told: &mut Told,
    touched: &mut Touched,
) -> Result<bool, NoMemory>
    requires free { is_free_porter_at (world store.old) (place (path store.old) m.now.who) ≡ true }
    requires row { let c = caller_by (path store.old) (porter m.now.who) words.now in
        outcome_of (world store.old) (path store.old) c judged.now ≡ allowed_row (world store.old) c (picked_by (path store.old) m.now.pick) stage.now }
    requires fits { IfOk judged.now (IsVerdict store.old (porter m.now.who)) }
    requires sure { takes_memory true stage.now ≡ false → IfOk judged.now IsSureVerdict }
    requires valid { IsValid (world store.old) }
    requires room { IsRoom told.old.said }
    ensures made { IfOk (tried_of result told.new) (IsMade store.old m.now (asks.Call stage.now words.now) store.new) }
    ensures ended { IfOk (tried_of result told.new) (HasEnded store.old store.new) }
    ensures heard { IfOk (tried_of result told.new) (IsTold store.old store.new) }
    ensures padded { IfOk (tried_of result told.new) IsToldPadded }
    ensures touched { IfOk (tried_of result told.new) (TellsOf store.old m.now (asks.Call stage.now words.now) touched.new) }
    ensures unready { IfOk (tried_of result told.new) (IsUnready store.old m.now (asks.Call stage.now words.now) store.new) }
    ensures lacking { OnErr (tried_of result told.new) (IsLacking store.old m.now (asks.Call stage.now words.now) store.new) }
    ensures sure { may_lack store.old m.now (asks.Call stage.now words.now) ≡ false → IsOk (tried_of result told.new) }
{
    match judged {
        Ok(verdict) => answer_verdict(store, m, stage, words, verdict, told, touched),
        Err(status) => refuse(store, m, stage, words, *status, told, touched),
    }
}

/// Makes any stage of a free porter, where it is ready, and answers whether it was.
#[inline(never)]
fn call_any(
    store: &mut Store,
    m: &Move,
    stage: &Stage,
    words: &[u64; 64],
    told: &mut Told,
    touched: &mut Touched,
) -> Result<bool, NoMemory>
    requires valid { IsValid (world store.old) }
    requires fit { is_fit_move store.old m.now (asks.Call stage.now words.now) ≡ true }
    requires free { is_free_porter_at (world store.old) (place (path store.old) m.now.who) ≡ true }
    requires space { IsSpace store.old m.now.who.space }
    requires idle { todo_at (world store.old) (place (path store.old) m.now.who) ≡ [] }
    requires room { IsRoom told.old.said }
    ensures made { IfOk (tried_of result told.new) (IsMade store.old m.now (asks.Call stage.now words.now) store.new) }
    ensures ended { IfOk (tried_of result told.new) (HasEnded store.old store.new) }
    ensures heard { IfOk (tried_of result told.new) (IsTold store.old store.new) }
    ensures padded { IfOk (tried_of result told.new) IsToldPadded }
    ensures touched { IfOk (tried_of result told.new) (TellsOf store.old m.now (asks.Call stage.now words.now) touched.new) }
    ensures unready { IfOk (tried_of result told.new) (IsUnready store.old m.now (asks.Call stage.now words.now) store.new) }
    ensures lacking { OnErr (tried_of result told.new) (IsLacking store.old m.now (asks.Call stage.now words.now) store.new) }
    ensures sure { may_lack store.old m.now (asks.Call stage.now words.now) ≡ false → IsOk (tried_of result told.new) }
{
    let caller = Caller {
        who: m.who,
        is_porter: true,
    };
    answer_judged(
        &rows::judged(store, caller, words, stage, m.pick),
        store,
        m,
        stage,
        words,
        told,
        touched,
    )
}

/// Makes a porter's search, judged by its judge alone, where it is ready, and answers whether it was. What a judge answers takes much room, which is
/// cleared at entry and copied by each function on the way: so the stages of which a job makes most stand apart, each with the answer of its judge
/// alone.
#[inline(never)]
fn call_search(
    store: &mut Store,
    m: &Move,
    stage: &Stage,
    words: &[u64; 64],
    told: &mut Told,
    touched: &mut Touched,
) -> Result<bool, NoMemory>
    requires valid { IsValid (world store.old) }
    requires fit { is_fit_move store.old m.now (asks.Call stage.now words.now) ≡ true }
    requires free { is_free_porter_at (world store.old) (place (path store.old) m.now.who) ≡ true }
    requires space { IsSpace store.old m.now.who.space }
    requires idle { todo_at (world store.old) (place (path store.old) m.now.who) ≡ [] }
    requires room { IsRoom told.old.said }
    ensures made { IfOk (tried_of result told.new) (IsMade store.old m.now (asks.Call stage.now words.now) store.new) }
    ensures ended { IfOk (tried_of result told.new) (HasEnded store.old store.new) }
    ensures heard { IfOk (tried_of result told.new) (IsTold store.old store.new) }
    ensures padded { IfOk (tried_of result told.new) IsToldPadded }
    ensures touched { IfOk (tried_of result told.new) (TellsOf store.old m.now (asks.Call stage.now words.now) touched.new) }
    ensures unready { IfOk (tried_of result told.new) (IsUnready store.old m.now (asks.Call stage.now words.now) store.new) }
    ensures lacking { OnErr (tried_of result told.new) (IsLacking store.old m.now (asks.Call stage.now words.now) store.new) }
    ensures sure { may_lack store.old m.now (asks.Call stage.now words.now) ≡ false → IsOk (tried_of result told.new) }
{
    let caller = Caller {
        who: m.who,
        is_porter: true,
    };
    match *stage {
        Stage::Search { s, from } => {
            answer_judged(
                &search(store, caller, s, from),
                store,
                m,
                stage,
                words,
                told,
                touched,
            )
        }
        _ => call_any(store, m, stage, words, told, touched),
    }
}

/// Makes a porter's stage that points a reference elsewhere, where it is ready, and answers whether it was.
#[inline(never)]
fn call_point(
    store: &mut Store,
    m: &Move,
    stage: &Stage,
    words: &[u64; 64],
    told: &mut Told,
    touched: &mut Touched,
) -> Result<bool, NoMemory>
    requires valid { IsValid (world store.old) }
    requires fit { is_fit_move store.old m.now (asks.Call stage.now words.now) ≡ true }
    requires free { is_free_porter_at (world store.old) (place (path store.old) m.now.who) ≡ true }
    requires space { IsSpace store.old m.now.who.space }
    requires idle { todo_at (world store.old) (place (path store.old) m.now.who) ≡ [] }
    requires room { IsRoom told.old.said }
    ensures made { IfOk (tried_of result told.new) (IsMade store.old m.now (asks.Call stage.now words.now) store.new) }
    ensures ended { IfOk (tried_of result told.new) (HasEnded store.old store.new) }
    ensures heard { IfOk (tried_of result told.new) (IsTold store.old store.new) }
    ensures padded { IfOk (tried_of result told.new) IsToldPadded }
    ensures touched { IfOk (tried_of result told.new) (TellsOf store.old m.now (asks.Call stage.now words.now) touched.new) }
    ensures unready { IfOk (tried_of result told.new) (IsUnready store.old m.now (asks.Call stage.now words.now) store.new) }
    ensures lacking { OnErr (tried_of result told.new) (IsLacking store.old m.now (asks.Call stage.now words.now) store.new) }
    ensures sure { may_lack store.old m.now (asks.Call stage.now words.now) ≡ false → IsOk (tried_of result told.new) }
{
    let caller = Caller {
        who: m.who,
        is_porter: true,
    };
    match *stage {
        Stage::Point { s, x, s2, x2 } => {
            answer_judged(
                &point(store, caller, s, x, s2, x2),
                store,
                m,
                stage,
                words,
                told,
                touched,
            )
        }
        _ => call_any(store, m, stage, words, told, touched),
    }
}

/// Makes a porter's stage that asks where an object lies, where it is ready, and answers whether it was.
#[inline(never)]
fn call_locate(
    store: &mut Store,
    m: &Move,
    stage: &Stage,
    words: &[u64; 64],
    told: &mut Told,
    touched: &mut Touched,
) -> Result<bool, NoMemory>
    requires valid { IsValid (world store.old) }
    requires fit { is_fit_move store.old m.now (asks.Call stage.now words.now) ≡ true }
    requires free { is_free_porter_at (world store.old) (place (path store.old) m.now.who) ≡ true }
    requires space { IsSpace store.old m.now.who.space }
    requires idle { todo_at (world store.old) (place (path store.old) m.now.who) ≡ [] }
    requires room { IsRoom told.old.said }
    ensures made { IfOk (tried_of result told.new) (IsMade store.old m.now (asks.Call stage.now words.now) store.new) }
    ensures ended { IfOk (tried_of result told.new) (HasEnded store.old store.new) }
    ensures heard { IfOk (tried_of result told.new) (IsTold store.old store.new) }
    ensures padded { IfOk (tried_of result told.new) IsToldPadded }
    ensures touched { IfOk (tried_of result told.new) (TellsOf store.old m.now (asks.Call stage.now words.now) touched.new) }
    ensures unready { IfOk (tried_of result told.new) (IsUnready store.old m.now (asks.Call stage.now words.now) store.new) }
    ensures lacking { OnErr (tried_of result told.new) (IsLacking store.old m.now (asks.Call stage.now words.now) store.new) }
    ensures sure { may_lack store.old m.now (asks.Call stage.now words.now) ≡ false → IsOk (tried_of result told.new) }
{
    let caller = Caller {
        who: m.who,
        is_porter: true,
    };
    match *stage {
        Stage::Locate { reference, s } => {
            answer_judged(
                &locate(store, caller, reference, s),
                store,
                m,
                stage,
                words,
                told,
                touched,
            )
        }
        _ => call_any(store, m, stage, words, told, touched),
    }
}

/// Makes a porter's stage that counts the pointers to an object, where it is ready, and answers whether it was.
#[inline(never)]
fn call_count_in(
    store: &mut Store,
    m: &Move,
    stage: &Stage,
    words: &[u64; 64],
    told: &mut Told,
    touched: &mut Touched,
) -> Result<bool, NoMemory>
    requires valid { IsValid (world store.old) }
    requires fit { is_fit_move store.old m.now (asks.Call stage.now words.now) ≡ true }
    requires free { is_free_porter_at (world store.old) (place (path store.old) m.now.who) ≡ true }
    requires space { IsSpace store.old m.now.who.space }
    requires idle { todo_at (world store.old) (place (path store.old) m.now.who) ≡ [] }
    requires room { IsRoom told.old.said }
    ensures made { IfOk (tried_of result told.new) (IsMade store.old m.now (asks.Call stage.now words.now) store.new) }
    ensures ended { IfOk (tried_of result told.new) (HasEnded store.old store.new) }
    ensures heard { IfOk (tried_of result told.new) (IsTold store.old store.new) }
    ensures padded { IfOk (tried_of result told.new) IsToldPadded }
    ensures touched { IfOk (tried_of result told.new) (TellsOf store.old m.now (asks.Call stage.now words.now) touched.new) }
    ensures unready { IfOk (tried_of result told.new) (IsUnready store.old m.now (asks.Call stage.now words.now) store.new) }
    ensures lacking { OnErr (tried_of result told.new) (IsLacking store.old m.now (asks.Call stage.now words.now) store.new) }
    ensures sure { may_lack store.old m.now (asks.Call stage.now words.now) ≡ false → IsOk (tried_of result told.new) }
{
    let caller = Caller {
        who: m.who,
        is_porter: true,
    };
    match *stage {
        Stage::CountIn { base, s, x } => {
            answer_judged(
                &count_in(store, caller, base, s, x),
                store,
                m,
                stage,
                words,
                told,
                touched,
            )
        }
        _ => call_any(store, m, stage, words, told, touched),
    }
}

/// Makes a porter's stage that reads an object, where it is ready, and answers whether it was.
#[inline(never)]
fn call_state(
    store: &mut Store,
    m: &Move,
    stage: &Stage,
    words: &[u64; 64],
    told: &mut Told,
    touched: &mut Touched,
) -> Result<bool, NoMemory>
    requires valid { IsValid (world store.old) }
    requires fit { is_fit_move store.old m.now (asks.Call stage.now words.now) ≡ true }
    requires free { is_free_porter_at (world store.old) (place (path store.old) m.now.who) ≡ true }
    requires space { IsSpace store.old m.now.who.space }
    requires idle { todo_at (world store.old) (place (path store.old) m.now.who) ≡ [] }
    requires room { IsRoom told.old.said }
    ensures made { IfOk (tried_of result told.new) (IsMade store.old m.now (asks.Call stage.now words.now) store.new) }
    ensures ended { IfOk (tried_of result told.new) (HasEnded store.old store.new) }
    ensures heard { IfOk (tried_of result told.new) (IsTold store.old store.new) }
    ensures padded { IfOk (tried_of result told.new) IsToldPadded }
    ensures touched { IfOk (tried_of result told.new) (TellsOf store.old m.now (asks.Call stage.now words.now) touched.new) }
    ensures unready { IfOk (tried_of result told.new) (IsUnready store.old m.now (asks.Call stage.now words.now) store.new) }
    ensures lacking { OnErr (tried_of result told.new) (IsLacking store.old m.now (asks.Call stage.now words.now) store.new) }
    ensures sure { may_lack store.old m.now (asks.Call stage.now words.now) ≡ false → IsOk (tried_of result told.new) }
{
    let caller = Caller {
        who: m.who,
        is_porter: true,
    };
    match *stage {
        Stage::GetState { s, x, addr } => {
            answer_judged(
                &get_state(store, caller, s, x, addr),
                store,
                m,
                stage,
                words,
                told,
                touched,
            )
        }
        Stage::GetPtr {
            s,
            x,
            field,
            reference,
        } => answer_judged(
            &get_ptr(store, caller, s, x, field, reference),
            store,
            m,
            stage,
            words,
            told,
            touched,
        ),
        _ => call_any(store, m, stage, words, told, touched),
    }
}

/// Makes a porter's stage that reads pages, where it is ready, and answers whether it was.
#[inline(never)]
fn call_pages(
    store: &mut Store,
    m: &Move,
    stage: &Stage,
    words: &[u64; 64],
    told: &mut Told,
    touched: &mut Touched,
) -> Result<bool, NoMemory>
    requires valid { IsValid (world store.old) }
    requires fit { is_fit_move store.old m.now (asks.Call stage.now words.now) ≡ true }
    requires free { is_free_porter_at (world store.old) (place (path store.old) m.now.who) ≡ true }
    requires space { IsSpace store.old m.now.who.space }
    requires idle { todo_at (world store.old) (place (path store.old) m.now.who) ≡ [] }
    requires room { IsRoom told.old.said }
    ensures made { IfOk (tried_of result told.new) (IsMade store.old m.now (asks.Call stage.now words.now) store.new) }
    ensures ended { IfOk (tried_of result told.new) (HasEnded store.old store.new) }
    ensures heard { IfOk (tried_of result told.new) (IsTold store.old store.new) }
    ensures padded { IfOk (tried_of result told.new) IsToldPadded }
    ensures touched { IfOk (tried_of result told.new) (TellsOf store.old m.now (asks.Call stage.now words.now) touched.new) }
    ensures unready { IfOk (tried_of result told.new) (IsUnready store.old m.now (asks.Call stage.now words.now) store.new) }
    ensures lacking { OnErr (tried_of result told.new) (IsLacking store.old m.now (asks.Call stage.now words.now) store.new) }
    ensures sure { may_lack store.old m.now (asks.Call stage.now words.now) ≡ false → IsOk (tried_of result told.new) }
{
    let caller = Caller {
        who: m.who,
        is_porter: true,
    };
    match *stage {
        Stage::PageRead { s, page, addr } => {
            answer_judged(
                &page_read(store, caller, s, page, addr),
                store,
                m,
                stage,
                words,
                told,
                touched,
            )
        }
        Stage::PageNext { s, from } => {
            answer_judged(
                &page_next(store, caller, s, from),
                store,
                m,
                stage,
                words,
                told,
                touched,
            )
        }
        _ => call_any(store, m, stage, words, told, touched),
    }
}

/// Makes a porter's move where it is ready, as `attempt` does, and answers whether it was; what it tells, and the port whose native server lost its
/// client by it, are laid into the room, which has zeros.
///
/// # Errors
///
/// There is no memory for an object or a page that the move makes; all is as before then.
pub fn call(
    store: &mut Store,
    m: &Move,
    stage: &Stage,
    words: &[u64; 64],
    told: &mut Told,
    touched: &mut Touched,
) -> Result<bool, NoMemory>
    requires valid { IsValid (world store.old) }
    requires fit { is_fit_move store.old m.now (asks.Call stage.now words.now) ≡ true }
    requires room { IsRoom told.old.said }
    ensures made { IfOk (tried_of result told.new) (IsMade store.old m.now (asks.Call stage.now words.now) store.new) }
    ensures ended { IfOk (tried_of result told.new) (HasEnded store.old store.new) }
    ensures heard { IfOk (tried_of result told.new) (IsTold store.old store.new) }
    ensures padded { IfOk (tried_of result told.new) IsToldPadded }
    ensures touched { IfOk (tried_of result told.new) (TellsOf store.old m.now (asks.Call stage.now words.now) touched.new) }
    ensures unready { IfOk (tried_of result told.new) (IsUnready store.old m.now (asks.Call stage.now words.now) store.new) }
    ensures lacking { OnErr (tried_of result told.new) (IsLacking store.old m.now (asks.Call stage.now words.now) store.new) }
    ensures sure { may_lack store.old m.now (asks.Call stage.now words.now) ≡ false → IsOk (tried_of result told.new) }
{
    if !is_free_porter(store, m.who) {
        return Ok(false);
    }
    match stage {
        Stage::Search { .. } => call_search(store, m, stage, words, told, touched),
        Stage::Point { .. } => call_point(store, m, stage, words, told, touched),
        Stage::Locate { .. } => call_locate(store, m, stage, words, told, touched),
        Stage::CountIn { .. } => call_count_in(store, m, stage, words, told, touched),
        Stage::GetState { .. } | Stage::GetPtr { .. } => call_state(
            store, m, stage, words, told, touched,
        ),
        Stage::PageRead { .. } | Stage::PageNext { .. } => call_pages(
            store, m, stage, words, told, touched,
        ),
        _ => call_any(store, m, stage, words, told, touched),
    }
}
