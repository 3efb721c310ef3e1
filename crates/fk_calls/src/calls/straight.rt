//! Porters' calls of which a checkpoint makes many, and whose verdicts need little: one sets a pointer and nothing else, one shows words and changes
//! nothing. By neither does a native server lose its client, so no look for that is needed, and what they do stands here straight.
ghost use Rattle.std.specs.Prelude.{◌≡◌, ◌↔◌, ℕ, List, IsTrue, true, false, IsOk, IfOk, IfSome, OnErr};
ghost use Rattle.fk_model.specs.declared.moves.Ask.TheVariants as asks;
ghost use Rattle.fk_model.specs.Moves as machine;
ghost use Rattle.fk_model.specs.Moves.{GoesAllowed};
ghost use Rattle.fk_model.specs.Valid.{IsValid};
ghost use Rattle.fk_plans.specs.Answers.Rooms.{IsRoom};
ghost use Rattle.fk_plans.specs.Plans.Verdicts.{IsVerdict, move_by};
ghost use Rattle.fk_store.specs.Store.Paths.{path, place};
ghost use Rattle.fk_store.specs.Store.World.{world};
ghost use Rattle.fk_calls.specs.Calls.Quiet as quiet;
ghost use Rattle.fk_calls.specs.Calls.Judgements.{IsJudged, may_lack};
ghost use Rattle.fk_calls.specs.Calls.Tried.{porter, tried_if, tried_of, IsMade, HasEnded, IsTold, IsToldPadded, IsUnready, IsLacking, TellsOf};

use crate::calls::answering::may_pick;
use crate::calls::moves::Told;
use crate::calls::rows;
use fk_changes::readers::Caller;
use fk_changes::threads::Answers;
use fk_model::status::OK;
use fk_model::{Move, NoMemory, Ptr, Stage, Who};
use fk_plans::answers::{answer, lay};
use fk_plans::wakes::Touched;
use fk_plans::{Deed, Plan, Verdict, is_ready};
use fk_store::Store;

/// A pointer that is set, and the few words with which the stage is answered.
#[derive(Clone, Copy)]
pub struct Pointing {
    pub object: Who,
    pub to: Ptr,
    pub answers: Answers,
}

/// The pointer that a verdict sets, where it does nothing else.
#[inline(always)]
pub fn sets_pointer(verdict: &Verdict) -> Option<Pointing>
    ensures { IfSome result (λ set. verdict.now ≡ Verdict.Done (Plan.One (Deed.Points set.object set.to)) set.answers) }
{
    let Verdict::Done(plan, answers) = verdict else {
        return None;
    };
    let Plan::One(deed) = plan else {
        return None;
    };
    let Deed::Points { object, to } = deed else {
        return None;
    };
    Some(Pointing {
        object: *object,
        to: *to,
        answers: *answers,
    })
}

/// Whether a plan does nothing.
fn is_nothing(plan: &Plan) -> bool
    ensures { result ≡ quiet.is_nothing plan.now }
{
    matches!(plan, Plan::Nothing)
}

/// Whether a verdict shows words and changes nothing.
#[inline(always)]
pub fn is_quiet(verdict: &Verdict) -> bool
    ensures { result ≡ quiet.is_quiet verdict.now }
{
    match verdict {
        Verdict::ShowsRecord { .. } => true,
        Verdict::Shows { plan, .. } => is_nothing(plan),
        _ => false,
    }
}

/// Whether a porter's verdict that sets a pointer is ready. Where the porter holds the only space that is held, nothing is frozen for it.
fn is_pointing_ready(
    store: &Store,
    who: Who,
    chooses: bool,
    pick: Option<Who>,
    verdict: &Verdict,
    set: Pointing,
) -> bool
    requires fits { IsVerdict store.now (porter who) verdict.now }
    requires set { verdict.now ≡ Verdict.Done (Plan.One (Deed.Points set.object set.to)) set.answers }
    ensures { (words : List ℕ) →
        IsTrue result ↔ GoesAllowed (world store.now) (place (path store.now) who) (move_by store.now (porter who) words chooses pick verdict.now) }
{
    if store.holds_the_only(who) {
        return may_pick(chooses, pick);
    }
    let caller = Caller {
        who,
        is_porter: true,
    };
    is_ready(store, caller, chooses, pick, verdict)
}

/// Makes a porter's move that sets a pointer, where it is ready, and answers whether it was.
#[inline(never)]
pub fn point_at(
    store: &mut Store,
    m: &Move,
    stage: &Stage,
    words: &[u64; 64],
    verdict: &Verdict,
    set: Pointing,
    told: &mut Told,
    touched: &mut Touched,
) -> bool
    requires judged { IsJudged store.old m.now (asks.Call stage.now words.now)
        (record { caller = porter m.now.who; chooses = machine.chooses stage.now; verdict = verdict.now }) }
    requires set { verdict.now ≡ Verdict.Done (Plan.One (Deed.Points set.object set.to)) set.answers }
    requires valid { IsValid (world store.old) }
    requires room { IsRoom told.old.said }
    ensures made { IsMade store.old m.now (asks.Call stage.now words.now) store.new (tried_if result told.new) }
    ensures ended { HasEnded store.old store.new (tried_if result told.new) }
    ensures heard { IsTold store.old store.new (tried_if result told.new) }
    ensures padded { IsToldPadded (tried_if result told.new) }
    ensures touched { TellsOf store.old m.now (asks.Call stage.now words.now) touched.new (tried_if result told.new) }
    ensures unready { IsUnready store.old m.now (asks.Call stage.now words.now) store.new (tried_if result told.new) }
{
    if !is_pointing_ready(store, m.who, rows::chooses(stage), m.pick, verdict, set) {
        return false;
    }
    // Tells that names and paths agree.
    store.names();
    told.ended = None;
    *touched = Touched::Few {
        first: Some(set.object),
        second: None,
        third: None,
    };
    store.point(set.object, set.to);
    lay(&mut told.said, OK, set.answers);
    true
}

/// Makes a porter's move that shows words and changes nothing, where it is ready, and answers whether it was.
///
/// # Errors
///
/// There is no memory for an object or a page that the move makes; all is as before then.
#[inline(never)]
pub fn show(
    store: &mut Store,
    m: &Move,
    stage: &Stage,
    words: &[u64; 64],
    verdict: &Verdict,
    told: &mut Told,
    touched: &mut Touched,
) -> Result<bool, NoMemory>
    requires judged { IsJudged store.old m.now (asks.Call stage.now words.now)
        (record { caller = porter m.now.who; chooses = machine.chooses stage.now; verdict = verdict.now }) }
    requires quiet { quiet.is_quiet verdict.now ≡ true }
    requires valid { IsValid (world store.old) }
    requires room { IsRoom told.old.said }
    ensures made { IfOk (tried_of result told.new) (IsMade store.old m.now (asks.Call stage.now words.now) store.new) }
    ensures ended { IfOk (tried_of result told.new) (HasEnded store.old store.new) }
    ensures heard { IfOk (tried_of result told.new) (IsTold store.old store.new) }
    ensures padded { IfOk (tried_of result told.new) IsToldPadded }
    ensures touched { IfOk (tried_of result told.new) (TellsOf store.old m.now (asks.Call stage.now words.now) touched.new) }
    ensures unready { IfOk (tried_of result told.new) (IsUnready store.old m.now (asks.Call stage.now words.now) store.new) }
    ensures lacking { OnErr (tried_of result told.new) (IsLacking store.old m.now (asks.Call stage.now words.now) store.new) }
    ensures sure { may_lack store.old m.now (asks.Call stage.now words.now) ≡ false → IsOk (tried_of result told.new) }
{
    if !may_pick(rows::chooses(stage), m.pick) {
        return Ok(false);
    }
    let caller = Caller {
        who: m.who,
        is_porter: true,
    };
    // Tells that names and paths agree.
    store.names();
    told.ended = None;
    *touched = Touched::Few {
        first: None,
        second: None,
        third: None,
    };
    answer(store, caller, words, verdict, &mut told.said)?;
    Ok(true)
}
