//! What deeds, plans and verdicts change.
ghost use Rattle.std.specs.Prelude.{◌≡◌, ◌||◌, ℕ, Bool, List, true, Option};
ghost use Rattle.fk_model.specs.declared.names.Who as names_of;
ghost use Rattle.fk_model.specs.Outcomes as outcomes;
ghost use Rattle.fk_model.specs.Places.{Path, same_path};
ghost use Rattle.fk_model.specs.World.{World};
ghost use Rattle.fk_plans.specs.Plans.Plans.{changes_by};
ghost use Rattle.fk_plans.specs.Plans.Verdicts.{move_by};
ghost use Rattle.fk_changes.specs.declared.readers.caller.Caller as callers;
ghost use Rattle.fk_store.specs.Store.Contents.{Contents};
ghost use Rattle.fk_store.specs.Store.Paths.{path, place};
ghost use Rattle.fk_store.specs.Store.World.{world};
ghost use Rattle.laws_moves.specs.Machine.Frame.{name_body};
ghost use Rattle.fk_plans.specs.Wakes.Touches as touches;
ghost use Rattle.fk_plans.specs.declared.wakes.touching.Touched as touched_of;
ghost use Rattle.fk_plans.specs.Wakes.Touches.{changed_by, is_touched, leave, ActsTouch, MovesFirst};

use crate::plans::{Deed, Plan, Verdict};
use fk_model::Who;

/// Which objects a move may change besides its caller, what it makes, and what it takes from its place.
#[derive(Clone, Copy)]
pub enum Touched {
    /// These alone, and nothing goes from its place.
    Few {
        first: Option<Who>,
        second: Option<Who>,
        third: Option<Who>,
    },
    /// This one alone, and it is made.
    Makes {
        object: Who,
    },
    /// Any, and nothing goes from its place.
    Any,
    /// Any, and this one is destroyed.
    Dies {
        object: Who,
    },
    /// Any, and this one gets another slot.
    Moves {
        object: Who,
        slot: u8,
    },
}

/// The object that a deed changes; none where it changes a page.
#[inline(always)]
pub fn changed(deed: &Deed) -> Option<Who>
    ensures by { result ≡ changed_by deed.now }
{
    match *deed {
        Deed::Locks { mutex, .. } => Some(mutex),
        Deed::Points { object, .. } => Some(object),
        Deed::Wakes { thread, .. } => Some(thread),
        Deed::Sleeps { thread, .. } => Some(thread),
        Deed::Shifts { thread, .. } => Some(thread),
        Deed::Ends { thread, .. } => Some(thread),
        Deed::Finishes { thread, .. } => Some(thread),
        Deed::Frees { thread } => Some(thread),
        Deed::Raises { thread, .. } => Some(thread),
        Deed::Takes { thread, .. } => Some(thread),
        Deed::Stops { thread, .. } => Some(thread),
        Deed::Counts { client, .. } => Some(client),
        Deed::Passes { client, .. } => Some(client),
        Deed::Unlinks { client } => Some(client),
        Deed::Links { client, .. } => Some(client),
        Deed::Serves { client, .. } => Some(client),
        Deed::Holds { space, .. } => Some(space),
        Deed::Sends(_) | Deed::Records { .. } | Deed::Copies { .. } | Deed::Drops { .. } => None,
    }
}

/// These objects alone.
#[inline(always)]
fn few(first: Option<Who>, second: Option<Who>, third: Option<Who>) -> Touched
    ensures { result ≡ Touched.Few first second third }
{
    Touched::Few {
        first,
        second,
        third,
    }
}

/// Which objects a plan changes.
#[inline(always)]
fn planned(plan: &Plan) -> Touched
    ensures { result ≡ touches.planned plan.now }
{
    match plan {
        Plan::Nothing | Plan::Gives { .. } => few(None, None, None),
        Plan::One(deed) => few(changed(deed), None, None),
        Plan::Two(first, second) => few(changed(first), changed(second), None),
        Plan::Moves {
            client,
            receiver,
            sender,
            ..
        } => few(Some(*client), Some(*receiver), Some(*sender)),
        Plan::HandsOver {
            reference,
            receiver,
            client,
            ..
        } => few(Some(*reference), Some(*receiver), Some(*client)),
        Plan::Makes { object, .. } | Plan::MakesHeld { object, .. } => Touched::Makes {
            object: *object,
        },
    }
}

/// Which objects a verdict changes besides its caller.
#[inline(always)]
fn judged(verdict: &Verdict) -> Touched
    ensures { result ≡ touches.judged verdict.now }
{
    match verdict {
        Verdict::Runs(_)
        | Verdict::Refused(_)
        | Verdict::Waits
        | Verdict::ShowsRecord { .. }
        | Verdict::Faults { .. } => few(None, None, None),
        Verdict::Done(plan, _)
        | Verdict::Ends(plan, _)
        | Verdict::Shows { plan, .. }
        | Verdict::Goes(plan)
        | Verdict::Tells { plan, .. } => planned(plan),
        Verdict::Sets { object, .. } => few(Some(*object), None, None),
        Verdict::Renames { object, slot } => Touched::Moves {
            object: *object,
            slot: *slot,
        },
        Verdict::Destroys { object, .. } => Touched::Dies { object: *object },
        Verdict::WakesAll { .. } => Touched::Any,
    }
}

/// Which objects the move of a caller changes besides the caller, where it is judged so.
#[inline(always)]
pub fn touched_by_move(verdict: &Verdict) -> Touched
    ensures by { result ≡ touches.judged verdict.now }
    ensures names { (m : Contents) (c : callers.Caller) (words : List ℕ) (chooses : Bool) (pick : Option names_of.Who) (x : Path)
        → name_body (world m) (outcomes.listed (move_by m c words chooses pick verdict.now)) x ≡ true
        → (same_path x (place (path m) c.who) || is_touched (path m) result x) ≡ true }
    ensures leaves { (m : Contents) (c : callers.Caller) (words : List ℕ) (chooses : Bool) (pick : Option names_of.Who)
        → leave (path m) result (outcomes.listed (move_by m c words chooses pick verdict.now)) ≡ true }
    ensures moves { (m : Contents) (c : callers.Caller) (words : List ℕ) (chooses : Bool) (pick : Option names_of.Who)
        → MovesFirst (path m) result (move_by m c words chooses pick verdict.now) }
{
    judged(verdict)
}

/// An act of a native server changes no body but its client's, makes nothing, and takes nothing from its place, whatever is told of it.
pub fn acts_touch()
    ensures { (p : ℕ → Path) (touched : touched_of.Touched) (w : World) (port : Path) (pick : Option Path) → ActsTouch p touched w port pick }
{}
