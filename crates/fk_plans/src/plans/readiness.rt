//! When a verdict is ready.
ghost use Rattle.std.specs.Prelude.{◌≡◌, ◌↔◌, ℕ, List, [], ◌∷◌, true, false, IsTrue};
ghost use Rattle.fk_model.specs.Freezing.{are_unfrozen, body_pointers};
ghost use Rattle.fk_model.specs.Moves.{GoesAllowed};
ghost use Rattle.fk_model.specs.Searches.{option_list};
ghost use Rattle.fk_store.specs.Store.Paths.{path, place};
ghost use Rattle.fk_store.specs.Store.Threads.{is_free_at};
ghost use Rattle.fk_store.specs.Store.World.{world};
ghost use Rattle.fk_plans.specs.Plans.Allowed.{is_deed_allowed, is_effect_allowed, is_plan_allowed, IsVerdictAllowed, may_pick};
ghost use Rattle.fk_plans.specs.Plans.Movings.{plan_of, verdict_of};
ghost use Rattle.fk_plans.specs.Plans.Plans.{holder_by};
ghost use Rattle.fk_plans.specs.Plans.Verdicts.{IsVerdict, move_by};

use crate::plans::plan::{Deed, Effect, Moving, Plan, Verdict};
use crate::plans::renaming::may_move;
use crate::plans::ties::{
    is_fault_unfrozen, is_peer_unfrozen, is_taker_unfrozen, is_talk_unfrozen,
};
use fk_changes::deaths::{
    fault_leads_to_frozen, leads_to_frozen, may_destroy, peer_leads_to_frozen, talk_leads_to_frozen,
};
use fk_changes::readers::Caller;
use fk_model::{Fault, Peer, Ptr, Talk, Who};
use fk_store::Store;

/// Nothing is frozen to which an object leads.
fn is_object_unfrozen(store: &Store, me: Who, object: Who) -> bool
    ensures { result ≡ are_unfrozen (world store.now) (place (path store.now) me) (body_pointers ((world store.now).body (place (path store.now) object))) }
{
    match store.at(object) {
        Some(body) => !leads_to_frozen(store, me, body),
        None => true,
    }
}

/// A holder isn't frozen.
fn is_holder_unfrozen(store: &Store, me: Who, holder: Option<Who>) -> bool
    ensures { result ≡ are_unfrozen (world store.now) (place (path store.now) me) (option_list (λ to. to ∷ []) (holder_by (path store.now) holder)) }
{
    match holder {
        Some(who) => !store.frozen_for(me, who),
        None => true,
    }
}

/// The freezing rule allows that the pointer of an object leads elsewhere.
fn may_point(store: &Store, me: Who, object: Who, to: Ptr) -> bool
    ensures { result ≡ is_deed_allowed (world store.now) (place (path store.now) me) (path store.now) (Deed.Points object to) }
{
    !store.frozen_for(me, object)
        && is_object_unfrozen(store, me, object)
        && !store.leads_to_frozen(me, to)
}

/// It allows that a thread is the client of a new talk.
fn may_link(store: &Store, me: Who, client: Who, talk: Talk) -> bool
    ensures { result ≡ is_deed_allowed (world store.now) (place (path store.now) me) (path store.now) (Deed.Links client talk) }
{
    !store.frozen_for(me, client)
        && is_talk_unfrozen(store, me, client)
        && !talk_leads_to_frozen(store, me, Some(talk))
}

/// It allows that a client's talk has this peer.
fn may_serve(store: &Store, me: Who, client: Who, peer: Peer) -> bool
    ensures { result ≡ is_deed_allowed (world store.now) (place (path store.now) me) (path store.now) (Deed.Serves client peer) }
{
    !store.frozen_for(me, client)
        && is_peer_unfrozen(store, me, client)
        && !peer_leads_to_frozen(store, me, Some(peer))
}

/// It allows that a thread has this fault.
fn may_raise(store: &Store, me: Who, thread: Who, fault: Fault) -> bool
    ensures { result ≡ is_deed_allowed (world store.now) (place (path store.now) me) (path store.now) (Deed.Raises thread fault) }
{
    !store.frozen_for(me, thread)
        && is_fault_unfrozen(store, me, thread)
        && !fault_leads_to_frozen(store, me, Some(fault))
}

/// It allows that the fault of a thread has this taker.
fn may_take(store: &Store, me: Who, thread: Who, taker: Peer) -> bool
    ensures { result ≡ is_deed_allowed (world store.now) (place (path store.now) me) (path store.now) (Deed.Takes thread taker) }
{
    !store.frozen_for(me, thread)
        && is_taker_unfrozen(store, me, thread)
        && !peer_leads_to_frozen(store, me, Some(taker))
}

/// It allows that a space is held by a thread, or by nobody.
fn may_hold(store: &Store, me: Who, space: Who, holder: Option<Who>) -> bool
    ensures { result ≡ is_deed_allowed (world store.now) (place (path store.now) me) (path store.now) (Deed.Holds space holder) }
{
    !store.frozen_for(me, space)
        && is_object_unfrozen(store, me, space)
        && is_holder_unfrozen(store, me, holder)
}

/// The freezing rule allows a deed.
fn is_deed_allowed(store: &Store, me: Who, deed: &Deed) -> bool
    ensures { result ≡ is_deed_allowed (world store.now) (place (path store.now) me) (path store.now) deed.now }
{
    match *deed {
        Deed::Locks { mutex, .. } => !store.frozen_for(me, mutex),
        Deed::Points { object, to } => may_point(store, me, object, to),
        Deed::Wakes { thread, .. } => !store.frozen_for(me, thread),
        Deed::Sleeps { thread, .. }
        | Deed::Shifts { thread, .. }
        | Deed::Ends { thread, .. }
        | Deed::Stops { thread, .. }
        | Deed::Finishes { thread, .. } => !store.frozen_for(me, thread),
        Deed::Records { to, .. } | Deed::Copies { to, .. } => !store.space_frozen_for(me, to.0),
        Deed::Sends(block) => !store.space_frozen_for(me, block.to.0),
        Deed::Drops { space, .. } => !store.space_frozen_for(me, space),
        Deed::Counts { client, .. } | Deed::Passes { client, .. } => {
            !store.frozen_for(me, client)
        }
        Deed::Unlinks { client } => {
            !store.frozen_for(me, client) && is_talk_unfrozen(store, me, client)
        }
        Deed::Links { client, talk } => may_link(store, me, client, talk),
        Deed::Serves { client, peer } => may_serve(store, me, client, peer),
        Deed::Frees { thread } => {
            !store.frozen_for(me, thread) && is_fault_unfrozen(store, me, thread)
        }
        Deed::Raises { thread, fault } => may_raise(store, me, thread, fault),
        Deed::Takes { thread, taker } => may_take(store, me, thread, taker),
        Deed::Holds { space, holder } => may_hold(store, me, space, holder),
    }
}

/// The freezing rule allows all of a plan.
#[inline(always)]
fn is_plan_allowed(store: &Store, me: Who, plan: &Plan) -> bool
    ensures { result ≡ is_plan_allowed (world store.now) (place (path store.now) me) (path store.now) plan.now }
{
    match plan {
        Plan::Nothing => true,
        Plan::One(a) => is_deed_allowed(store, me, a),
        Plan::Two(a, b) => is_deed_allowed(store, me, a) && is_deed_allowed(store, me, b),
        Plan::Moves {
            block,
            client,
            receiver,
            sender,
        } => {
            !store.space_frozen_for(me, block.to.0)
                && !store.frozen_for(me, *client)
                && !store.frozen_for(me, *receiver)
                && !store.frozen_for(me, *sender)
        }
        Plan::HandsOver {
            reference,
            to,
            receiver,
            client,
            ..
        } => {
            may_point(store, me, *reference, *to)
                && !store.frozen_for(me, *receiver)
                && !store.frozen_for(me, *client)
        }
        Plan::Makes { object, .. } => !store.frozen_for(me, *object),
        Plan::MakesHeld { object, holder } => {
            !store.frozen_for(me, *object) && !store.frozen_for(me, *holder)
        }
        Plan::Gives { space, .. } => !store.space_frozen_for(me, *space),
    }
}

/// The freezing rule allows that words move.
#[inline(always)]
fn is_moving_allowed(store: &Store, me: Who, moving: &Moving) -> bool
    ensures { result ≡ is_plan_allowed (world store.now) (place (path store.now) me) (path store.now) (plan_of moving.now) }
{
    !store.space_frozen_for(me, moving.block.to.0)
        && !store.frozen_for(me, moving.client)
        && !store.frozen_for(me, moving.receiver)
        && !store.frozen_for(me, moving.sender)
}

/// The freezing rule allows an effect.
#[inline(always)]
fn is_effect_allowed(store: &Store, me: Who, effect: &Effect) -> bool
    ensures { result ≡ is_effect_allowed (world store.now) (place (path store.now) me) (path store.now) effect.now }
{
    match effect {
        Effect::Stores { space, .. } => !store.space_frozen_for(me, *space),
        Effect::Puts { .. } | Effect::Jumps { .. } | Effect::Halts { .. } | Effect::Enters => true,
    }
}

/// The freezing rule allows what a verdict does.
#[inline(always)]
fn is_verdict_allowed(store: &Store, caller: Caller, verdict: &Verdict) -> bool
    requires fits { IsVerdict store.now caller verdict.now }
    ensures { IsTrue result ↔ IsVerdictAllowed (world store.now) (place (path store.now) caller.who) (path store.now) verdict.now }
{
    match verdict {
        Verdict::Runs(effect) => is_effect_allowed(store, caller.who, effect),
        Verdict::Refused(_)
        | Verdict::ShowsRecord { .. }
        | Verdict::Sets { .. }
        | Verdict::WakesAll { .. } => true,
        Verdict::Waits => false,
        Verdict::Done(plan, _)
        | Verdict::Ends(plan, _)
        | Verdict::Shows { plan, .. }
        | Verdict::Goes(plan)
        | Verdict::Tells { plan, .. } => is_plan_allowed(store, caller.who, plan),
        Verdict::Renames { object, .. } => may_move(store, caller.who, *object),
        Verdict::Destroys { object, .. } => may_destroy(store, caller.who, *object),
        Verdict::Faults { port, .. } => !store.frozen_for(caller.who, *port),
    }
}

/// Whether a stage with this verdict may pick so.
#[inline(always)]
fn may_pick(chooses: bool, pick: Option<Who>, verdict: &Verdict) -> bool
    ensures { result ≡ may_pick chooses pick verdict.now }
{
    match verdict {
        Verdict::Refused(_) => pick.is_none(),
        Verdict::Waits => true,
        Verdict::Runs(_)
        | Verdict::Done(..)
        | Verdict::Ends(..)
        | Verdict::Shows { .. }
        | Verdict::ShowsRecord { .. }
        | Verdict::Sets { .. }
        | Verdict::Renames { .. }
        | Verdict::Destroys { .. }
        | Verdict::WakesAll { .. }
        | Verdict::Goes(_)
        | Verdict::Tells { .. }
        | Verdict::Faults { .. } => chooses || pick.is_none(),
    }
}

/// Whether a free user, or a porter, who is judged so is ready: it picks somebody only where its
/// stage chooses and isn't refused, and the freezing rule allows all that it does.
#[tactic(auto, using(crate::proofs::InPlans::Ready::never_picks))]
#[inline(always)]
pub fn is_ready(
    store: &Store,
    caller: Caller,
    chooses: bool,
    pick: Option<Who>,
    verdict: &Verdict,
) -> bool
    requires free { caller.is_porter ≡ false → is_free_at (world store.now) (place (path store.now) caller.who) ≡ true }
    requires fits { IsVerdict store.now caller verdict.now }
    ensures { (words : List ℕ) →
        IsTrue result ↔ GoesAllowed (world store.now) (place (path store.now) caller.who) (move_by store.now caller words chooses pick verdict.now) }
{
    may_pick(chooses, pick, verdict) && is_verdict_allowed(store, caller, verdict)
}

/// Whether an instruction with this effect is ready: it picks nobody, and the freezing rule allows it.
#[tactic(auto, using(crate::proofs::InPlans::Ready::never_picks))]
#[inline(always)]
pub fn is_effect_ready(store: &Store, caller: Caller, pick: Option<Who>, effect: &Effect) -> bool
    requires free { caller.is_porter ≡ false → is_free_at (world store.now) (place (path store.now) caller.who) ≡ true }
    requires fits { IsVerdict store.now caller (Verdict.Runs effect.now) }
    ensures { (words : List ℕ) → IsTrue result
        ↔ GoesAllowed (world store.now) (place (path store.now) caller.who) (move_by store.now caller words false pick (Verdict.Runs effect.now)) }
{
    match pick {
        None => is_effect_allowed(store, caller.who, effect),
        Some(_) => false,
    }
}

/// Whether words that move are ready to: their sender picks nobody, and the freezing rule allows it.
#[tactic(auto, using(crate::proofs::InPlans::Ready::never_picks))]
pub fn is_moving_ready(store: &Store, caller: Caller, pick: Option<Who>, moving: &Moving) -> bool
    requires free { caller.is_porter ≡ false → is_free_at (world store.now) (place (path store.now) caller.who) ≡ true }
    requires fits { IsVerdict store.now caller (verdict_of moving.now) }
    ensures { (words : List ℕ) → IsTrue result
        ↔ GoesAllowed (world store.now) (place (path store.now) caller.who) (move_by store.now caller words false pick (verdict_of moving.now)) }
{
    match pick {
        None => is_moving_allowed(store, caller.who, moving),
        Some(_) => false,
    }
}
