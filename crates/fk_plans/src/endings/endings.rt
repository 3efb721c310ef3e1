//! The port whose native server loses its client.
ghost use Rattle.std.specs.Prelude.{◌≡◌, ℕ, List, option_map};
ghost use Rattle.fk_model.specs.Moves.{closed, stepped};
ghost use Rattle.fk_model.specs.Objects.{and_then, holds};
ghost use Rattle.fk_model.specs.Places.{Path, same_path};
ghost use Rattle.fk_model.specs.Valid.{IsValid};
ghost use Rattle.fk_store.specs.Store.Bodies.{talk_by};
ghost use Rattle.fk_store.specs.Store.Contents.{Contents};
ghost use Rattle.fk_store.specs.Store.Named.{Each, OnTalk};
ghost use Rattle.fk_store.specs.Store.Paths.{path, place, HasOwnPath};
ghost use Rattle.fk_store.specs.Store.World.{world, IsLive};
ghost use Rattle.fk_plans.specs.Plans.Plans.{caller_by, moves_talk};
ghost use Rattle.fk_plans.specs.Plans.Verdicts.{outcome_by, IsVerdict};
ghost use Rattle.fk_plans.specs.Endings.Clients as clients;
ghost use Rattle.fk_plans.specs.Endings.Clients.{native_at, IsEnding};
ghost use Rattle.fk_plans.specs.Endings.Endings as endings;
ghost use Rattle.fk_plans.specs.Endings.Endings.{IsLeft, IsRenamed};

use crate::plans::{Deed, Plan, Verdict};
use fk_changes::deaths::told_port;
use fk_changes::readers::Caller;
use fk_model::{Peer, Talk, Who};
use fk_store::Store;

/// The port whose native server serves a talk.
fn native_port(talk: Talk) -> Option<Who>
    ensures port { (p : ℕ → Path) → option_map (place p) result ≡ clients.native_port (talk_by p talk) }
    ensures named { (m : Contents) → OnTalk (IsLive m) talk → Each (IsLive m) result }
{
    match talk.peer {
        Peer::Service => Some(talk.port),
        Peer::Thread(_) | Peer::Parked => None,
    }
}

/// The port of whose native server the thread in a slot is a client.
fn native_of(store: &Store, who: Who) -> Option<Who>
    ensures port { option_map (place (path store.now)) result ≡ native_at (world store.now) (place (path store.now) who) }
    ensures named { Each (IsLive store.now) result }
{
    native_port(store.thread(who)?.talk?)
}

/// A port is this one.
fn is_port(other: Option<Who>, port: Who) -> bool
    ensures { (p : ℕ → Path) → HasOwnPath p port → result ≡ holds (λ x. same_path x (place p port)) (option_map (place p) other) }
{
    match other {
        Some(other) => other == port,
        None => false,
    }
}

/// The port of whose native server a thread is a client and will be none, as then it is one of this
/// port's, if of any.
fn left(store: &Store, client: Who, next: Option<Who>) -> Option<Who>
    ensures port { option_map (place (path store.now)) result
        ≡ clients.lost (native_at (world store.now) (place (path store.now) client)) (option_map (place (path store.now)) next) }
    ensures named { Each (IsLive store.now) result }
{
    let port = native_of(store, client)?;
    if store.at(port).is_none() {
        unreachable!();
    }
    if is_port(next, port) {
        return None;
    }
    Some(port)
}

/// The port of whose native server a thread is a client and will be none, as its talk gets another peer, if of any.
fn left_to(store: &Store, client: Who, peer: Peer) -> Option<Who>
    ensures port { option_map (place (path store.now)) result
        ≡ endings.lost_to (native_at (world store.now) (place (path store.now) client)) peer }
    ensures named { Each (IsLive store.now) result }
{
    match peer {
        Peer::Service => None,
        Peer::Thread(_) | Peer::Parked => native_of(store, client),
    }
}

/// A deed begins a talk or ends one, or gives it another peer.
fn moves_talk(deed: &Deed) -> bool
    ensures { result ≡ moves_talk deed.now }
{
    matches!(
        deed,
        Deed::Unlinks { .. } | Deed::Links { .. } | Deed::Serves { .. }
    )
}

/// The port whose native server loses its client by a deed.
fn left_by(store: &Store, deed: &Deed) -> Option<Who>
    ensures port { option_map (place (path store.now)) result ≡ endings.left_by (world store.now) (path store.now) deed.now }
    ensures named { Each (IsLive store.now) result }
{
    match *deed {
        Deed::Unlinks { client } => native_of(store, client),
        Deed::Links { client, talk } => left(store, client, native_port(talk)),
        Deed::Serves { client, peer } => left_to(store, client, peer),
        _ => None,
    }
}

/// By a plan.
fn left_by_plan(store: &Store, plan: &Plan) -> Option<Who>
    ensures port { option_map (place (path store.now)) result ≡ endings.left_by_plan (world store.now) (path store.now) plan.now }
    ensures named { Each (IsLive store.now) result }
{
    match plan {
        Plan::One(a) => left_by(store, a),
        Plan::Two(a, b) => {
            if moves_talk(a) {
                left_by(store, a)
            } else {
                left_by(store, b)
            }
        }
        Plan::Nothing
        | Plan::Moves { .. }
        | Plan::HandsOver { .. }
        | Plan::Makes { .. }
        | Plan::MakesHeld { .. }
        | Plan::Gives { .. } => None,
    }
}

/// A port that is renamed, if its native server has a client. No row renames such a port; were one
/// renamed, who serves it would know it no more.
fn left_at(store: &Store, object: Who) -> Option<Who>
    requires live { IsLive store.now object }
    ensures port { option_map (place (path store.now)) result ≡ endings.left_at (world store.now) (place (path store.now) object) }
    ensures named { Each (IsLive store.now) result }
{
    match store.client_at(object) {
        Some(_) => Some(object),
        None => None,
    }
}

/// By a verdict.
#[inline(always)]
fn left_by_verdict(store: &Store, verdict: &Verdict) -> Option<Who>
    requires live { IsRenamed store.now verdict.now }
    ensures port { IsLeft (world store.now) (path store.now) verdict.now (option_map (place (path store.now)) result) }
    ensures named { Each (IsLive store.now) result }
{
    match verdict {
        Verdict::Done(plan, _)
        | Verdict::Ends(plan, _)
        | Verdict::Shows { plan, .. }
        | Verdict::Goes(plan)
        | Verdict::Tells { plan, .. } => left_by_plan(store, plan),
        Verdict::Renames { object, .. } => left_at(store, *object),
        Verdict::Destroys { object, .. } => told_port(store, *object),
        Verdict::Runs(_)
        | Verdict::Refused(_)
        | Verdict::Waits
        | Verdict::ShowsRecord { .. }
        | Verdict::Sets { .. }
        | Verdict::WakesAll { .. }
        | Verdict::Faults { .. } => None,
    }
}

/// The port whose native server loses its client by what a verdict does; none where each that has one
/// keeps one.
#[inline(always)]
pub fn ended_by(store: &Store, caller: Caller, verdict: &Verdict) -> Option<Who>
    requires valid { IsValid (world store.now) }
    requires fits { IsVerdict store.now caller verdict.now }
    ensures ending { (words : List ℕ) → let c = caller_by (path store.now) caller words in
        IsEnding (world store.now) (stepped (world store.now) (closed c (outcome_by (world store.now) (path store.now) c verdict.now))).world
        (option_map (place (path store.now)) result) }
    ensures apart { Each (HasOwnPath (path store.now)) result }
{
    // Tells that names and paths agree.
    store.names();
    match left_by_verdict(store, verdict) {
        Some(port) => {
            // A look tells that no other object has the path of this one.
            if store.at(port).is_none() {
                unreachable!();
            }
            Some(port)
        }
        None => None,
    }
}
