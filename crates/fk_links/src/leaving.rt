//! The stages that end a talk: disconnect by the client, end by the server.
ghost use Rattle.std.specs.Prelude.{◌≡◌, ◌++◌, ◌∷◌, ℕ, List, [], None, IfOk, false, option_map};
ghost use Rattle.fk_model.specs.LinkRows as rows;
ghost use Rattle.fk_model.specs.LinkRows.{end_all};
ghost use Rattle.fk_model.specs.Places.Ptr.{At};
ghost use Rattle.fk_model.specs.Searches.{talk_at};
ghost use Rattle.fk_model.specs.Talks.{Line, talking_end};
ghost use Rattle.fk_model.specs.Valid.{IsValid};
ghost use Rattle.fk_model.specs.World.Change.{Alter};
ghost use Rattle.fk_model.specs.World.Edit.{SetTalk};
ghost use Rattle.fk_model.specs.declared.thread.Turn.TheVariants as turns;
ghost use Rattle.fk_store.specs.Store.Bodies.{talk_by};
ghost use Rattle.fk_store.specs.Store.Named.{Each, OnTalk};
ghost use Rattle.fk_store.specs.Store.Paths.{path, place};
ghost use Rattle.fk_store.specs.Store.World.{world, IsLive};
ghost use Rattle.fk_plans.specs.Plans.Plans.{caller_by, changes_by, IsSure};
ghost use Rattle.fk_plans.specs.Plans.Verdicts.{outcome_by, IsPlanOf, IsSureVerdict, IsVerdict, Judges};

use fk_changes::deaths::is_at_talk;
use fk_changes::readers::Caller;
use fk_changes::threads::Answers;
use fk_model::status::{ENDED, NOTLINKED};
use fk_model::{Peer, Talk, Turn, Who};
use fk_plans::{Deed, News, Plan, Verdict};
use fk_store::Store;

/// The talk of a thread as a client.
fn talk_of(store: &Store, who: Who) -> Option<Talk>
    ensures talk { option_map (talk_by (path store.now)) result ≡ talk_at (world store.now) (place (path store.now) who) }
    ensures named { Each (OnTalk (IsLive store.now)) result }
{
    match store.thread(who) {
        Some(thread) => thread.talk,
        None => None,
    }
}

/// The talk of a client ends, and with it the call of its other end, if that is at a Send, an Over or
/// a Receive of it on its side.
fn removal(store: &Store, client: Who, other: Who, side: Turn) -> Plan
    ensures changes { (given : List ℕ) → changes_by (path store.now) given result (world store.now)
        ≡ end_all (talking_end (world store.now) side (At (place (path store.now) other))) ++ Alter (place (path store.now) client) (SetTalk None) ∷ [] }
    ensures fits { (c : Caller) → IsPlanOf store.now c result }
    ensures sure { IsSure result }
{
    let thread = other;
    let status = ENDED;
    if is_at_talk(store, other, side) {
        return Plan::Two(Deed::Ends { thread, status }, Deed::Unlinks { client });
    }
    Plan::One(Deed::Unlinks { client })
}

/// A client leaves its talk. The native server of the port is told, if it is the peer.
fn leaves(store: &Store, caller: Caller, talk: Talk) -> Verdict
    requires user { caller.is_porter ≡ false }
    requires port { IsLive store.now talk.port }
    ensures outcome { (words : List ℕ) → outcome_by (world store.now) (path store.now) (caller_by (path store.now) caller words) result
        ≡ rows.removes (world store.now) (caller_by (path store.now) caller words) turns.Client
        (record { client = place (path store.now) caller.who; talk = talk_by (path store.now) talk; other = (talk_by (path store.now) talk).peer }) }
    ensures fits { IsVerdict store.now caller result }
    ensures sure { IsSureVerdict result }
{
    let client = caller.who;
    let port = talk.port;
    let plan = Plan::One(Deed::Unlinks { client });
    match talk.peer {
        Peer::Thread(server) => {
            let plan = removal(store, client, server, Turn::Server);
            Verdict::Done(plan, Answers::Nothing)
        }
        Peer::Service => Verdict::Tells {
            plan,
            news: News::Ended { port },
            last: true,
        },
        Peer::Parked => Verdict::Done(plan, Answers::Nothing),
    }
}

/// The client leaves its talk, where it has one.
#[tactic(auto, unfolding(fk_model::specs::LinkRows::disconnect, fk_model::specs::Talks::line))]
fn client_leaves(store: &Store, caller: Caller) -> Result<Verdict, u8>
    requires user { caller.is_porter ≡ false }
    ensures row { Judges store.now caller result (λ w c. rows.disconnect w c turns.Client) }
    ensures sure { IfOk result IsSureVerdict }
{
    match talk_of(store, caller.who) {
        None => Err(NOTLINKED),
        Some(talk) => Ok(leaves(store, caller, talk)),
    }
}

/// The server ends the talk that it serves, where it serves one.
fn server_leaves(store: &Store, caller: Caller) -> Result<Verdict, u8>
    requires user { caller.is_porter ≡ false }
    requires valid { IsValid (world store.now) }
    ensures row { Judges store.now caller result (λ w c. rows.disconnect w c turns.Server) }
    ensures sure { IfOk result IsSureVerdict }
{
    match store.client_of(caller.who) {
        None => Err(NOTLINKED),
        Some(client) => {
            let plan = removal(store, client, client, Turn::Client);
            Ok(Verdict::Done(plan, Answers::Nothing))
        }
    }
}

/// A user leaves the talk in which it acts on a side: the client disconnects, or the server ends it.
/// The call of the other end ends too, if that is at a Send, an Over or a Receive of the talk.
///
/// # Errors
///
/// NOTLINKED: it has no such talk.
pub fn disconnect(store: &Store, caller: Caller, side: Turn) -> Result<Verdict, u8>
    requires user { caller.is_porter ≡ false }
    requires valid { IsValid (world store.now) }
    ensures row { Judges store.now caller result (λ w c. rows.disconnect w c side) }
    ensures sure { IfOk result IsSureVerdict }
{
    match side {
        Turn::Client => client_leaves(store, caller),
        Turn::Server => server_leaves(store, caller),
    }
}
