//! The stages by which a porter makes a talk again.
ghost use Rattle.std.specs.Prelude.{◌≡◌, ℕ, [], ◌∷◌, true, Some, IfOk, length};
ghost use Rattle.fk_model.specs.LinkRows as rows;
ghost use Rattle.fk_model.specs.Outcomes as outcomes;
ghost use Rattle.fk_model.specs.Outcomes.{done};
ghost use Rattle.fk_model.specs.Places.{Path};
ghost use Rattle.fk_model.specs.Places.Ptr.{At};
ghost use Rattle.fk_model.specs.Valid.{are_talk_words};
ghost use Rattle.fk_model.specs.World.Change.{Alter};
ghost use Rattle.fk_model.specs.World.Edit.{SetTalk};
ghost use Rattle.fk_store.specs.Store.Bodies.{peer_by, talk_by};
ghost use Rattle.fk_store.specs.Store.Named.{OnPeer};
ghost use Rattle.fk_store.specs.Store.Paths.{path, place as placed};
ghost use Rattle.fk_store.specs.Store.World.{world, IsLive, IsSpace};
ghost use Rattle.fk_plans.specs.Plans.Plans.{caller_by};
ghost use Rattle.fk_plans.specs.Plans.Verdicts.{outcome_by, IsSureVerdict, IsVerdict, JudgesGiven};

use fk_changes::readers::{Caller, place, port_in, referred, thread_in};
use fk_changes::threads::Answers;
use fk_model::{Kind, Peer, Talk, Turn, Who};
use fk_plans::{Deed, Plan, Verdict, unfrozen};
use fk_store::Store;

/// The side with this number.
fn turn_by(number: u64) -> Turn
    ensures { result ≡ rows.turn_by number }
{
    if number == 1 {
        Turn::Client
    } else {
        Turn::Server
    }
}

/// The talk that a porter's words say: whose turn it is, and the words moved.
fn given_talk(given: &[u64], port: Who, peer: Peer) -> Talk
    requires long { length given.now ≡ 64 }
    requires words { are_talk_words given.now ≡ true }
    ensures port { result.port ≡ port }
    ensures peer { result.peer ≡ peer }
    ensures talk { (p : ℕ → Path) (c : outcomes.Caller) → c.words ≡ given.now →
        Some (talk_by p result) ≡ rows.given_talk c (At (placed p port)) (peer_by p peer) }
{
    Talk {
        port,
        peer,
        turn: turn_by(given[0]),
        moved: given[1] as u16,
    }
}

/// A thread is the client of the talk that a porter's words say.
fn links(
    store: &Store,
    caller: Caller,
    given: &[u64],
    client: Who,
    port: Who,
    peer: Peer,
) -> Verdict
    requires given { length given.now ≡ 64 }
    requires words { are_talk_words given.now ≡ true }
    requires port { IsLive store.now port }
    requires peer { OnPeer (IsLive store.now) peer }
    ensures outcome { let p = path store.now in let c = caller_by p caller given.now in
        outcome_by (world store.now) p c result
        ≡ done c (Alter (placed p client) (SetTalk (rows.given_talk c (At (placed p port)) (peer_by p peer))) ∷ []) [] }
    ensures fits { IsVerdict store.now caller result }
    ensures sure { IsSureVerdict result }
{
    let talk = given_talk(given, port, peer);
    Verdict::Done(Plan::One(Deed::Links { client, talk }), Answers::Nothing)
}

/// A thread is the client of a talk at a port, with a server, to which references lead.
///
/// # Errors
///
/// The status of the first refusal: its place (BADHANDLE, WRONGKIND, NULLREF, DEAD); the slot (BADHANDLE, WRONGKIND); the reference to the port, then that to
/// the server (BADHANDLE, WRONGKIND, NULLREF, DEAD); HELD.
#[tactic(auto, unfolding(fk_model::specs::LinkRows::link_set))]
pub fn link_set(
    store: &Store,
    caller: Caller,
    given: &[u64],
    s: u64,
    x: u64,
    port: u64,
    server: u64,
) -> Result<Verdict, u8>
    requires space { IsSpace store.now caller.who.space }
    requires given { length given.now ≡ 64 }
    requires words { are_talk_words given.now ≡ true }
    ensures row { JudgesGiven store.now caller given.now result (λ w c. rows.link_set w c s x port server) }
    ensures sure { IfOk result IsSureVerdict }
{
    let space = place(store, caller, s)?;
    thread_in(store, caller, space, x)?;
    let at = referred(store, caller, Kind::Port, port)?;
    let by = referred(store, caller, Kind::Thread, server)?;
    let client = unfrozen(store, caller, space, x)?;
    Ok(links(store, caller, given, client, at, Peer::Thread(by)))
}

/// A thread is the client of a talk that is parked at a port of the caller's space.
///
/// # Errors
///
/// The status of the first refusal: its place (BADHANDLE, WRONGKIND, NULLREF, DEAD); the slot (BADHANDLE, WRONGKIND); the port (BADHANDLE, WRONGKIND); HELD.
#[tactic(auto, unfolding(fk_model::specs::LinkRows::link_park))]
pub fn link_park(
    store: &Store,
    caller: Caller,
    given: &[u64],
    s: u64,
    x: u64,
    port: u64,
) -> Result<Verdict, u8>
    requires space { IsSpace store.now caller.who.space }
    requires given { length given.now ≡ 64 }
    requires words { are_talk_words given.now ≡ true }
    ensures row { JudgesGiven store.now caller given.now result (λ w c. rows.link_park w c s x port) }
    ensures sure { IfOk result IsSureVerdict }
{
    let space = place(store, caller, s)?;
    thread_in(store, caller, space, x)?;
    port_in(store, caller, caller.who.space, port)?;
    let client = unfrozen(store, caller, space, x)?;
    let at = Who {
        space: caller.who.space,
        slot: port as u8,
    };
    Ok(links(store, caller, given, client, at, Peer::Parked))
}
