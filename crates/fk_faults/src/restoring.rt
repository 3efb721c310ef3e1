//! The stages by which a porter makes a fault again.
ghost use Rattle.std.specs.Prelude.{◌≡◌, ℕ, List, [], ◌∷◌, true, Some, IfOk, length, option_map};
ghost use Rattle.fk_model.specs.FaultRows as rows;
ghost use Rattle.fk_model.specs.Outcomes as outcomes;
ghost use Rattle.fk_model.specs.Outcomes.{done};
ghost use Rattle.fk_model.specs.Places.{Path};
ghost use Rattle.fk_model.specs.Places.Ptr.{At};
ghost use Rattle.fk_model.specs.Valid.{are_fault_words};
ghost use Rattle.fk_model.specs.World.Change.{Alter};
ghost use Rattle.fk_model.specs.World.Edit.{SetFault};
ghost use Rattle.fk_store.specs.Store.Bodies.{fault_by, peer_by};
ghost use Rattle.fk_store.specs.Store.Named.{Each, OnPeer};
ghost use Rattle.fk_store.specs.Store.Paths.{path, place as placed};
ghost use Rattle.fk_store.specs.Store.World.{world, IsLive, IsSpace};
ghost use Rattle.fk_plans.specs.Plans.Plans.{caller_by};
ghost use Rattle.fk_plans.specs.Plans.Verdicts.{mapped, outcome_by, IsSureVerdict, IsVerdict, JudgesGiven};

use fk_changes::readers::{Caller, place, port_in, referred, thread_in};
use fk_changes::threads::Answers;
use fk_model::limits::OWN_SPACE;
use fk_model::{Fault, Kind, Peer, Who};
use fk_plans::{Deed, Plan, Verdict, unfrozen};
use fk_store::Store;

/// The fault that a porter's words say: its page, and 1 for a write.
fn given_fault(given: &[u64], port: Who, taker: Option<Peer>) -> Fault
    requires long { length given.now ≡ 64 }
    requires words { are_fault_words given.now ≡ true }
    ensures port { result.port ≡ port }
    ensures taker { result.taker ≡ taker }
    ensures fault { (p : ℕ → Path) (c : outcomes.Caller) → c.words ≡ given.now →
        Some (fault_by p result) ≡ rows.given_fault c (At (placed p port)) (option_map (peer_by p) taker) }
{
    Fault {
        page: given[0] as u8,
        write: given[1] == 1,
        port,
        taker,
    }
}

/// A thread has the fault that a porter's words say.
fn raises(
    store: &Store,
    caller: Caller,
    given: &[u64],
    thread: Who,
    port: Who,
    taker: Option<Peer>,
) -> Verdict
    requires given { length given.now ≡ 64 }
    requires words { are_fault_words given.now ≡ true }
    requires port { IsLive store.now port }
    requires taker { Each (OnPeer (IsLive store.now)) taker }
    ensures outcome { let p = path store.now in let c = caller_by p caller given.now in
        outcome_by (world store.now) p c result
        ≡ done c (Alter (placed p thread) (SetFault (rows.given_fault c (At (placed p port)) (option_map (peer_by p) taker))) ∷ []) [] }
    ensures fits { IsVerdict store.now caller result }
    ensures sure { IsSureVerdict result }
{
    let fault = given_fault(given, port, taker);
    Verdict::Done(Plan::One(Deed::Raises { thread, fault }), Answers::Nothing)
}

/// The thread that takes the fault, to which a reference leads; none for 256.
fn named_taker(store: &Store, caller: Caller, taker: u64) -> Result<Option<Peer>, u8>
    ensures taker { (words : List ℕ) → mapped (option_map (peer_by (path store.now))) result
        ≡ rows.named_taker (world store.now) (caller_by (path store.now) caller words) taker }
    ensures live { IfOk result (Each (OnPeer (IsLive store.now))) }
{
    if taker == OWN_SPACE {
        return Ok(None);
    }
    let thread = referred(store, caller, Kind::Thread, taker)?;
    Ok(Some(Peer::Thread(thread)))
}

/// A thread has a fault on a port to which a reference leads. A thread has taken it, or nobody.
///
/// # Errors
///
/// The status of the first refusal: its place (BADHANDLE, WRONGKIND, NULLREF, DEAD); the slot (BADHANDLE, WRONGKIND); the reference to the port, then that to
/// the taker (BADHANDLE, WRONGKIND, NULLREF, DEAD); HELD.
#[tactic(auto, unfolding(fk_model::specs::FaultRows::fault_set))]
pub fn fault_set(
    store: &Store,
    caller: Caller,
    given: &[u64],
    s: u64,
    x: u64,
    port: u64,
    taker: u64,
) -> Result<Verdict, u8>
    requires space { IsSpace store.now caller.who.space }
    requires given { length given.now ≡ 64 }
    requires words { are_fault_words given.now ≡ true }
    ensures row { JudgesGiven store.now caller given.now result (λ w c. rows.fault_set w c s x port taker) }
    ensures sure { IfOk result IsSureVerdict }
{
    let space = place(store, caller, s)?;
    thread_in(store, caller, space, x)?;
    let at = referred(store, caller, Kind::Port, port)?;
    let by = named_taker(store, caller, taker)?;
    let thread = unfrozen(store, caller, space, x)?;
    Ok(raises(store, caller, given, thread, at, by))
}

/// A thread has a fault on a port of the caller's space. It is raised there, or parked.
///
/// # Errors
///
/// The status of the first refusal: its place (BADHANDLE, WRONGKIND, NULLREF, DEAD); the slot (BADHANDLE, WRONGKIND); the port (BADHANDLE, WRONGKIND); HELD.
#[tactic(auto, unfolding(fk_model::specs::FaultRows::fault_park))]
pub fn fault_park(
    store: &Store,
    caller: Caller,
    given: &[u64],
    s: u64,
    x: u64,
    port: u64,
    taken: u64,
) -> Result<Verdict, u8>
    requires space { IsSpace store.now caller.who.space }
    requires given { length given.now ≡ 64 }
    requires words { are_fault_words given.now ≡ true }
    ensures row { JudgesGiven store.now caller given.now result (λ w c. rows.fault_park w c s x port taken) }
    ensures sure { IfOk result IsSureVerdict }
{
    let space = place(store, caller, s)?;
    thread_in(store, caller, space, x)?;
    port_in(store, caller, caller.who.space, port)?;
    let thread = unfrozen(store, caller, space, x)?;
    let at = Who {
        space: caller.who.space,
        slot: port as u8,
    };
    if taken == 1 {
        let taker = Some(Peer::Parked);
        return Ok(raises(store, caller, given, thread, at, taker));
    }
    Ok(raises(store, caller, given, thread, at, None))
}
