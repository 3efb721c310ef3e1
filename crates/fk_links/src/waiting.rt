//! The stage that takes a client, or a fault, at a port of a set.
ghost use Rattle.std.specs.Prelude.{◌≡◌, ℕ, List, Some, false, is_some, option_map, IfOk, if◌then◌else◌};
ghost use Rattle.fk_model.specs.LinkRows as rows;
ghost use Rattle.fk_model.specs.LinkRows.{portset_of};
ghost use Rattle.fk_model.specs.Places.{Path};
ghost use Rattle.fk_model.specs.Readers.{object_in};
ghost use Rattle.fk_model.specs.World.{World};
ghost use Rattle.fk_store.specs.Store.Bodies.{fault_by, peer_by, talk_by};
ghost use Rattle.fk_store.specs.Store.Contents.{Contents};
ghost use Rattle.fk_store.specs.Store.Moves.{picked_by};
ghost use Rattle.fk_store.specs.Store.Paths.{path, place};
ghost use Rattle.fk_store.specs.Store.Threads.{todo_at};
ghost use Rattle.fk_store.specs.Store.World.{world, IsLive};
ghost use Rattle.fk_changes.specs.Threads.Firsts.{IsFirst};
ghost use Rattle.fk_plans.specs.Plans.Plans.{caller_by};
ghost use Rattle.fk_plans.specs.Plans.Verdicts.{mapped, outcome_by, IsSureVerdict, IsVerdict, Judges};
ghost use Rattle.fk_links.specs.Candidates.{portset, IsCandidate};
ghost use Rattle.fk_links.specs.Connects.{is_connecting};

use crate::candidates::{Candidate, candidate_of};
use fk_changes::readers::{Caller, slot_for};
use fk_changes::records::{flag, turn_number};
use fk_changes::threads::{Answers, Four};
use fk_model::status::{BADHANDLE, LINKED, WRONGKIND};
use fk_model::{Body, Fault, Peer, Stage, Talk, Turn, Who};
use fk_plans::{Deed, Plan, Verdict};
use fk_store::Store;

/// A port set is in a slot of the caller's space.
#[tactic(auto, unfolding(fk_model::specs::Readers::object_in))]
fn portset_in(store: &Store, caller: Caller, k: u64) -> Result<(), u8>
    ensures { (words : List ℕ) → mapped portset result
        ≡ object_in (world store.now) (caller_by (path store.now) caller words) portset_of (path store.now caller.who.space) k }
{
    let slot = slot_for(caller, k)?;
    let space = caller.who.space;
    match store.at(Who { space, slot }) {
        None => Err(BADHANDLE),
        Some(Body::Portset) => Ok(()),
        Some(_) => Err(WRONGKIND),
    }
}

/// What tells a fault that was raised from one that was parked.
fn fault_number(taker: Option<Peer>) -> u64
    ensures { (p : ℕ → Path) → result ≡ if is_some (option_map (peer_by p) taker) then 3 else 1 }
{
    match taker {
        Some(_) => 3,
        None => 1,
    }
}

/// The caller takes the fault of a thread, and its call ends.
fn takes_fault(caller: Caller, thread: Who, slot: u8, fault: Fault) -> Verdict
    ensures outcome { (w : World) (p : ℕ → Path) (words : List ℕ) → outcome_by w p (caller_by p caller words) result
        ≡ rows.takes_candidate (caller_by p caller words) (place p thread) (Some (rows.Faulting slot (fault_by p fault))) }
    ensures fits { (m : Contents) → IsLive m caller.who → IsVerdict m caller result }
    ensures sure { IsSureVerdict result }
{
    let taker = Peer::Thread(caller.who);
    let number = fault_number(fault.taker);
    let answers = Four {
        first: u64::from(slot),
        second: number,
        third: u64::from(fault.page),
        fourth: flag(fault.write),
    };
    Verdict::Ends(Plan::One(Deed::Takes { thread, taker }), answers)
}

/// The caller serves a new talk with a client, whose connect is done.
fn takes_client(caller: Caller, client: Who, slot: u8) -> Verdict
    ensures outcome { (w : World) (p : ℕ → Path) (words : List ℕ) → outcome_by w p (caller_by p caller words) result
        ≡ rows.takes_candidate (caller_by p caller words) (place p client) (Some (rows.Connecting slot)) }
    ensures fits { (m : Contents) → IsLive m caller.who → is_connecting (todo_at (world m) (place (path m) caller.who)) ≡ false
        → IsCandidate m caller.who.space client (Candidate.Connecting slot) → IsVerdict m caller result }
    ensures sure { IsSureVerdict result }
{
    let space = caller.who.space;
    let talk = Talk {
        port: Who { space, slot },
        peer: Peer::Thread(caller.who),
        turn: Turn::Client,
        moved: 0,
    };
    let plan = Plan::Two(
        Deed::Links { client, talk },
        Deed::Finishes {
            thread: client,
            came: None,
        },
    );
    Verdict::Done(plan, Answers::Two(u64::from(slot), 0))
}

/// The caller serves a parked talk of a client, and its call ends.
fn takes_talk(caller: Caller, client: Who, slot: u8, talk: Talk) -> Verdict
    ensures outcome { (w : World) (p : ℕ → Path) (words : List ℕ) → outcome_by w p (caller_by p caller words) result
        ≡ rows.takes_candidate (caller_by p caller words) (place p client) (Some (rows.Resuming slot (talk_by p talk))) }
    ensures fits { (m : Contents) → IsLive m caller.who → IsVerdict m caller result }
    ensures sure { IsSureVerdict result }
{
    let peer = Peer::Thread(caller.who);
    let answers = Four {
        first: u64::from(slot),
        second: 2,
        third: turn_number(talk.turn),
        fourth: u64::from(talk.moved),
    };
    Verdict::Ends(Plan::One(Deed::Serves { client, peer }), answers)
}

/// Takes the thread that is picked, if it is a candidate.
fn takes_picked(store: &Store, caller: Caller, set: u64, who: Who) -> Verdict
    requires live { IsLive store.now caller.who }
    requires apart { is_connecting (todo_at (world store.now) (place (path store.now) caller.who)) ≡ false }
    ensures outcome { (words : List ℕ) → outcome_by (world store.now) (path store.now) (caller_by (path store.now) caller words) result
        ≡ rows.takes_picked (world store.now) (caller_by (path store.now) caller words) set (Some (place (path store.now) who)) }
    ensures fits { IsVerdict store.now caller result }
    ensures sure { IsSureVerdict result }
{
    match candidate_of(store, caller.who.space, set, who) {
        None => Verdict::Waits,
        Some(Candidate::Faulting { slot, fault }) => takes_fault(caller, who, slot, fault),
        Some(Candidate::Connecting { slot }) => takes_client(caller, who, slot),
        Some(Candidate::Resuming { slot, talk }) => takes_talk(caller, who, slot, talk),
    }
}

/// Takes the thread that is picked, at a port of a set of the caller's space: its fault, its connect,
/// or its parked talk. It waits where nobody is picked, or no candidate. The caller, who is at this
/// wait or in no call, may serve no talk and have no fault taken yet.
///
/// # Errors
///
/// The status of the first refusal: the set (BADHANDLE, WRONGKIND); LINKED, where the caller serves a talk or has taken a fault.
#[tactic(auto, using(crate::proofs::Taken::first_apart), unfolding(fk_model::specs::LinkRows::wait))]
pub fn wait(store: &Store, caller: Caller, set: u64, pick: Option<Who>) -> Result<Verdict, u8>
    requires live { IsLive store.now caller.who }
    requires first { IsFirst (Stage.Wait set) (todo_at (world store.now) (place (path store.now) caller.who)) }
    ensures row { Judges store.now caller result (λ w c. rows.wait w c (picked_by (path store.now) pick) set) }
    ensures sure { IfOk result IsSureVerdict }
{
    portset_in(store, caller, set)?;
    if store.served_by(caller.who).is_some() {
        return Err(LINKED);
    }
    Ok(match pick {
        Some(who) => takes_picked(store, caller, set, who),
        None => Verdict::Waits,
    })
}
