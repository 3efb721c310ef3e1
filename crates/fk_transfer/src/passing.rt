//! Over, on either side of a talk.
ghost use Rattle.std.specs.Prelude.{◌≡◌, ◌≤◌, ℕ, List, false, None, option_map, IfOk, IfSome, IsSome};
ghost use Rattle.fk_model.specs.declared.limits.TheConstants.{LAST_USER_SLOT};
ghost use Rattle.fk_model.specs.Places.Ptr.{At};
ghost use Rattle.fk_model.specs.declared.thread.Turn.TheVariants as turns;
ghost use Rattle.fk_model.specs.Talks as talks;
ghost use Rattle.fk_model.specs.TransferRows as rows;
ghost use Rattle.fk_model.specs.Valid.{IsValid};
ghost use Rattle.fk_store.specs.Store.Bodies.{peer_by, pointer_by};
ghost use Rattle.fk_store.specs.Store.Named.{OnPointer};
ghost use Rattle.fk_store.specs.Store.Paths.{path, place};
ghost use Rattle.fk_store.specs.Store.World.{world, IsLive};
ghost use Rattle.fk_changes.specs.Threads.Answers.{came_answers};
ghost use Rattle.fk_plans.specs.Plans.Plans.{caller_by};
ghost use Rattle.fk_plans.specs.Plans.Verdicts.{outcome_by, IsSureVerdict, IsVerdict, Judges};
ghost use Rattle.fk_transfer.specs.Lines.{line_by, passed_by, passed_of, yielded_of, IsReceiver, IsServed, Meets};

use crate::lines::{Line, in_turn, other_side};
use fk_changes::readers::{Caller, reference_in};
use fk_changes::threads::{Answers, awaited_by, receiving};
use fk_model::{Peer, Ptr, Turn, Who};
use fk_plans::{Deed, News, Plan, Verdict};
use fk_store::Store;

/// The receive of a thread is done, which answers whether a pointer came where it awaited one, and the
/// turn is the other side's.
fn passed(client: Who, turn: Turn, peer: Who, came: Option<bool>) -> Verdict
    ensures { result ≡ passed_by client turn peer came }
{
    let plan = Plan::Two(
        Deed::Finishes { thread: peer, came },
        Deed::Passes { client, turn },
    );
    Verdict::Done(plan, Answers::Nothing)
}

/// The receive of the thread at the other end is done, which has the turn then. The reference that
/// awaits a pointer takes the one that goes with the turn.
fn handed(
    store: &Store,
    caller: Caller,
    side: Turn,
    client: Who,
    carried: Option<Ptr>,
    peer: Who,
    awaited: Option<u64>,
) -> Verdict
    requires carried { IfSome carried (OnPointer (IsLive store.now)) }
    requires slot { IfSome awaited (λ slot. slot ≤ LAST_USER_SLOT) }
    ensures outcome { (words : List ℕ) → outcome_by (world store.now) (path store.now) (caller_by (path store.now) caller words) result
        ≡ rows.passes (caller_by (path store.now) caller words) side (place (path store.now) client)
        (rows.takes_turn (place (path store.now) peer) (option_map (pointer_by (path store.now)) carried) awaited) }
    ensures fits { IsVerdict store.now caller result }
    ensures sure { IsSureVerdict result }
{
    let turn = other_side(side);
    match carried {
        None => match awaited {
            None => passed(client, turn, peer, None),
            Some(_) => passed(client, turn, peer, Some(false)),
        },
        Some(to) => match awaited {
            None => passed(client, turn, peer, None),
            Some(slot) => {
                let reference = Who {
                    space: peer.space,
                    slot: slot as u8,
                };
                let plan = Plan::HandsOver {
                    reference,
                    to,
                    receiver: peer,
                    client,
                    turn,
                };
                Verdict::Done(plan, Answers::Nothing)
            }
        },
    }
}

/// It waits until the other end is free and at its Receive, which is done then and has the turn. One
/// that would be refused for the handle of the reference that is to take a pointer isn't at it.
#[tactic(auto, unfolding(fk_store::specs::Store::Threads::is_free_at))]
fn passes_to_thread(
    store: &Store,
    caller: Caller,
    side: Turn,
    client: Who,
    carried: Option<Ptr>,
    peer: Who,
) -> Verdict
    requires carried { IfSome carried (OnPointer (IsLive store.now)) }
    ensures outcome { (words : List ℕ) → outcome_by (world store.now) (path store.now) (caller_by (path store.now) caller words) result
        ≡ rows.passes_to_thread (world store.now) (caller_by (path store.now) caller words) side (place (path store.now) client)
        (option_map (pointer_by (path store.now)) carried) (talks.thread_led_to (world store.now) (At (place (path store.now) peer))) }
    ensures fits { IsVerdict store.now caller result }
    ensures sure { IsSureVerdict result }
{
    let Some(thread) = store.thread(peer) else {
        return Verdict::Waits;
    };
    if !store.is_free(peer) {
        return Verdict::Waits;
    }
    match receiving(store, peer.space, thread, other_side(side)) {
        Some(_) => handed(
            store,
            caller,
            side,
            client,
            carried,
            peer,
            awaited_by(thread),
        ),
        None => Verdict::Waits,
    }
}

/// Hands the turn to the other end of a talk. A native server drops the pointer.
fn passes_to(store: &Store, caller: Caller, side: Turn, line: Line, carried: Option<Ptr>) -> Verdict
    requires user { caller.is_porter ≡ false }
    requires port { IsLive store.now line.talk.port }
    requires carried { IfSome carried (OnPointer (IsLive store.now)) }
    ensures outcome { (words : List ℕ) → outcome_by (world store.now) (path store.now) (caller_by (path store.now) caller words) result
        ≡ rows.passes_to (world store.now) (caller_by (path store.now) caller words) side (line_by (path store.now) line)
        (option_map (pointer_by (path store.now)) carried) (peer_by (path store.now) line.other) }
    ensures fits { IsVerdict store.now caller result }
    ensures sure { IsSureVerdict result }
{
    let client = line.client;
    let port = line.talk.port;
    match line.other {
        Peer::Thread(peer) => passes_to_thread(store, caller, side, client, carried, peer),
        Peer::Service => {
            if store.is_frozen(port.space) {
                return Verdict::Waits;
            }
            let turn = other_side(side);
            Verdict::Tells {
                plan: Plan::One(Deed::Passes { client, turn }),
                news: News::Passed { port },
                last: true,
            }
        }
        Peer::Parked => Verdict::Waits,
    }
}

/// A pointer that leads to what is frozen for the caller isn't handed on, whoever is at the other end.
fn may_carry(store: &Store, me: Who, carried: Option<Ptr>) -> bool
    ensures { result ≡ rows.may_carry (world store.now) (place (path store.now) me) (option_map (pointer_by (path store.now)) carried) }
{
    match carried {
        None => true,
        Some(to) => !store.leads_to_frozen(me, to),
    }
}

/// Hands the turn to the other side, at this side's turn, and a pointer with it. Without a talk it is
/// refused NOTLINKED, at the other turn WRONGTURN.
#[tactic(auto, unfolding(fk_model::specs::TransferRows::over))]
fn hands_on(store: &Store, caller: Caller, side: Turn, carried: Option<Ptr>) -> Result<Verdict, u8>
    requires user { caller.is_porter ≡ false }
    requires valid { IsValid (world store.now) }
    requires carried { IfSome carried (OnPointer (IsLive store.now)) }
    ensures row { Judges store.now caller result (λ w c. rows.over w c side (option_map (pointer_by (path store.now)) carried)) }
    ensures sure { IfOk result IsSureVerdict }
{
    let line = in_turn(store, caller.who, side, side)?;
    if !may_carry(store, caller.who, carried) {
        return Ok(Verdict::Waits);
    }
    Ok(passes_to(store, caller, side, line, carried))
}

/// Hands the turn to the other side, at this side's turn. Without a talk it is refused NOTLINKED, at
/// the other turn WRONGTURN.
///
/// # Errors
///
/// The status of the first refusal: NOTLINKED; WRONGTURN.
pub fn over(store: &Store, caller: Caller, side: Turn) -> Result<Verdict, u8>
    requires user { caller.is_porter ≡ false }
    requires valid { IsValid (world store.now) }
    ensures row { Judges store.now caller result (λ w c. rows.over w c side None) }
    ensures sure { IfOk result IsSureVerdict }
{
    hands_on(store, caller, side, None)
}

/// Hands the turn to the other side with the pointer of a reference of the caller, which is looked at first.
///
/// # Errors
///
/// The status of the first refusal: the reference (BADHANDLE, WRONGKIND); NOTLINKED; WRONGTURN.
#[tactic(auto, unfolding(fk_model::specs::TransferRows::over_ref))]
pub fn over_ref(store: &Store, caller: Caller, side: Turn, reference: u64) -> Result<Verdict, u8>
    requires user { caller.is_porter ≡ false }
    requires valid { IsValid (world store.now) }
    ensures row { Judges store.now caller result (λ w c. rows.over_ref w c side reference) }
    ensures sure { IfOk result IsSureVerdict }
{
    let to = reference_in(store, caller, caller.who.space, reference)?;
    hands_on(store, caller, side, Some(to))
}

/// A turn that goes to a thread at its Receive, which is done then.
#[derive(Clone, Copy)]
pub struct Passage {
    pub client: Who,
    /// Whose turn it is then.
    pub turn: Turn,
    pub receiver: Who,
    /// Whether a pointer comes with it, where the receiver awaits one.
    pub came: Option<bool>,
}

/// What an Over comes to where the turn goes to a thread that is at its Receive. It is most Overs, and needs no verdict, which is large.
#[tactic(auto, unfolding(fk_model::specs::TransferRows::over))]
pub fn handing(store: &Store, caller: Caller, side: Turn) -> Option<Passage>
    requires user { caller.is_porter ≡ false }
    requires valid { IsValid (world store.now) }
    ensures outcome { (words : List ℕ) → IfSome result (λ h. outcome_by (world store.now) (path store.now) (caller_by (path store.now) caller words) (passed_of h)
        ≡ rows.over (world store.now) (caller_by (path store.now) caller words) side None) }
    ensures fits { IfSome result (λ h. IsVerdict store.now caller (passed_of h)) }
    ensures turn { IfSome result (λ h. h.turn ≡ talks.other_side side) }
    ensures meets { IfSome result (λ h. Meets (world store.now)
        (place (path store.now) caller.who) (place (path store.now) h.client) (place (path store.now) h.receiver) side) }
    ensures receiver { IfSome result (λ h. IsReceiver (world store.now) (place (path store.now) h.receiver) (talks.other_side side)) }
{
    let Ok(line) = in_turn(store, caller.who, side, side) else {
        return None;
    };
    let Peer::Thread(peer) = line.other else {
        return None;
    };
    handing_to(store, caller, side, line.client, peer)
}

/// What an Over comes to where the turn goes to this thread, if that is at its Receive.
#[tactic(auto, unfolding(fk_store::specs::Store::Threads::is_free_at))]
fn handing_to(store: &Store, caller: Caller, side: Turn, client: Who, peer: Who) -> Option<Passage>
    ensures outcome { (words : List ℕ) → IfSome result (λ h. outcome_by (world store.now) (path store.now) (caller_by (path store.now) caller words) (passed_of h)
        ≡ rows.passes_to_thread (world store.now) (caller_by (path store.now) caller words) side (place (path store.now) client) None
        (talks.thread_led_to (world store.now) (At (place (path store.now) peer)))) }
    ensures fits { IfSome result (λ h. IsVerdict store.now caller (passed_of h)) }
    ensures client { IfSome result (λ h. h.client ≡ client) }
    ensures peer { IfSome result (λ h. h.receiver ≡ peer) }
    ensures turn { IfSome result (λ h. h.turn ≡ talks.other_side side) }
    ensures receiver { IfSome result (λ h. IsReceiver (world store.now) (place (path store.now) peer) (talks.other_side side)) }
{
    let Some(thread) = store.thread(peer) else {
        return None;
    };
    if !store.is_free(peer) {
        return None;
    }
    let turn = other_side(side);
    match receiving(store, peer.space, thread, turn) {
        Some(_) => Some(Passage {
            client,
            turn,
            receiver: peer,
            came: came_without(awaited_by(thread)),
        }),
        None => None,
    }
}

/// What a thread hears that awaits a pointer in this slot, or none, where none comes.
fn came_without(awaited: Option<u64>) -> Option<bool>
    ensures { came_answers result ≡ rows.taken_answers awaited None }
{
    match awaited {
        None => None,
        Some(_) => Some(false),
    }
}

/// The port of the native server to which an Over of a client hands the turn. It needs no verdict, which is large.
pub fn yielding(store: &Store, caller: Caller) -> Option<Who>
    requires user { caller.is_porter ≡ false }
    requires valid { IsValid (world store.now) }
    ensures outcome { (words : List ℕ) → IfSome result (λ port. outcome_by (world store.now) (path store.now) (caller_by (path store.now) caller words)
        (yielded_of caller.who port) ≡ rows.over (world store.now) (caller_by (path store.now) caller words) turns.Client None) }
    ensures fits { IfSome result (λ port. IsVerdict store.now caller (yielded_of caller.who port)) }
    ensures served { IsSome result → IsServed (world store.now) (place (path store.now) caller.who) }
{
    let Ok(line) = in_turn(store, caller.who, Turn::Client, Turn::Client) else {
        return None;
    };
    let Peer::Service = line.other else {
        return None;
    };
    let port = line.talk.port;
    if store.is_frozen(port.space) {
        return None;
    }
    Some(port)
}
