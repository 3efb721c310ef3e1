//! What each act comes to.
ghost use Rattle.std.specs.Prelude.{◌≡◌, ◌≤◌, ◌&&◌, ℕ, List, Some, true, false, take, length, option_map, IfSome, IfNone, IsSome, []};
ghost use Rattle.fk_model.specs.LinkRows as links;
ghost use Rattle.fk_model.specs.Moves.{with_pick, outcome};
ghost use Rattle.fk_model.specs.NativeRows as rows;
ghost use Rattle.fk_model.specs.Objects.{Talk as Talk_by, holds};
ghost use Rattle.fk_model.specs.Outcomes.{Outcome};
ghost use Rattle.fk_model.specs.Places.{Path};
ghost use Rattle.fk_model.specs.Searches.{talk_at, thread_at};
ghost use Rattle.fk_model.specs.Talks.{same_side};
ghost use Rattle.fk_model.specs.Valid.{IsValid};
ghost use Rattle.fk_model.specs.World.{World};
ghost use Rattle.fk_model.specs.declared.thread.Turn.TheVariants as turns;
ghost use Rattle.fk_store.specs.Store.Bodies.{talk_by, thread_by};
ghost use Rattle.fk_store.specs.Store.Contents.{Contents};
ghost use Rattle.fk_store.specs.Store.Moves.{picked_by};
ghost use Rattle.fk_store.specs.Store.Paths.{path, place, HasOwnPath};
ghost use Rattle.fk_store.specs.Store.Threads.{is_free_at};
ghost use Rattle.fk_store.specs.Store.World.{world, IsLive};
ghost use Rattle.fk_calls.specs.Acts.Acts.{if_client, is_act, outcome_by, words_of, IsAct, IsFor, IsReceiver};

use crate::acts::act::Act;
use fk_changes::threads::{awaited_by, receiving};
use fk_links::{connecting_to, is_parked};
use fk_model::{Ask, Body, Move, Talk, Thread, Turn, Who};
use fk_store::{Reach, Store};
use fk_transfer::moved;

/// A native server serves the port in a slot, and no space above it is held.
fn is_serving(store: &Store, port: Who) -> bool
    ensures serving { result ≡ rows.is_serving_port (world store.now) (place (path store.now) port) }
    ensures live { result ≡ true → IsLive store.now port }
    ensures apart { result ≡ true → HasOwnPath (path store.now) port }
{
    match store.at(port) {
        Some(Body::Port { served: true, .. }) => !store.is_frozen(port.space),
        Some(
            Body::Mutex { .. }
            | Body::Cond
            | Body::Mapping { .. }
            | Body::Region { .. }
            | Body::Port { served: false, .. }
            | Body::Portset
            | Body::Space { .. }
            | Body::Thread(_)
            | Body::Reference { .. },
        )
        | None => false,
    }
}

/// The free user in a slot.
#[tactic(auto, unfolding(fk_store::specs::Store::Threads::is_free_at))]
fn free_thread(store: &Store, who: Who) -> Option<&Thread>
    ensures free { IsSome result → is_free_at (world store.now) (place (path store.now) who) ≡ true }
    ensures there { IfSome result (λ thread. Some (thread_by (path store.now) thread.now) ≡ thread_at (world store.now) (place (path store.now) who)) }
    ensures held { IfNone result (is_free_at (world store.now) (place (path store.now) who) ≡ false) }
{
    match store.thread(who) {
        Some(thread) => {
            if store.is_free(who) {
                Some(thread)
            } else {
                None
            }
        }
        None => None,
    }
}

/// A thread is at its connect to a port.
fn connects_here(store: &Store, port: Who, who: Who, thread: &Thread) -> bool
    requires apart { HasOwnPath (path store.now) port }
    ensures { result
        ≡ rows.connects_here (world store.now) (place (path store.now) port) (place (path store.now) who) (thread_by (path store.now) thread.now) }
{
    match connecting_to(store, who, thread) {
        Some(to) => to == port,
        None => false,
    }
}

/// The talk of a thread that waits at a port to be taken up.
fn parked_here(port: Who, thread: &Thread) -> Option<Talk>
    ensures { (p : ℕ → Path) → HasOwnPath p port → option_map (talk_by p) result ≡ rows.parked_here (place p port) (thread_by p thread.now) }
{
    let talk = thread.talk?;
    if talk.port == port && is_parked(talk.peer) {
        return Some(talk);
    }
    None
}

/// What an accept comes to that picks the thread in a slot.
fn takes(store: &Store, port: Who, who: Who) -> Option<Act>
    requires apart { HasOwnPath (path store.now) port }
    ensures outcome { (words : List ℕ) → outcome_by (world store.now) (path store.now) port words result
        ≡ rows.takes_client (world store.now) (place (path store.now) port) (Some (place (path store.now) who)) }
    ensures fits { (words : List ℕ) → IfSome result (IsFor (world store.now) (path store.now) words) }
{
    let Some(thread) = free_thread(store, who) else {
        return None;
    };
    if connects_here(store, port, who, thread) {
        return Some(Act::Takes { client: who });
    }
    match parked_here(port, thread) {
        Some(talk) => Some(Act::Resumes {
            client: who,
            turn: talk.turn,
            moved: talk.moved,
        }),
        None => None,
    }
}

/// A server accepts whom it picks, while it has no client: a free thread at its connect to the port, or
/// one whose talk waits there.
#[tactic(auto, unfolding(fk_model::specs::NativeRows::accept_row))]
fn accept(store: &Store, port: Who, pick: Option<Who>) -> Option<Act>
    ensures outcome { (words : List ℕ) → outcome_by (world store.now) (path store.now) port words result
        ≡ rows.accept_row (world store.now) (place (path store.now) port) (picked_by (path store.now) pick) }
    ensures fits { (words : List ℕ) → IfSome result (IsAct store.now port words) }
{
    if !is_serving(store, port) || store.client_at(port).is_some() {
        return None;
    }
    match pick {
        Some(who) => takes(store, port, who),
        None => None,
    }
}

/// It is the server's turn in the talk of a thread.
fn has_turn(thread: &Thread) -> bool
    ensures { (p : ℕ → Path) → result ≡ holds (λ (talk : Talk_by). same_side talk.turn turns.Server) (thread_by p thread.now).talk }
{
    match thread.talk {
        Some(talk) => match talk.turn {
            Turn::Server => true,
            Turn::Client => false,
        },
        None => false,
    }
}

/// The client of a server that is free and whose turn it is, where that client is free and at its Receive,
/// with the address and the room of this.
fn receiving_client(store: &Store, port: Who) -> Option<(Who, (u64, u64))>
    requires valid { IsValid (world store.now) }
    ensures client { (go : Path → ℕ × ℕ → Outcome) →
        rows.with_client (world store.now) (place (path store.now) port) go ≡ if_client (path store.now) go result }
    ensures receives { IfSome result (λ found. IsReceiver (world store.now) (place (path store.now) found.0) found.1.0) }
    ensures serving { IsSome result → rows.is_serving_port (world store.now) (place (path store.now) port) ≡ true }
    ensures live { IsSome result → IsLive store.now port }
{
    if !is_serving(store, port) {
        return None;
    }
    let Some(client) = store.client_at(port) else {
        return None;
    };
    let Some(thread) = free_thread(store, client) else {
        return None;
    };
    if !has_turn(thread) {
        return None;
    }
    match receiving(store, client.space, thread, Turn::Client) {
        Some(receive) => Some((client, receive)),
        None => None,
    }
}

/// It is the server's turn in the talk of the thread in a slot.
fn is_handed(store: &Store, client: Who) -> bool
    ensures { result ≡ holds (λ (talk : Talk_by). same_side talk.turn turns.Server) (talk_at (world store.now) (place (path store.now) client)) }
{
    match store.thread(client) {
        Some(thread) => has_turn(thread),
        None => false,
    }
}

/// A server that has nothing to give is done with that at its turn.
fn gives_nothing(store: &Store, port: Who) -> Option<Act>
    requires valid { IsValid (world store.now) }
    ensures outcome { outcome_by (world store.now) (path store.now) port [] result ≡ rows.give_row (world store.now) (place (path store.now) port) [] }
    ensures fits { IfSome result (IsAct store.now port []) }
{
    if !is_serving(store, port) {
        return None;
    }
    match store.client_at(port) {
        Some(client) => {
            if is_handed(store, client) {
                Some(Act::GivesNothing)
            } else {
                None
            }
        }
        None => None,
    }
}

/// Words go to the page of a client at its Receive, as many as it has room for up to the page's end. It
/// waits until that page is there.
#[tactic(auto, using(fk_plans::proofs::InPlans::Low::home_low))]
fn gives_to(
    store: &Store,
    port: Who,
    words: &[u64],
    client: Who,
    into: u64,
    room: u64,
) -> Option<Act>
    requires few { length words.now ≤ 64 }
    requires receives { IsReceiver (world store.now) (place (path store.now) client) into }
    ensures outcome { outcome_by (world store.now) (path store.now) port words.now result
        ≡ rows.gives_to (world store.now) (place (path store.now) port) words.now (place (path store.now) client) (into, room) }
    ensures fits { IfSome result (IsFor (world store.now) (path store.now) words.now) }
{
    if room == 0 {
        return Some(Act::Fills { client });
    }
    match store.reach_word(client.space, into, true) {
        Reach::Home { space, page } => Some(Act::Gives {
            client,
            to: (space, page),
            into: (into % 64) as u8,
            count: moved(0, words.len() as u64, into, room),
        }),
        Reach::Missing { .. } | Reach::Bad => None,
    }
}

/// A server gives words to its client.
#[tactic(auto, unfolding(fk_model::specs::NativeRows::give_row))]
pub fn give(store: &Store, port: Who, words: &[u64]) -> Option<Act>
    requires valid { IsValid (world store.now) }
    requires few { length words.now ≤ 64 }
    ensures outcome { outcome_by (world store.now) (path store.now) port words.now result
        ≡ rows.give_row (world store.now) (place (path store.now) port) words.now }
    ensures fits { IfSome result (IsAct store.now port words.now) }
{
    if words.is_empty() {
        return gives_nothing(store, port);
    }
    match receiving_client(store, port) {
        Some((client, (into, room))) => gives_to(store, port, words, client, into, room),
        None => None,
    }
}

/// The slot of the reference that is to take a pointer, of a thread.
fn awaited_at(store: &Store, who: Who) -> Option<u64>
    ensures { result ≡ rows.awaited_at (world store.now) (place (path store.now) who) }
{
    match store.thread(who) {
        Some(thread) => awaited_by(thread),
        None => None,
    }
}

/// A server hands its client the turn, and no pointer.
#[tactic(auto, unfolding(fk_model::specs::NativeRows::over_row))]
pub fn over(store: &Store, port: Who) -> Option<Act>
    requires valid { IsValid (world store.now) }
    ensures outcome { outcome_by (world store.now) (path store.now) port [] result ≡ rows.over_row (world store.now) (place (path store.now) port) }
    ensures fits { IfSome result (IsAct store.now port []) }
{
    match receiving_client(store, port) {
        Some((client, _)) => {
            let came = match awaited_at(store, client) {
                Some(_) => Some(false),
                None => None,
            };
            Some(Act::Passes { client, came })
        }
        None => None,
    }
}

/// The first words of an array, at most all.
#[tactic(auto, using(crate::proofs::InActs::Rows::take_min))]
fn first_words(words: &[u64; 64], len: u8) -> &[u64]
    ensures words { result.now ≡ take len words.now }
    ensures few { length result.now ≤ 64 }
{
    &words[..usize::from(len).min(64)]
}

/// The words that a server gives.
pub fn given(ask: &Ask) -> &[u64]
    ensures words { result.now ≡ words_of ask.now }
    ensures few { length result.now ≤ 64 }
{
    match ask {
        Ask::Give { words, len } => first_words(words, *len),
        Ask::Run | Ask::Call { .. } | Ask::Accept | Ask::Over => &[],
    }
}

/// An act that picks nobody.
fn unpicked(pick: Option<Who>, act: Option<Act>) -> Option<Act>
    ensures outcome { (w : World) (p : ℕ → Path) (port : Who) (words : List ℕ) →
        outcome_by w p port words result ≡ with_pick false (picked_by p pick) (outcome_by w p port words act) }
    ensures fits { (m : Contents) (port : Who) (words : List ℕ) → IfSome act (IsAct m port words) → IfSome result (IsAct m port words) }
{
    match pick {
        None => act,
        Some(_) => None,
    }
}

/// What an act of a native server comes to.
#[tactic(auto, unfolding(fk_model::specs::Moves::outcome))]
pub fn act_of(store: &Store, m: &Move, ask: &Ask) -> Option<Act>
    requires valid { IsValid (world store.now) }
    requires act { is_act ask.now ≡ true }
    ensures outcome { outcome_by (world store.now) (path store.now) m.now.who (words_of ask.now) result
        ≡ outcome (world store.now) (place (path store.now) m.now.who) (picked_by (path store.now) m.now.pick) ask.now }
    ensures fits { IfSome result (IsAct store.now m.now.who (words_of ask.now)) }
{
    match ask {
        Ask::Accept => accept(store, m.who, m.pick),
        Ask::Give { .. } => unpicked(m.pick, give(store, m.who, given(ask))),
        Ask::Over => unpicked(m.pick, over(store, m.who)),
        Ask::Run | Ask::Call { .. } => unreachable!(),
    }
}
