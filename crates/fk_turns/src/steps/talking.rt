//! The lists after a stage in which two threads met in their talk: all others wait as before, the other end is looked at again, and the thread goes to its
//! place.
ghost use Rattle.std.specs.Prelude.{◌≡◌, true, false, Some, None, IfSome};
ghost use Rattle.std.specs.Bool.{OnTrue, OnFalse};
ghost use Rattle.fk_model.specs.Objects.Peer.{Server};
ghost use Rattle.fk_model.specs.Places.{Path};
ghost use Rattle.fk_model.specs.Places.Ptr.{At};
ghost use Rattle.fk_model.specs.Valid.{IsValid};
ghost use Rattle.fk_store.specs.Store.World.{world, place_of};
ghost use Rattle.fk_turns.specs.Moved.Kept.{is_user_at, AreKept};
ghost use Rattle.fk_turns.specs.Next.Waiting.{standing, IsMoveReady, IsPlaced};
ghost use Rattle.fk_turns.specs.Steps.Talks as talks_of;
ghost use Rattle.fk_turns.specs.Steps.Talks.{peer_at, ComesTalked, IsAlone, IsThere};
ghost use Rattle.fk_turns.specs.Whys.Whys.{IsLoudly};
ghost use Rattle.laws_waits.specs.Few.{is_peer_of};

use crate::moved::settle_loud;
use crate::next::{after, put};
use crate::steps::plain::is_going;
use crate::whys::heard_at;
use fk_calls::Talked;
use fk_model::{Peer, Who};
use fk_plans::wakes::Touched;
use fk_store::Store;
use fk_waits::turns::Turns;

/// The lists after a stage that did this.
#[inline(always)]
pub fn after_talk(turns: &mut Turns, store: &Store, mover: Who, by: Talked, stays: bool)
    requires valid { IsValid (world store.now) }
    requires comes { ComesTalked store.now mover by turns.old.waits turns.old.marks }
    ensures kept { AreKept store.now turns.new.waits turns.new.marks }
    ensures placed { OnFalse stays (is_user_at store.now mover ≡ true → IsPlaced store.now (standing turns.new.waits) mover) }
{
    match by {
        Talked::Sends {
            client,
            receiver,
            sender,
        } => after_words(turns, store, mover, client, receiver, sender, stays),
        Talked::Passes { client, receiver } => after_turn(
            turns, store, mover, client, receiver, stays,
        ),
    }
}

/// The lists after words that went to a receiver.
#[inline(always)]
fn after_words(
    turns: &mut Turns,
    store: &Store,
    mover: Who,
    client: Who,
    receiver: Who,
    sender: Who,
    stays: bool,
)
    requires valid { IsValid (world store.now) }
    requires comes { ComesTalked store.now mover (Talked.Sends client receiver sender) turns.old.waits turns.old.marks }
    ensures kept { AreKept store.now turns.new.waits turns.new.marks }
    ensures placed { OnFalse stays (is_user_at store.now mover ≡ true → IsPlaced store.now (standing turns.new.waits) mover) }
{
    tell_receiver(turns, store, mover, client, receiver, sender);
    settle_unless(turns, store, mover, stays);
}

/// Who received words waits for more where it stood, or may move.
#[inline(always)]
fn tell_receiver(
    turns: &mut Turns,
    store: &Store,
    mover: Who,
    client: Who,
    receiver: Who,
    sender: Who,
)
    requires valid { IsValid (world store.now) }
    requires comes { ComesTalked store.now mover (Talked.Sends client receiver sender) turns.old.waits turns.old.marks }
    ensures { AreKept store.now turns.new.waits turns.new.marks }
{
    if hears_still(store, receiver) {
        return;
    }
    turns.rise(receiver);
}

/// It waits at its Receive for the other end.
#[inline(always)]
pub fn hears_still(store: &Store, who: Who) -> bool
    requires valid { IsValid (world store.now) }
    ensures { OnTrue result (IsLoudly (world store.now) (place_of store.now who)) }
{
    if let Some(_port) = heard_at(store, who) {
        return true;
    }
    false
}

/// The lists after a turn that went to a receiver. Where one of the two is in another talk too, those who wait for it there are looked at as after any move.
#[inline(always)]
fn after_turn(turns: &mut Turns, store: &Store, mover: Who, client: Who, receiver: Who, stays: bool)
    requires valid { IsValid (world store.now) }
    requires comes { ComesTalked store.now mover (Talked.Passes client receiver) turns.old.waits turns.old.marks }
    ensures kept { AreKept store.now turns.new.waits turns.new.marks }
    ensures placed { OnFalse stays (is_user_at store.now mover ≡ true → IsPlaced store.now (standing turns.new.waits) mover) }
{
    if !is_alone(store, client) {
        after_any(turns, store, mover, client, receiver);
        return;
    }
    turns.rise(receiver);
    settle_unless(turns, store, mover, stays);
}

/// The same as after any move.
#[inline(never)]
fn after_any(turns: &mut Turns, store: &Store, mover: Who, client: Who, receiver: Who)
    requires valid { IsValid (world store.now) }
    requires comes { ComesTalked store.now mover (Talked.Passes client receiver) turns.old.waits turns.old.marks }
    ensures kept { AreKept store.now turns.new.waits turns.new.marks }
    ensures placed { is_user_at store.now mover ≡ true → IsPlaced store.now (standing turns.new.waits) mover }
{
    let touched = Touched::Few {
        first: Some(receiver),
        second: Some(client),
        third: None,
    };
    after(turns, store, mover, &touched);
}

/// Where a thread belongs that was in a talk, as far as is seen at once.
#[derive(Clone, Copy)]
pub enum Place {
    /// A move of it is ready.
    Goes,
    /// It waits for the other end, at this port.
    Hears { port: Who },
    /// That is for a judgement to tell.
    Unsaid,
}

/// A thread that was in a talk goes to its place. Who stays is looked at again where it waits for the other end alone.
#[inline(always)]
fn settle_unless(turns: &mut Turns, store: &Store, mover: Who, stays: bool)
    requires valid { IsValid (world store.now) }
    requires kept { AreKept store.now turns.old.waits turns.old.marks }
    ensures kept { AreKept store.now turns.new.waits turns.new.marks }
    ensures placed { OnFalse stays (is_user_at store.now mover ≡ true → IsPlaced store.now (standing turns.new.waits) mover) }
{
    if stays {
        rest_talker(turns, store, mover);
    } else {
        settle_talker(turns, store, mover);
    }
}

/// A thread that waits at its Receive for the other end is queued there; any other stands where it stood.
#[inline(always)]
pub fn rest_talker(turns: &mut Turns, store: &Store, mover: Who)
    requires valid { IsValid (world store.now) }
    requires kept { AreKept store.now turns.old.waits turns.old.marks }
    ensures { AreKept store.now turns.new.waits turns.new.marks }
{
    match heard_at(store, mover) {
        Some(port) => settle_loud(turns, store, mover, port),
        None => {}
    }
}

/// A thread that was in a talk goes to its place.
#[inline(always)]
fn settle_talker(turns: &mut Turns, store: &Store, mover: Who)
    requires valid { IsValid (world store.now) }
    requires kept { AreKept store.now turns.old.waits turns.old.marks }
    ensures kept { AreKept store.now turns.new.waits turns.new.marks }
    ensures placed { is_user_at store.now mover ≡ true → IsPlaced store.now (standing turns.new.waits) mover }
{
    match place_of_talker(store, mover) {
        Place::Goes => turns.wake(mover),
        Place::Hears { port } => settle_loud(turns, store, mover, port),
        Place::Unsaid => put(turns, store, mover),
    }
}

/// Where it belongs.
#[inline(always)]
fn place_of_talker(store: &Store, who: Who) -> Place
    requires valid { IsValid (world store.now) }
    ensures { IsThere store.now who result }
{
    if is_going(store, who, false) {
        return Place::Goes;
    }
    match heard_at(store, who) {
        Some(port) => Place::Hears { port },
        None => place_by(can_talk(store, who)),
    }
}

/// Where it belongs that can move, or of which nothing is known.
fn place_by(can: bool) -> Place
    ensures { result ≡ talks_of.place_by can }
{
    if can { Place::Goes } else { Place::Unsaid }
}

/// It is at a Send or an Over that meets a thread, and nothing is held.
#[inline(always)]
fn can_talk(store: &Store, who: Who) -> bool
    requires valid { IsValid (world store.now) }
    ensures { OnTrue result (IsMoveReady (world store.now) (place_of store.now who)) }
{
    if store.is_any_held() {
        return false;
    }
    fk_calls::may_talk(store, who)
}

/// A client and the thread that serves it are in no other talk.
#[inline(always)]
fn is_alone(store: &Store, client: Who) -> bool
    requires valid { IsValid (world store.now) }
    ensures { OnTrue result (IsAlone (world store.now) (place_of store.now client)) }
{
    match server_of(store, client) {
        Some(server) => {
            if !has_no_talk(store, server) {
                return false;
            }
            serves_nobody(store, client)
        }
        None => false,
    }
}

/// The thread that serves a client.
#[inline(always)]
fn server_of(store: &Store, client: Who) -> Option<Who>
    ensures { IfSome result (λ server. peer_at (world store.now) (place_of store.now client) ≡ Some (Server (At (place_of store.now server)))) }
{
    match store.thread(client)?.talk?.peer {
        Peer::Thread(server) => Some(server),
        Peer::Service | Peer::Parked => None,
    }
}

/// A thread is no client.
#[inline(always)]
fn has_no_talk(store: &Store, who: Who) -> bool
    ensures { OnTrue result (peer_at (world store.now) (place_of store.now who) ≡ None) }
{
    match store.thread(who) {
        Some(thread) => thread.talk.is_none(),
        None => false,
    }
}

/// A thread serves nobody.
#[inline(always)]
pub fn serves_nobody(store: &Store, who: Who) -> bool
    requires valid { IsValid (world store.now) }
    ensures { OnTrue result ((q : Path) → is_peer_of (world store.now) (place_of store.now who) q ≡ false) }
{
    store.names();
    store.client_of(who).is_none()
}
