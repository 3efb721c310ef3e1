//! Send, on either side of a talk.
ghost use Rattle.std.specs.Prelude.{◌≡◌, ◌≤◌, ◌<◌, ◌+◌, ◌%◌, min, List, ℕ, false, IfSome, IfOk, IsSome};
ghost use Rattle.fk_model.specs.Places.Ptr.{At};
ghost use Rattle.fk_model.specs.Reach.{words_at};
ghost use Rattle.fk_model.specs.declared.thread.Turn.TheVariants as turns;
ghost use Rattle.fk_model.specs.Talks as talks;
ghost use Rattle.fk_model.specs.TransferRows as rows;
ghost use Rattle.fk_model.specs.Valid.{IsValid};
ghost use Rattle.fk_store.specs.Store.Bodies.{peer_by};
ghost use Rattle.fk_store.specs.Store.Paths.{path, place};
ghost use Rattle.fk_store.specs.Store.World.{world, IsLive};
ghost use Rattle.fk_plans.specs.Plans.Movings.{verdict_of};
ghost use Rattle.fk_plans.specs.Plans.Own.{IsPage};
ghost use Rattle.fk_plans.specs.Plans.Plans.{caller_by};
ghost use Rattle.fk_plans.specs.Plans.Verdicts.{outcome_by, IsSureVerdict, IsVerdict, Judges};
ghost use Rattle.fk_transfer.specs.Lines.{line_by, telling_of, AreEnds, IsBetween, IsReceiver, IsSender, Meets};

use crate::lines::{Line, in_turn, other_side};
use fk_changes::readers::Caller;
use fk_changes::threads::{Answers, receiving};
use fk_model::status::FULL;
use fk_model::{Peer, Turn, Who};
use fk_plans::{Block, Deed, Moving, News, Plan, Verdict, Words, own_page};
use fk_store::{Reach, Store};

/// Words that are sent: so many from an address on, in a page of the sender's memory.
#[derive(Clone, Copy)]
pub struct Message {
    pub address: u64,
    pub count: u64,
    pub page: (u32, u8),
}

/// Where words go: the thread that receives them, and the address and the room of its Receive.
#[derive(Clone, Copy)]
pub struct Receiver {
    pub thread: Who,
    pub into: u64,
    pub room: u64,
}

fn least(a: u64, b: u64) -> u64
    ensures { result ≡ min a b }
{
    if a < b { a } else { b }
}

/// How many words one move takes: of so many from an address, to an address with so much room.
pub fn moved(address: u64, count: u64, into: u64, room: u64) -> u8
    ensures moved { result ≡ rows.moved_words address count into room }
    ensures at { address % 64 + result ≤ 64 }
    ensures into { into % 64 + result ≤ 64 }
{
    let here = 64 - address % 64;
    let there = 64 - into % 64;
    least(64, least(count, least(here, least(room, there)))) as u8
}

/// Words go from the sender's page to a page of the receiver.
fn sent(
    store: &Store,
    caller: Caller,
    client: Who,
    message: Message,
    receiver: Receiver,
    to: (u32, u8),
) -> Moving
    requires ends { AreEnds (world store.now) (place (path store.now) caller.who) (place (path store.now) receiver.thread) message.address receiver.into }
    requires address { message.address < 16384 }
    requires into { receiver.into < 16384 }
    requires from { IsPage store.now message.page }
    requires to { IsPage store.now to }
    ensures outcome { (words : List ℕ) → outcome_by (world store.now) (path store.now) (caller_by (path store.now) caller words) (verdict_of result)
        ≡ rows.sends_words (caller_by (path store.now) caller words) (place (path store.now) client) (place (path store.now) receiver.thread)
        (rows.moved_words message.address message.count receiver.into receiver.room) message.address message.count
        (words_at (world store.now) (path store.now message.page.0) message.page.1)
        receiver.into (path store.now to.0) to.1 (words_at (world store.now) (path store.now to.0) to.1) }
    ensures fits { IsVerdict store.now caller (verdict_of result) }
    ensures sure { IsSureVerdict (verdict_of result) }
    ensures between { IsBetween client receiver.thread caller.who result }
{
    let count = moved(message.address, message.count, receiver.into, receiver.room);
    let block = Block {
        from: message.page,
        at: (message.address % 64) as u8,
        to,
        into: (receiver.into % 64) as u8,
        count,
    };
    let moving = Moving {
        block,
        client,
        receiver: receiver.thread,
        sender: caller.who,
        last: false,
    };
    if u64::from(count) == message.count {
        Moving {
            last: true,
            ..moving
        }
    } else {
        moving
    }
}

/// It waits until the other end receives, and until that end's page is there. One that has no room
/// has its call ended.
#[tactic(auto, using(fk_plans::proofs::InPlans::Low::home_low))]
fn sends_into(
    store: &Store,
    caller: Caller,
    client: Who,
    message: Message,
    peer: Who,
    receive: Option<(u64, u64)>,
) -> Verdict
    requires ends { IfSome receive (λ r. AreEnds (world store.now) (place (path store.now) caller.who) (place (path store.now) peer) message.address r.0) }
    requires address { message.address < 16384 }
    requires from { IsPage store.now message.page }
    ensures outcome { (words : List ℕ) → outcome_by (world store.now) (path store.now) (caller_by (path store.now) caller words) result
        ≡ rows.sends_into (world store.now) (caller_by (path store.now) caller words) (place (path store.now) client) (place (path store.now) peer)
        message.address message.count (words_at (world store.now) (path store.now message.page.0) message.page.1) receive }
    ensures fits { IsVerdict store.now caller result }
    ensures sure { IsSureVerdict result }
{
    match receive {
        None => Verdict::Waits,
        Some((into, room)) => {
            let thread = peer;
            if room == 0 {
                return Verdict::Goes(Plan::One(Deed::Ends {
                    thread,
                    status: FULL,
                }));
            }
            match store.reach_word(peer.space, into, true) {
                Reach::Home { space, page } => {
                    let receiver = Receiver { thread, into, room };
                    sent(store, caller, client, message, receiver, (space, page)).verdict()
                }
                Reach::Missing { .. } | Reach::Bad => Verdict::Waits,
            }
        }
    }
}

/// It waits until the other end is free.
#[tactic(auto, unfolding(fk_store::specs::Store::Threads::is_free_at))]
fn sends_to_thread(
    store: &Store,
    caller: Caller,
    side: Turn,
    client: Who,
    message: Message,
    peer: Who,
) -> Verdict
    requires calling { IsSender (world store.now) (place (path store.now) caller.who) side message.address message.count }
    requires address { message.address < 16384 }
    requires from { IsPage store.now message.page }
    ensures outcome { (words : List ℕ) → outcome_by (world store.now) (path store.now) (caller_by (path store.now) caller words) result
        ≡ rows.sends_to_thread (world store.now) (caller_by (path store.now) caller words) side (place (path store.now) client)
        message.address message.count (words_at (world store.now) (path store.now message.page.0) message.page.1)
        (talks.thread_led_to (world store.now) (At (place (path store.now) peer))) }
    ensures fits { IsVerdict store.now caller result }
    ensures sure { IsSureVerdict result }
{
    let Some(thread) = store.thread(peer) else {
        return Verdict::Waits;
    };
    if !store.is_free(peer) {
        return Verdict::Waits;
    }
    let receive = receiving(store, peer.space, thread, other_side(side));
    sends_into(store, caller, client, message, peer, receive)
}

/// A native server that is free is told of up to 64 words at each move.
fn sends_to_service(
    store: &Store,
    caller: Caller,
    side: Turn,
    client: Who,
    message: Message,
    port: Who,
) -> Verdict
    requires user { caller.is_porter ≡ false }
    requires calling { IsSender (world store.now) (place (path store.now) caller.who) side message.address message.count }
    requires address { message.address < 16384 }
    requires from { IsPage store.now message.page }
    requires port { IsLive store.now port }
    ensures outcome { (words : List ℕ) → outcome_by (world store.now) (path store.now) (caller_by (path store.now) caller words) result
        ≡ rows.sends_to_service (caller_by (path store.now) caller words) (place (path store.now) client) (At (place (path store.now) port))
        message.address message.count (words_at (world store.now) (path store.now message.page.0) message.page.1) }
    ensures fits { IsVerdict store.now caller result }
    ensures sure { IsSureVerdict result }
{
    let count = moved(message.address, message.count, 0, 64);
    let plan = Plan::Two(
        Deed::Counts { client, count },
        Deed::Shifts {
            thread: caller.who,
            count,
        },
    );
    let (space, page) = message.page;
    let words = Words {
        port,
        space,
        page,
        at: (message.address % 64) as u8,
        count,
    };
    let last = u64::from(count) == message.count;
    let news = News::Words(words);
    Verdict::Tells { plan, news, last }
}

/// Sends words to the other end of a talk.
fn sends_to(store: &Store, caller: Caller, side: Turn, line: Line, message: Message) -> Verdict
    requires user { caller.is_porter ≡ false }
    requires calling { IsSender (world store.now) (place (path store.now) caller.who) side message.address message.count }
    requires address { message.address < 16384 }
    requires from { IsPage store.now message.page }
    requires port { IsLive store.now line.talk.port }
    ensures outcome { (words : List ℕ) → outcome_by (world store.now) (path store.now) (caller_by (path store.now) caller words) result
        ≡ rows.sends_to (world store.now) (caller_by (path store.now) caller words) side (line_by (path store.now) line) message.address message.count
        (words_at (world store.now) (path store.now message.page.0) message.page.1) (peer_by (path store.now) line.other) }
    ensures fits { IsVerdict store.now caller result }
    ensures sure { IsSureVerdict result }
{
    let client = line.client;
    let port = line.talk.port;
    match line.other {
        Peer::Thread(peer) => sends_to_thread(store, caller, side, client, message, peer),
        Peer::Service => {
            if store.is_frozen(port.space) {
                return Verdict::Waits;
            }
            sends_to_service(store, caller, side, client, message, port)
        }
        Peer::Parked => Verdict::Waits,
    }
}

/// Sends words of the caller's memory at this side's turn, at each move up to 64 of them and no
/// further than to a page's end on either side; with nothing to send it is done at once. It is
/// refused NOTLINKED, WRONGTURN, and with words BADADDRESS; or its page is missing, of which the
/// keeper is told. It waits for the other end's Receive, and ends that one's call FULL where it has no
/// room.
///
/// # Errors
///
/// The status of the first refusal: NOTLINKED; WRONGTURN; BADADDRESS, with words, where its own page is missing and has no keeper, or its address leads to
/// none.
#[tactic(auto, unfolding(fk_model::specs::TransferRows::send))]
pub fn send(
    store: &Store,
    caller: Caller,
    side: Turn,
    address: u64,
    count: u64,
) -> Result<Verdict, u8>
    requires user { caller.is_porter ≡ false }
    requires valid { IsValid (world store.now) }
    requires calling { IsSender (world store.now) (place (path store.now) caller.who) side address count }
    ensures row { Judges store.now caller result (λ w c. rows.send w c side address count) }
    ensures sure { IfOk result IsSureVerdict }
{
    let line = in_turn(store, caller.who, side, side)?;
    if count == 0 {
        return Ok(Verdict::Done(Plan::Nothing, Answers::Nothing));
    }
    match own_page(store, caller, address, false) {
        Ok(page) => {
            let message = Message {
                address,
                count,
                page,
            };
            Ok(sends_to(store, caller, side, line, message))
        }
        Err(verdict) => Ok(verdict),
    }
}

/// The words that move where the other end receives on a page that is there, and has room.
#[tactic(auto, using(fk_plans::proofs::InPlans::Low::home_low))]
fn moves_into(
    store: &Store,
    caller: Caller,
    client: Who,
    message: Message,
    peer: Who,
    receive: Option<(u64, u64)>,
) -> Option<Moving>
    requires ends { IfSome receive (λ r. AreEnds (world store.now) (place (path store.now) caller.who) (place (path store.now) peer) message.address r.0) }
    requires address { message.address < 16384 }
    requires from { IsPage store.now message.page }
    ensures outcome { (words : List ℕ) → IfSome result (λ m. outcome_by (world store.now) (path store.now) (caller_by (path store.now) caller words) (verdict_of m)
        ≡ rows.sends_into (world store.now) (caller_by (path store.now) caller words) (place (path store.now) client) (place (path store.now) peer)
        message.address message.count (words_at (world store.now) (path store.now message.page.0) message.page.1) receive) }
    ensures fits { IfSome result (λ m. IsVerdict store.now caller (verdict_of m)) }
    ensures between { IfSome result (IsBetween client peer caller.who) }
    ensures receives { IsSome result → IsSome receive }
{
    match receive {
        None => None,
        Some((into, room)) => {
            if room == 0 {
                return None;
            }
            match store.reach_word(peer.space, into, true) {
                Reach::Home { space, page } => {
                    let receiver = Receiver {
                        thread: peer,
                        into,
                        room,
                    };
                    Some(sent(store, caller, client, message, receiver, (space, page)))
                }
                Reach::Missing { .. } | Reach::Bad => None,
            }
        }
    }
}

/// The words that move to a thread at the other end that is free, where that receives on a page that is there, and has room.
#[tactic(auto, unfolding(fk_store::specs::Store::Threads::is_free_at))]
fn moves_to_thread(
    store: &Store,
    caller: Caller,
    side: Turn,
    client: Who,
    message: Message,
    peer: Who,
) -> Option<Moving>
    requires calling { IsSender (world store.now) (place (path store.now) caller.who) side message.address message.count }
    requires address { message.address < 16384 }
    requires from { IsPage store.now message.page }
    ensures outcome { (words : List ℕ) → IfSome result (λ m. outcome_by (world store.now) (path store.now) (caller_by (path store.now) caller words) (verdict_of m)
        ≡ rows.sends_to_thread (world store.now) (caller_by (path store.now) caller words) side (place (path store.now) client)
        message.address message.count (words_at (world store.now) (path store.now message.page.0) message.page.1)
        (talks.thread_led_to (world store.now) (At (place (path store.now) peer)))) }
    ensures fits { IfSome result (λ m. IsVerdict store.now caller (verdict_of m)) }
    ensures between { IfSome result (IsBetween client peer caller.who) }
    ensures receiver { IsSome result → IsReceiver (world store.now) (place (path store.now) peer) (talks.other_side side) }
{
    let Some(thread) = store.thread(peer) else {
        return None;
    };
    if !store.is_free(peer) {
        return None;
    }
    let receive = receiving(store, peer.space, thread, other_side(side));
    moves_into(store, caller, client, message, peer, receive)
}

/// What a Send comes to where its words go to a thread that receives them. It is most Sends, and needs
/// no verdict, which is large.
#[tactic(auto, using(fk_plans::proofs::InPlans::Low::home_low))]
pub fn moving(store: &Store, caller: Caller, side: Turn, address: u64, count: u64) -> Option<Moving>
    requires user { caller.is_porter ≡ false }
    requires valid { IsValid (world store.now) }
    requires calling { IsSender (world store.now) (place (path store.now) caller.who) side address count }
    ensures outcome { (words : List ℕ) → IfSome result (λ m. outcome_by (world store.now) (path store.now) (caller_by (path store.now) caller words) (verdict_of m)
        ≡ rows.send (world store.now) (caller_by (path store.now) caller words) side address count) }
    ensures fits { IfSome result (λ m. IsVerdict store.now caller (verdict_of m)) }
    ensures sender { IfSome result (λ m. m.sender ≡ caller.who) }
    ensures meets { IfSome result (λ m. Meets (world store.now)
        (place (path store.now) caller.who) (place (path store.now) m.client) (place (path store.now) m.receiver) side) }
    ensures receiver { IfSome result (λ m. IsReceiver (world store.now) (place (path store.now) m.receiver) (talks.other_side side)) }
{
    if count == 0 {
        return None;
    }
    let Ok(line) = in_turn(store, caller.who, side, side) else {
        return None;
    };
    let Peer::Thread(peer) = line.other else {
        return None;
    };
    match store.reach_word(caller.who.space, address, false) {
        Reach::Home { space, page } => {
            let message = Message {
                address,
                count,
                page: (space, page),
            };
            moves_to_thread(store, caller, side, line.client, message, peer)
        }
        Reach::Missing { .. } | Reach::Bad => None,
    }
}

/// Words of a page that go to a native server, and whether they are the last.
#[derive(Clone, Copy)]
pub struct Telling {
    pub words: Words,
    pub last: bool,
}

/// What a Send of a client comes to where its words go to a native server. It needs no verdict, which is large.
#[tactic(auto, using(fk_plans::proofs::InPlans::Low::home_low))]
pub fn speaking(store: &Store, caller: Caller, address: u64, count: u64) -> Option<Telling>
    requires user { caller.is_porter ≡ false }
    requires valid { IsValid (world store.now) }
    requires calling { IsSender (world store.now) (place (path store.now) caller.who) turns.Client address count }
    ensures outcome { (words : List ℕ) → IfSome result (λ t. outcome_by (world store.now) (path store.now) (caller_by (path store.now) caller words)
        (telling_of caller.who t) ≡ rows.send (world store.now) (caller_by (path store.now) caller words) turns.Client address count) }
    ensures fits { IfSome result (λ t. IsVerdict store.now caller (telling_of caller.who t)) }
{
    if count == 0 {
        return None;
    }
    let Ok(line) = in_turn(store, caller.who, Turn::Client, Turn::Client) else {
        return None;
    };
    let Peer::Service = line.other else {
        return None;
    };
    let port = line.talk.port;
    if store.is_frozen(port.space) {
        return None;
    }
    match store.reach_word(caller.who.space, address, false) {
        Reach::Home { space, page } => {
            let message = Message {
                address,
                count,
                page: (space, page),
            };
            Some(told(store, caller, message, port))
        }
        Reach::Missing { .. } | Reach::Bad => None,
    }
}

/// The words that a native server is told at once.
fn told(store: &Store, caller: Caller, message: Message, port: Who) -> Telling
    requires user { caller.is_porter ≡ false }
    requires calling { IsSender (world store.now) (place (path store.now) caller.who) turns.Client message.address message.count }
    requires address { message.address < 16384 }
    requires from { IsPage store.now message.page }
    requires port { IsLive store.now port }
    ensures outcome { (words : List ℕ) → outcome_by (world store.now) (path store.now) (caller_by (path store.now) caller words) (telling_of caller.who result)
        ≡ rows.sends_to_service (caller_by (path store.now) caller words) (place (path store.now) caller.who) (At (place (path store.now) port))
        message.address message.count (words_at (world store.now) (path store.now message.page.0) message.page.1) }
    ensures fits { IsVerdict store.now caller (telling_of caller.who result) }
{
    let count = moved(message.address, message.count, 0, 64);
    let words = Words {
        port,
        space: message.page.0,
        page: message.page.1,
        at: (message.address % 64) as u8,
        count,
    };
    Telling {
        words,
        last: u64::from(count) == message.count,
    }
}
