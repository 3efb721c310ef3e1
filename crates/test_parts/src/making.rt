//! What is made in a store, at the second try where memory is refused at the first.
ghost use Rattle.std.specs.Prelude.{◌≡◌, true, is_some, Some, None, IfSome};
ghost use Rattle.fk_model.specs.Calls.{todo_of};
ghost use Rattle.fk_model.specs.declared.thread.Peer.TheVariants as peers;
ghost use Rattle.fk_model.specs.declared.thread.Turn.TheVariants as turns;
ghost use Rattle.fk_store.specs.Store.Makes.{IsNext};
ghost use Rattle.fk_store.specs.Store.Named.{OnNamed};
ghost use Rattle.fk_store.specs.Store.WellFormed.{HasCall, IsSized};
ghost use Rattle.fk_store.specs.Store.World.{world, IsLive};

use crate::numbers::Numbers;
use crate::showing::all;
use fk_model::{Body, Mode, NoMemory, Peer, Ptr, Talk, Thread, Turn, Who};
use fk_store::Store;

/// A space, by the number of its verb.
pub const SPACE: usize = 0;

/// A condition.
pub const COND: usize = 1;

/// The body of a thing, by the number of its verb; none where there is no such number or target.
fn body_of(store: &Store, thing: usize, to: Who) -> Option<Body>
    ensures birth { IfSome result (IsNext (world store.now).next) }
    ensures named { IfSome result (OnNamed (IsLive store.now)) }
    ensures sized { IfSome result IsSized }
{
    match thing {
        0 => {
            let birth = store.next_birth();
            if birth == u32::MAX {
                return None;
            }
            Some(Body::Space {
                birth,
                holder: None,
            })
        }
        1 => Some(Body::Cond),
        2 => Some(Body::Port {
            set: None,
            served: to.space == 1,
        }),
        3 => {
            store.at(to)?;
            Some(Body::Reference { to: Ptr::At(to) })
        }
        4 => Some(Body::Thread(thread_in(Mode::Native, [0; 16]))),
        5 => Some(Body::Thread(thread_in(Mode::Calling, ends_talk()))),
        6 => Some(Body::Thread(thread_in(Mode::Halted(to.slot), [0; 16]))),
        _ => {
            store.at(to)?;
            Some(Body::Thread(sending_to(to)))
        }
    }
}

/// The registers of a call that ends the caller's talk.
#[tactic(auto, unfolding(fk_model::specs::Calls::todo_of))]
fn ends_talk() -> [u64; 16]
    ensures { is_some (todo_of result) ≡ true }
{
    let mut registers = [0; 16];
    registers[0] = 39;
    registers
}

/// The registers of a call that sends 70 words, after the first block of 64.
#[tactic(auto, unfolding(fk_model::specs::Calls::todo_of))]
fn sends_rest() -> [u64; 16]
    ensures { is_some (todo_of result) ≡ true }
{
    let mut registers = [0; 16];
    registers[0] = 34;
    registers[2] = 192;
    registers[3] = 6;
    registers
}

/// A thread in a mode, with these registers.
fn thread_in(mode: Mode, regs: [u64; 16]) -> Thread
    requires call { HasCall mode regs }
    ensures talk { result.talk ≡ None }
    ensures fault { result.fault ≡ None }
    ensures sized { IsSized (Body.Thread result) }
{
    Thread {
        regs,
        pc: 0,
        mode,
        stops: 0,
        talk: None,
        fault: None,
    }
}

/// A thread that sends 70 words to the native server of a port, after the first block of 64.
fn sending_to(port: Who) -> Thread
    ensures talk { result.talk ≡ Some (record { port = port; peer = peers.Service; turn = turns.Client; moved = 64 }) }
    ensures fault { result.fault ≡ None }
    ensures sized { IsSized (Body.Thread result) }
{
    let mut thread = thread_in(Mode::Calling, sends_rest());
    thread.talk = Some(Talk {
        port,
        peer: Peer::Service,
        turn: Turn::Client,
        moved: 64,
    });
    thread
}

/// Makes a thing in an empty slot of a live space.
fn try_make(store: &mut Store, who: Who, thing: usize, to: Who) -> Result<(), NoMemory> {
    if store.is_live(who.space)
        && store.at(who).is_none()
        && let Some(body) = body_of(store, thing, to)
    {
        store.make(who, body)?;
    }
    Ok(())
}

/// Gives a live space a page filled with a word.
fn try_page(store: &mut Store, who: Who, word: u64) -> Result<(), NoMemory> {
    if store.is_live(who.space) {
        store.put_page(who.space, who.slot, &[word; 64])?;
    }
    Ok(())
}

/// Makes a thing in an empty slot of a live space, and asks once more where memory is refused.
pub fn make(store: &mut Store, who: Who, thing: usize, to: Who, found: &mut Numbers) {
    if try_make(store, who, thing, to).is_err() && try_make(store, who, thing, to).is_err() {
        found.fail();
    }
}

/// Makes a thing, or a page filled with a word where there is no such thing. Where memory is refused, all is as it was, and is asked once more.
pub fn make_at_last(
    store: &mut Store,
    who: Who,
    thing: usize,
    to: Who,
    word: u64,
    found: &mut Numbers,
) {
    let before = all(store);
    for _ in 0..2u8 {
        let made = if thing < 8 {
            try_make(store, who, thing, to)
        } else {
            try_page(store, who, word)
        };
        if made.is_ok() {
            return;
        }
        if all(store).list() != before.list() {
            found.fail();
        }
    }
    found.fail();
}
