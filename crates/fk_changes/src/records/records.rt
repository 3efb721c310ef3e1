//! The record of an object.
ghost use Rattle.std.specs.Prelude.{◌≡◌, ℕ, [], ◌∷◌};
ghost use Rattle.fk_model.specs.Objects.{registers_of};
ghost use Rattle.fk_model.specs.Objects.Body.{Thread_of};
ghost use Rattle.fk_model.specs.Places.{Path};
ghost use Rattle.fk_model.specs.Records as definition;
ghost use Rattle.fk_store.specs.Store.Bodies.{body_by, mode_by, thread_by};

use crate::records::words::{fault_words, flag, halt_code, mode_number, talk_words};
use fk_model::{Body, Mode, Thread};
use fk_stages::todo;

/// The registers of a thread. Those of one in a call whose code is none begin with 0.
fn registers_of(thread: &Thread) -> [u64; 16]
    ensures { result ≡ registers_of (mode_by thread.now.mode thread.now.regs) }
{
    let mut registers = thread.regs;
    if let Mode::Calling = thread.mode {
        match todo(&registers) {
            Some(_) => {}
            None => registers[0] = 0,
        }
    }
    registers
}

/// A record of the kind with this number, in which up to four words follow.
fn short(kind: u64, a: u64, b: u64, c: u64, d: u64) -> [u64; 32]
    ensures { result ≡ definition.padded 32 (kind ∷ a ∷ b ∷ c ∷ d ∷ []) }
{
    let mut words = [0; 32];
    words[0] = kind;
    words[1] = a;
    words[2] = b;
    words[3] = c;
    words[4] = d;
    words
}

/// The record of a thread.
fn thread_record(thread: &Thread) -> [u64; 32]
    ensures { (p : ℕ → Path) → result ≡ definition.record_of (Thread_of (thread_by p thread.now)) }
{
    let talk = talk_words(thread.talk);
    let fault = fault_words(thread.fault);
    let mut words = [0; 32];
    words[0] = 8;
    words[1..17].copy_from_slice(&registers_of(thread));
    words[17] = thread.pc;
    words[18] = mode_number(thread.mode);
    words[19] = halt_code(thread.mode);
    words[20] = u64::from(thread.stops);
    words[21] = talk.0;
    words[22] = talk.1;
    words[23] = fault.0;
    words[24] = fault.1;
    words[25] = fault.2;
    words
}

/// A slot as a word: 0 for none, and else 1 more than the slot.
fn member_word(set: Option<u8>) -> u64
    ensures { result ≡ definition.member_word set }
{
    match set {
        Some(slot) => 1 + u64::from(slot),
        None => 0,
    }
}

/// The 32 words that say all of an object but its pointers.
#[tactic(auto, unfolding(fk_model::specs::Records::record_of))]
pub fn record_of(body: &Body) -> [u64; 32]
    ensures { (p : ℕ → Path) → result ≡ definition.record_of (body_by p body.now) }
{
    match body {
        Body::Mutex { locked } => short(1, flag(*locked), 0, 0, 0),
        Body::Cond => short(2, 0, 0, 0, 0),
        Body::Mapping {
            first,
            count,
            offset,
            write,
            ..
        } => short(
            3,
            u64::from(*first),
            u64::from(*count),
            u64::from(*offset),
            flag(*write),
        ),
        Body::Region {
            first,
            count,
            write,
            ..
        } => short(4, u64::from(*first), u64::from(*count), flag(*write), 0),
        Body::Port { set, .. } => short(5, member_word(*set), 0, 0, 0),
        Body::Portset => short(6, 0, 0, 0, 0),
        Body::Space { .. } => short(7, 0, 0, 0, 0),
        Body::Thread(thread) => thread_record(thread),
        Body::Reference { .. } => short(9, 0, 0, 0, 0),
    }
}
