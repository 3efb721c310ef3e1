//! The words of records, talks and faults, as a porter gives them, written over zeros.
ghost use Rattle.std.specs.Prelude.{◌≡◌, ℕ, List, [], ◌∷◌, ◌==◌, option_map};
ghost use Rattle.fk_model.specs.Objects as objects;
ghost use Rattle.fk_model.specs.Objects.Body.{Thread_of};
ghost use Rattle.fk_model.specs.Records as definition;
ghost use Rattle.fk_image.specs.declared.image.image.SpaceRec as records;
ghost use Rattle.fk_image.specs.Image.Picture as pictures;
ghost use Rattle.laws_jobs.specs.Machines.{no_words};
ghost use Rattle.laws_restore.specs.Restore.Script as script;

use fk_image::{FaultRec, Rec, TalkRec, ThreadRec};
use fk_stages::todo;

/// Two words, with zeros behind them.
fn two(a: u64, b: u64, words: &mut [u64; 64])
    requires { words.old ≡ no_words }
    ensures { words.new ≡ script.padded (a ∷ b ∷ []) }
{
    words[0] = a;
    words[1] = b;
}

/// A byte that is 1 where something is so.
fn flag(byte: u8) -> u64
    ensures { result ≡ objects.flag_of (byte == 1) }
{
    if byte == 1 { 1 } else { 0 }
}

/// Whose turn it is, and the words moved.
pub fn talk_words(talk: TalkRec, words: &mut [u64; 64])
    requires { words.old ≡ no_words }
    ensures { (ss : List records.SpaceRec) → words.new ≡ script.talk_words (pictures.pictured_talk ss talk) }
{
    if talk.turn == 1 {
        two(1, u64::from(talk.moved), words)
    } else {
        two(2, u64::from(talk.moved), words)
    }
}

/// The page, and 1 for a write.
pub fn fault_words(fault: FaultRec, words: &mut [u64; 64])
    requires { words.old ≡ no_words }
    ensures { (ss : List records.SpaceRec) → words.new ≡ script.fault_words (pictures.pictured_fault ss fault) }
{
    two(u64::from(fault.page), flag(fault.write), words)
}

/// The record of the kind with this number, in which up to four words follow.
fn short(kind: u64, a: u64, b: u64, c: u64, d: u64, words: &mut [u64; 64])
    requires { words.old ≡ no_words }
    ensures { words.new ≡ script.padded (definition.padded 32 (kind ∷ a ∷ b ∷ c ∷ d ∷ [])) }
{
    words[0] = kind;
    words[1] = a;
    words[2] = b;
    words[3] = c;
    words[4] = d;
}

/// The number of a mode and the code of a halt.
fn mode_words(thread: &ThreadRec) -> (u64, u64)
    ensures number { result.0 ≡ definition.mode_number (pictures.mode thread.now.regs thread.now.mode thread.now.code) }
    ensures code { result.1 ≡ definition.halt_code (pictures.mode thread.now.regs thread.now.mode thread.now.code) }
{
    if thread.mode == 0 {
        (0, 0)
    } else if thread.mode == 1 {
        match todo(&thread.regs) {
            None => (0, 0),
            Some(_) => (1, 0),
        }
    } else {
        (2, u64::from(thread.code))
    }
}

/// Whose turn it is and the words moved, in a thread's record.
fn turn_words(talk: Option<TalkRec>) -> (u64, u64)
    ensures { (ss : List records.SpaceRec) → definition.talk_words (option_map (pictures.pictured_talk ss) talk) ≡ result.0 ∷ result.1 ∷ [] }
{
    match talk {
        None => (0, 0),
        Some(talk) => {
            if talk.turn == 1 {
                (1, u64::from(talk.moved))
            } else {
                (2, u64::from(talk.moved))
            }
        }
    }
}

/// Whether a fault is raised or taken, its page and whether it missed a write, in a thread's record.
fn page_words(fault: Option<FaultRec>) -> (u64, u64, u64)
    ensures { (ss : List records.SpaceRec)
        → definition.fault_words (option_map (pictures.pictured_fault ss) fault) ≡ result.0 ∷ result.1 ∷ result.2 ∷ [] }
{
    match fault {
        None => (0, 0, 0),
        Some(fault) => match fault.taker {
            None => (1, u64::from(fault.page), flag(fault.write)),
            Some(_) => (2, u64::from(fault.page), flag(fault.write)),
        },
    }
}

/// The record of a thread.
fn thread_record(thread: &ThreadRec, words: &mut [u64; 64])
    requires { words.old ≡ no_words }
    ensures { (ss : List records.SpaceRec) → words.new ≡ script.padded (definition.record_of (Thread_of (pictures.pictured_thread ss thread.now))) }
{
    let mode = mode_words(thread);
    let talk = turn_words(thread.talk);
    let fault = page_words(thread.fault);
    words[0] = 8;
    words[1..17].copy_from_slice(&thread.regs);
    words[17] = thread.pc;
    words[18] = mode.0;
    words[19] = mode.1;
    words[20] = u64::from(thread.stops);
    words[21] = talk.0;
    words[22] = talk.1;
    words[23] = fault.0;
    words[24] = fault.1;
    words[25] = fault.2;
}

/// A slot of a port set as a word.
fn member(set: u16) -> u64
    ensures { result ≡ definition.member_word (definition.member_by set) }
{
    if set == 0 { 0 } else { 1 + u64::from(set - 1) }
}

/// The record of an object, which says all of it but its pointers.
#[tactic(auto, unfolding(fk_model::specs::Records::record_of))]
pub fn record_words(body: &Rec, words: &mut [u64; 64])
    requires { words.old ≡ no_words }
    ensures { (ss : List records.SpaceRec) → words.new ≡ script.padded (definition.record_of (pictures.pictured_body ss body.now)) }
{
    match body {
        Rec::Mutex { locked } => short(1, flag(*locked), 0, 0, 0, words),
        Rec::Cond => short(2, 0, 0, 0, 0, words),
        Rec::Mapping {
            first,
            count,
            offset,
            write,
            ..
        } => short(
            3,
            u64::from(*first),
            u64::from(*count),
            u64::from(*offset),
            flag(*write),
            words,
        ),
        Rec::Region {
            first,
            count,
            write,
            ..
        } => short(
            4,
            u64::from(*first),
            u64::from(*count),
            flag(*write),
            0,
            words,
        ),
        Rec::Port { set } => short(5, member(*set), 0, 0, 0, words),
        Rec::Portset => short(6, 0, 0, 0, 0, words),
        Rec::Thread(thread) => thread_record(thread.get(), words),
        Rec::Reference { .. } => short(9, 0, 0, 0, 0, words),
    }
}
