//! Edits of an entry where it stands.
ghost use Rattle.fk_store_cells.specs.Objects.Edits.{Rewrites, with_body, with_hints, named, on_body};
ghost use Rattle.fk_store_cells.specs.Objects.Threads as threads;

use crate::objects::alter;
use crate::objects::entry::{Entry, Hints};
use fk_model::{Body, Fault, Mode, Turn, Who};
use slab::Slab;

/// The object under a key has this body.
pub fn write_body(entries: &mut Slab<Entry>, key: u32, body: Body)
    ensures { Rewrites entries.old entries.new key (with_body body) }
{
    if let Some(entry) = entries.get_mut(key as usize) {
        entry.body = body;
    }
}

/// This is told of the object under a key.
pub fn write_hints(entries: &mut Slab<Entry>, key: u32, hints: Hints)
    ensures { Rewrites entries.old entries.new key (with_hints hints) }
{
    if let Some(entry) = entries.get_mut(key as usize) {
        entry.hints = hints;
    }
}

/// The object under a key has this name.
pub fn write_name(entries: &mut Slab<Entry>, key: u32, who: Who)
    ensures { Rewrites entries.old entries.new key (named who) }
{
    if let Some(entry) = entries.get_mut(key as usize) {
        entry.who = who;
    }
}

/// The thread under a key goes on.
pub fn proceed(entries: &mut Slab<Entry>, key: u32, registers: &[u64; 16], counter: u64, mode: Mode)
    ensures { Rewrites entries.old entries.new key (on_body (threads.on_thread (threads.going registers.now counter mode))) }
{
    if let Some(entry) = entries.get_mut(key as usize) {
        alter::proceed(&mut entry.body, registers, counter, mode);
    }
}

/// The talk of the thread under a key has moved more words.
pub fn count(entries: &mut Slab<Entry>, key: u32, words: u8)
    ensures { Rewrites entries.old entries.new key (on_body (threads.on_thread (threads.counting words))) }
{
    if let Some(entry) = entries.get_mut(key as usize) {
        alter::count(&mut entry.body, words);
    }
}

/// It is the turn of a side of the talk of the thread under a key.
pub fn pass(entries: &mut Slab<Entry>, key: u32, turn: Turn)
    ensures { Rewrites entries.old entries.new key (on_body (threads.on_thread (threads.passing turn))) }
{
    if let Some(entry) = entries.get_mut(key as usize) {
        alter::pass(&mut entry.body, turn);
    }
}

/// The thread under a key is stopped so many times.
pub fn stop(entries: &mut Slab<Entry>, key: u32, stops: u16)
    ensures { Rewrites entries.old entries.new key (on_body (threads.on_thread (threads.stopping stops))) }
{
    if let Some(entry) = entries.get_mut(key as usize) {
        alter::stop(&mut entry.body, stops);
    }
}

/// The thread under a key has this fault, or none.
pub fn set_fault(entries: &mut Slab<Entry>, key: u32, fault: Option<Fault>)
    ensures { Rewrites entries.old entries.new key (on_body (threads.on_thread (threads.faulting fault))) }
{
    if let Some(entry) = entries.get_mut(key as usize) {
        alter::set_fault(&mut entry.body, fault);
    }
}

/// The mutex under a key is locked or unlocked.
pub fn lock(entries: &mut Slab<Entry>, key: u32, locked: bool)
    ensures { Rewrites entries.old entries.new key (on_body (threads.on_mutex locked)) }
{
    if let Some(entry) = entries.get_mut(key as usize) {
        alter::lock(&mut entry.body, locked);
    }
}
