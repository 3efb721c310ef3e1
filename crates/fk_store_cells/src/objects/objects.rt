//! All objects, by key and by name.
ghost use Rattle.std.specs.Prelude.{◌≡◌, ◌<◌, ◌≤◌, ◌==◌, ◌&&◌, ℕ, true, false, [], OnOk, OnErr, IfOk, IfSome, IsSome, Some, None, option_map};
ghost use Rattle.std.specs.Prelude.{if◌then◌else◌, slice_index_or};
ghost use Rattle.std.specs.Option.{option_copied};
ghost use Rattle.fk_model.specs.declared.names.Who.{Who};
ghost use Rattle.fk_model.specs.Objects.{and_then};
ghost use Rattle.fk_store_cells.specs.Keys.Tables.{mark_at};
ghost use Rattle.fk_store_cells.specs.Slots.Cells.{cell, is_from};
ghost use Rattle.fk_store_cells.specs.declared.objects.entry.Entry.{Entry};
ghost use Rattle.fk_store_cells.specs.Objects.Filed.{entry_under, key_of, fresh, IsFiled};
ghost use Rattle.fk_store_cells.specs.Objects.Edits.{Edits, Makes, Keeps, Removes, Renames, same_who, with_body, on_body, with_hints};
ghost use Rattle.fk_store_cells.specs.Objects.Threads as threads;

use crate::keys::Keys;
use crate::objects::edits;
use crate::objects::entry::{Entry, Hints};
use fk_model::{Body, Fault, Mode, NoMemory, Turn, Who};
use slab::Slab;
use std::alloc::Global;
use std::marker::Model;

/// Keys below this have nodes that fit.
const KEYS: usize = 858_993_458;

/// All objects.
#[derive(Drop)]
pub struct Objects {
    entries: Slab<Entry>,
    keys: Keys,
}

impl Model for Objects {
    ghost use Rattle.fk_store_cells.specs.Objects.Filed.{Filed, IsFiled};

    ghost Value = { Filed };

    ghost view = { λ s. record { keys = s.keys.0; marks = s.keys.1; entries = s.entries.slots; vacant = s.entries.vacant_key } };

    ghost invariant = { λ s. IsFiled (record { keys = s.keys.0; marks = s.keys.1; entries = s.entries.slots; vacant = s.entries.vacant_key }) };
}

impl Objects {
    /// No objects.
    pub fn new(alloc: Global) -> Objects
        ensures { result ≡ record { keys = []; marks = []; entries = []; vacant = 0 } }
    {
        Objects {
            entries: Slab::new(alloc),
            keys: Keys::new(alloc),
        }
    }

    /// The key of the object with a name.
    #[inline]
    pub fn key(&self, who: Who) -> Option<u32>
        ensures key { result ≡ key_of self.now who }
        ensures filed { IfSome result (λ key. (e : Entry) × (entry_under self.now key ≡ Some e) × (e.who ≡ who)) }
        ensures small { IfSome result (λ key. key < 858993458) }
    {
        self.keys.at(who.space, who.slot)
    }

    /// The object under a key.
    #[tactic(auto, unfolding(crate::specs::Objects::Filed::key_of, crate::specs::Objects::Filed::entry_under))]
    #[inline]
    pub fn entry(&self, key: u32) -> Option<&Entry>
        ensures entry { option_copied result ≡ entry_under self.now key }
        ensures found { IfSome result (λ e. key_of self.now e.now.who ≡ Some key) }
    {
        self.entries.get(key as usize)
    }

    /// The body of the object with a name.
    #[inline]
    pub fn at(&self, who: Who) -> Option<&Body>
        ensures { option_copied result ≡ and_then (λ key. option_map (λ (e : Entry). e.body) (entry_under self.now key)) (key_of self.now who) }
    {
        // Under what stands for no key there is no object.
        let word = self.keys.word(who.space, who.slot);
        match self.entries.get(word as usize) {
            None => None,
            Some(entry) => Some(&entry.body),
        }
    }

    /// Gives the object under a key another body.
    pub fn put(&mut self, key: u32, body: Body)
        ensures { Edits self.old self.new key (with_body body) }
    {
        edits::write_body(&mut self.entries, key, body);
    }

    /// From now on this is told of the object under a key.
    pub fn tell(&mut self, key: u32, hints: Hints)
        ensures { Edits self.old self.new key (with_hints hints) }
    {
        edits::write_hints(&mut self.entries, key, hints);
    }

    /// The thread under a key goes on with these registers, at this counter and in this mode.
    pub fn proceed(&mut self, key: u32, registers: &[u64; 16], counter: u64, mode: Mode)
        ensures { Edits self.old self.new key (on_body (threads.on_thread (threads.going registers.now counter mode))) }
    {
        edits::proceed(&mut self.entries, key, registers, counter, mode);
    }

    /// The talk of the thread under a key has moved so many words more.
    pub fn count(&mut self, key: u32, words: u8)
        ensures { Edits self.old self.new key (on_body (threads.on_thread (threads.counting words))) }
    {
        edits::count(&mut self.entries, key, words);
    }

    /// It is the turn of a side of the talk of the thread under a key, and no words have been moved.
    pub fn pass(&mut self, key: u32, turn: Turn)
        ensures { Edits self.old self.new key (on_body (threads.on_thread (threads.passing turn))) }
    {
        edits::pass(&mut self.entries, key, turn);
    }

    /// The thread under a key is stopped so many times.
    pub fn stop(&mut self, key: u32, stops: u16)
        ensures { Edits self.old self.new key (on_body (threads.on_thread (threads.stopping stops))) }
    {
        edits::stop(&mut self.entries, key, stops);
    }

    /// The thread under a key has this fault, or none.
    pub fn set_fault(&mut self, key: u32, fault: Option<Fault>)
        ensures { Edits self.old self.new key (on_body (threads.on_thread (threads.faulting fault))) }
    {
        edits::set_fault(&mut self.entries, key, fault);
    }

    /// The mutex under a key is locked or unlocked.
    pub fn lock(&mut self, key: u32, locked: bool)
        ensures { Edits self.old self.new key (on_body (threads.on_mutex locked)) }
    {
        edits::lock(&mut self.entries, key, locked);
    }

    /// The key that the next object gets; none where none is left.
    pub fn vacant(&self) -> Option<u32>
        ensures key { IfSome result (λ key. key ≡ self.now.vacant) }
        ensures small { IfSome result (λ key. key < 858993458) }
    {
        let key = self.entries.vacant_key();
        if key < KEYS { Some(key as u32) } else { None }
    }

    /// Puts an object in an empty slot, and answers its key. For want of memory, and of keys, what
    /// stands where stays as it was.
    ///
    /// # Errors
    ///
    /// There is no memory for the object, or no key; what stands where is as before then.
    pub fn make(&mut self, who: Who, body: Body) -> Result<u32, NoMemory>
        requires empty { key_of self.old who ≡ None }
        ensures ok { IfOk result (λ key. Makes self.old self.new key (fresh who body)) }
        ensures err { OnErr result (Keeps self.old self.new) }
    {
        let key = self.entries.vacant_key();
        if key >= KEYS {
            return Err(NoMemory);
        }
        let key = key as u32;
        self.entries.reserve(1)?;
        self.keys.put(who.space, who.slot, key)?;
        self.entries.insert_reserved(Entry::fresh(who, body));
        Ok(key)
    }

    /// Takes the object under a key away.
    pub fn remove(&mut self, key: u32)
        requires { IsSome (entry_under self.old key) }
        ensures { (e : Entry) → entry_under self.old key ≡ Some e → Removes self.old self.new key e }
    {
        let gone = self.entries.remove(key as usize);
        self.keys.remove(gone.who.space, gone.who.slot);
    }

    /// Gives the object under a key another slot of its space, which is free.
    pub fn rename(&mut self, key: u32, to: Who)
        requires there { IsSome (entry_under self.old key) }
        requires space { (e : Entry) → entry_under self.old key ≡ Some e → e.who.space ≡ to.space }
        requires free { key_of self.old to ≡ None }
        ensures { (e : Entry) → entry_under self.old key ≡ Some e → Renames self.old self.new key e to }
    {
        let from = self.entries[key as usize].who;
        self.keys.rename(from.space, from.slot, to.slot);
        edits::write_name(&mut self.entries, key, to);
    }

    /// Sets a mark of the space in which an object stands.
    #[tactic(auto, unfolding(crate::specs::Objects::Filed::key_of, crate::specs::Objects::Filed::entry_under))]
    pub fn mark(&mut self, who: Who, mark: u8)
        requires there { IsSome (key_of self.old who) }
        requires few { mark < 32 }
        ensures keys { self.new.keys ≡ self.old.keys }
        ensures entries { self.new.entries ≡ self.old.entries }
        ensures marks { (s m : ℕ) → mark_at self.new.marks s m ≡ (if s == who.space && m == mark then true else mark_at self.old.marks s m) }
    {
        self.keys.mark(who.space, who.slot, mark);
    }

    /// A space has a mark.
    #[inline]
    pub fn is_marked(&self, space: u32, mark: u8) -> bool
        requires { mark < 32 }
        ensures { result ≡ mark_at self.now.marks space mark }
    {
        self.keys.is_marked(space, mark)
    }

    /// All marks of a space.
    #[inline]
    pub fn marks(&self, space: u32) -> [bool; 32]
        ensures { (m : ℕ) → slice_index_or result m false ≡ mark_at self.now.marks space m }
    {
        self.keys.marks(space)
    }

    /// Gives the table and the marks of a space back in which nothing stands.
    #[tactic(auto, unfolding(crate::specs::Objects::Filed::key_of, crate::specs::Objects::Filed::entry_under))]
    pub fn clear(&mut self, space: u32)
        requires empty { (k : ℕ) → cell self.old.keys space k ≡ None }
        ensures keys { (q : Who) → key_of self.new q ≡ key_of self.old q }
        ensures entries { self.new.entries ≡ self.old.entries }
        ensures marks { (s m : ℕ) → mark_at self.new.marks s m ≡ (if s == space then false else mark_at self.old.marks s m) }
    {
        self.keys.clear(space);
    }

    /// The first object from a slot of a space on, in the order of spaces and slots.
    #[tactic(auto, unfolding(crate::specs::Objects::Filed::key_of, crate::specs::Objects::Filed::entry_under))]
    pub fn next_taken(&self, space: u32, slot: u16) -> Option<Who>
        ensures some { IfSome result (λ next. IsSome (key_of self.now next)
            × (is_from space slot next.space next.slot ≡ true)
            × ((q : Who) → IsSome (key_of self.now q) → is_from space slot q.space q.slot ≡ true → is_from next.space next.slot q.space q.slot ≡ true)) }
        ensures none { result ≡ None → (q : Who) → IsSome (key_of self.now q) → is_from space slot q.space q.slot ≡ false }
    {
        let (space, slot) = self.keys.next_taken(space, slot)?;
        Some(Who { space, slot })
    }

    /// The first taken slot of a space from a slot on.
    pub fn next_in(&self, space: u32, slot: u16) -> Option<u8>
        ensures some { IfSome result (λ next. IsSome (cell self.now.keys space next) × (slot ≤ next)
            × ((k : ℕ) → IsSome (cell self.now.keys space k) → slot ≤ k → next ≤ k)) }
        ensures none { result ≡ None → (k : ℕ) → IsSome (cell self.now.keys space k) → k < slot }
    {
        self.keys.next_in(space, slot)
    }

    /// No object has this key, or one above it.
    pub fn bound(&self) -> u32
        ensures { (key : ℕ) → IsSome (entry_under self.now key) → key < result }
    {
        let most = self.entries.capacity();
        if most < KEYS {
            most as u32
        } else {
            KEYS as u32
        }
    }

    /// Keys and names agree.
    pub fn filed(&self)
        ensures { IsFiled self.now }
    {
        // The type says it.
        let _keys = &self.keys;
    }

    /// A space has no more than 256 slots.
    #[tactic(auto, unfolding(crate::specs::Objects::Filed::key_of, crate::specs::Objects::Filed::entry_under))]
    pub fn slots(&self)
        ensures { (q : Who) → IsSome (key_of self.now q) → q.slot < 256 }
    {
        self.keys.slots();
    }
}
