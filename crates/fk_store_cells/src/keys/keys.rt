//! The keys of all spaces.
ghost use Rattle.std.specs.Prelude.{◌≡◌, ◌<◌, ◌≤◌, ℕ, ◌==◌, ◌&&◌, true, false, [], OnOk, OnErr, IsSome, IfSome, Some, None, if◌then◌else◌, length};
ghost use Rattle.std.specs.Prelude.{slice_index_or};
ghost use Rattle.std.specs.Option.{option_copied};
ghost use Rattle.slab.specs.Slab.{get};
ghost use Rattle.fk_store_cells.specs.Slots.Cells.{cell, is_from};
ghost use Rattle.fk_store_cells.specs.Keys.Tables.{mark_at, number_of, place_at};

use crate::keys::tables::{
    NOTHING, Table, add, give_back, is_marked_in, key_in, mark_in, marks_of, next_taken_in, put_in,
    remove_in, rename_in, word_in,
};
use slab::Slab;
use std::alloc::{AllocError, Global};
use std::marker::Model;

/// The keys of the slots of all spaces, by birth number.
#[derive(Drop)]
pub struct Keys {
    /// Where each space's table stands.
    places: Vec<u32>,
    tables: Slab<Box<Table>>,
}

impl Model for Keys {
    ghost use Rattle.std.specs.Prelude.{ℕ, Bool, List, Option};
    ghost use Rattle.fk_store_cells.specs.Keys.Tables.{all_keys, all_marks, shown, AreKept};

    ghost Value = { List (List (Option ℕ)) × List (List Bool) };

    ghost view = { λ s. (all_keys (shown s.places.items s.tables), all_marks (shown s.places.items s.tables)) };

    ghost invariant = { λ s. AreKept s.places.items s.tables };
}

impl Keys {
    /// No keys.
    pub fn new(alloc: Global) -> Keys
        ensures { result ≡ ([], []) }
    {
        Keys {
            places: Vec::new(alloc),
            tables: Slab::new(alloc),
        }
    }

    /// A space has no more than 256 slots.
    pub fn slots(&self)
        ensures { (s k : ℕ) → IsSome (cell self.now.0 s k) → k < 256 }
    {
        // The type of the tables says it.
        let _tables = &self.tables;
    }

    /// The key of the object in a slot of a space.
    #[inline]
    pub fn at(&self, space: u32, slot: u8) -> Option<u32>
        ensures { result ≡ cell self.now.0 space slot }
    {
        let table = table_at(&self.places, &self.tables, space);
        key_in(table, slot)
    }

    /// The key of the object in a slot of a space as it is written: what stands for no key is no key of an object.
    #[inline]
    pub fn word(&self, space: u32, slot: u8) -> u32
        ensures { number_of result ≡ cell self.now.0 space slot }
    {
        let table = table_at(&self.places, &self.tables, space);
        word_in(table, slot)
    }

    /// A space has a mark.
    #[inline]
    pub fn is_marked(&self, space: u32, mark: u8) -> bool
        requires { mark < 32 }
        ensures { result ≡ mark_at self.now.1 space mark }
    {
        let table = table_at(&self.places, &self.tables, space);
        is_marked_in(table, mark)
    }

    /// All marks of a space.
    #[inline]
    pub fn marks(&self, space: u32) -> [bool; 32]
        ensures { (m : ℕ) → slice_index_or result m false ≡ mark_at self.now.1 space m }
    {
        let table = table_at(&self.places, &self.tables, space);
        marks_of(table)
    }

    /// The first taken slot from a slot of a space on, in the order of spaces and slots.
    pub fn next_taken(&self, space: u32, slot: u16) -> Option<(u32, u8)>
        ensures some { IfSome result (λ next. IsSome (cell self.now.0 next.0 next.1)
            × (is_from space slot next.0 next.1 ≡ true)
            × ((s k : ℕ) → IsSome (cell self.now.0 s k) → is_from space slot s k ≡ true → is_from next.0 next.1 s k ≡ true)) }
        ensures none { result ≡ None → (s k : ℕ) → IsSome (cell self.now.0 s k) → is_from space slot s k ≡ false }
    {
        let mut from = slot;
        for at in (space as usize)..self.places.len() {
            let table = table_at(&self.places, &self.tables, at as u32);
            if let Some(slot) = next_taken_in(table, from) {
                return Some((at as u32, slot));
            }
            from = 0;
        }
        None
    }

    /// The first taken slot of a space from a slot on.
    pub fn next_in(&self, space: u32, slot: u16) -> Option<u8>
        ensures some { IfSome result (λ next. IsSome (cell self.now.0 space next) × (slot ≤ next)
            × ((k : ℕ) → IsSome (cell self.now.0 space k) → slot ≤ k → next ≤ k)) }
        ensures none { result ≡ None → (k : ℕ) → IsSome (cell self.now.0 space k) → k < slot }
    {
        let table = table_at(&self.places, &self.tables, space);
        next_taken_in(table, slot)
    }

    /// Puts the key of an object in a slot of a space. For want of memory what stands where stays as
    /// it was.
    ///
    /// # Errors
    ///
    /// There is no memory for the table of a space; what stands where is as before then.
    pub fn put(&mut self, space: u32, slot: u8, key: u32) -> Result<(), AllocError>
        requires { key < 4294967295 }
        ensures ok { OnOk result ((s k : ℕ) → cell self.new.0 s k ≡ (if s == space && k == slot then Some key else cell self.old.0 s k)) }
        ensures err { OnErr result ((s k : ℕ) → cell self.new.0 s k ≡ cell self.old.0 s k) }
        ensures marks { (s m : ℕ) → mark_at self.new.1 s m ≡ mark_at self.old.1 s m }
    {
        grow(&mut self.places, space)?;
        let place = place_of(&self.places, space);
        if self.tables.contains(place as usize) {
            put_in(&mut self.tables, place, slot, key);
            return Ok(());
        }
        let alloc = *self.places.allocator();
        let place = add(&mut self.tables, alloc, slot, key)?;
        self.places[space as usize] = place;
        Ok(())
    }

    /// A slot of a space has no key from now on.
    pub fn remove(&mut self, space: u32, slot: u8)
        ensures left { (s k : ℕ) → cell self.new.0 s k ≡ (if s == space && k == slot then None else cell self.old.0 s k) }
        ensures marks { self.new.1 ≡ self.old.1 }
    {
        let place = place_of(&self.places, space);
        remove_in(&mut self.tables, place, slot);
    }

    /// The key of a slot is that of another slot of its space from now on, and the first has none.
    pub fn rename(&mut self, space: u32, from: u8, to: u8)
        ensures moved { (s k : ℕ) → cell self.new.0 s k ≡ (if s == space && k == to then cell self.old.0 space from
            else (if s == space && k == from then None else cell self.old.0 s k)) }
        ensures marks { self.new.1 ≡ self.old.1 }
    {
        let place = place_of(&self.places, space);
        rename_in(&mut self.tables, place, from, to);
    }

    /// Sets a mark of a space in which an object stands.
    pub fn mark(&mut self, space: u32, slot: u8, mark: u8)
        requires there { IsSome (cell self.old.0 space slot) }
        requires few { mark < 32 }
        ensures keys { self.new.0 ≡ self.old.0 }
        ensures marks { (s m : ℕ) → mark_at self.new.1 s m ≡ (if s == space && m == mark then true else mark_at self.old.1 s m) }
    {
        let place = place_of(&self.places, space);
        mark_in(&mut self.tables, place, mark);
    }

    /// A space has no keys and no marks from now on, and its table is given back.
    pub fn clear(&mut self, space: u32)
        ensures keys { (s k : ℕ) → cell self.new.0 s k ≡ (if s == space then None else cell self.old.0 s k) }
        ensures marks { (s m : ℕ) → mark_at self.new.1 s m ≡ (if s == space then false else mark_at self.old.1 s m) }
    {
        let at = space as usize;
        if at < self.places.len() {
            let place = self.places[at];
            self.places[at] = NOTHING;
            give_back(&mut self.tables, place);
        }
    }
}

/// Where the table of a space stands.
#[inline]
fn place_of(places: &Vec<u32>, space: u32) -> u32
    ensures { result ≡ place_at places.now.items space }
{
    if (space as usize) < places.len() {
        places[space as usize]
    } else {
        NOTHING
    }
}

/// The table of a space, if it has one.
#[inline]
fn table_at<'a>(
    places: &Vec<u32>,
    tables: &'a Slab<Box<Table>>,
    space: u32,
) -> Option<&'a Box<Table>>
    requires { get tables.now 4294967295 ≡ None }
    ensures { option_copied result ≡ get tables.now (place_at places.now.items space) }
{
    if (space as usize) < places.len() {
        tables.get(places[space as usize] as usize)
    } else {
        None
    }
}

/// Makes room for all birth numbers up to this one.
fn grow(places: &mut Vec<u32>, space: u32) -> Result<(), AllocError>
    ensures same { (s : ℕ) → place_at places.new.items s ≡ place_at places.old.items s }
    ensures long { OnOk result (space < length places.new.items) }
    ensures few { length places.old.items ≤ 4294967296 → length places.new.items ≤ 4294967296 }
{
    while places.len() <= space as usize {
        places.push(NOTHING)?;
    }
    Ok(())
}
