//! The keys of one space.
ghost use Rattle.std.specs.Prelude.{◌≡◌, ℕ, ◌==◌, ◌<◌, ◌≤◌, IfOk, IsSome, IfSome, Some, None, OnErr, if◌then◌else◌, slice_index_or, false, true};
ghost use Rattle.std.specs.Option.{option_copied};
ghost use Rattle.slab.specs.Slab.{get, ContainsKey, SameValues, Updates};
ghost use Rattle.fk_store_cells.specs.Slots.Cells.{cell_in};
ghost use Rattle.fk_store_cells.specs.Keys.Tables.{keys_in, marks_in, marked_in, keyed, number_of, pair_of, IsPut, IsMoved, IsMarked, Alters, Adds};

use slab::Slab;
use std::alloc::{AllocError, Global};

/// What stands for no key, and for no table.
pub const NOTHING: u32 = u32::MAX;

/// The keys of a space's slots, and its marks.
#[derive(Drop)]
pub struct Table {
    keys: [u32; 256],
    marks: [bool; 32],
}

/// The key of a slot of a space; none where it has no table.
#[inline]
pub fn key_in(table: Option<&Box<Table>>, slot: u8) -> Option<u32>
    ensures { result ≡ cell_in (keys_in (option_copied table.entry)) slot }
{
    match table {
        None => None,
        Some(table) => key_of(table.keys[slot as usize]),
    }
}

/// The key of a slot of a space as it is written; `NOTHING` where it has no table.
#[inline]
pub fn word_in(table: Option<&Box<Table>>, slot: u8) -> u32
    ensures { number_of result ≡ cell_in (keys_in (option_copied table.entry)) slot }
{
    match table {
        None => NOTHING,
        Some(table) => table.keys[slot as usize],
    }
}

/// The marks of a space.
pub fn marks_of(table: Option<&Box<Table>>) -> [bool; 32]
    ensures { (m : ℕ) → slice_index_or result m false ≡ marked_in (marks_in (option_copied table.entry)) m }
{
    match table {
        None => [false; 32],
        Some(table) => table.marks,
    }
}

/// A space has a mark.
#[inline]
pub fn is_marked_in(table: Option<&Box<Table>>, mark: u8) -> bool
    requires { mark < 32 }
    ensures { result ≡ marked_in (marks_in (option_copied table.entry)) mark }
{
    match table {
        None => false,
        Some(table) => table.marks[mark as usize],
    }
}

/// The first taken slot of a space from this one on.
pub fn next_taken_in(table: Option<&Box<Table>>, from: u16) -> Option<u8>
    ensures some { IfSome result (λ next. IsSome (cell_in (keys_in (option_copied table.entry)) next) × (from ≤ next)
        × ((k : ℕ) → IsSome (cell_in (keys_in (option_copied table.entry)) k) → from ≤ k → next ≤ k)) }
    ensures none { result ≡ None → (k : ℕ) → IsSome (cell_in (keys_in (option_copied table.entry)) k) → k < from }
{
    match table {
        None => None,
        Some(table) => next_key(&table.keys, from),
    }
}

impl Table {
    /// A slot has another key.
    #[tactic(auto, using(crate::proofs::InKeys::KeyLaws::keyed_put))]
    fn put(&mut self, slot: u8, key: u32)
        requires { key < 4294967295 }
        ensures { IsPut slot (Some key) (pair_of self.old) (pair_of self.new) }
    {
        self.keys[slot as usize] = key;
    }

    /// A slot has no key.
    #[tactic(auto, using(crate::proofs::InKeys::KeyLaws::keyed_gone))]
    fn remove(&mut self, slot: u8)
        ensures { IsPut slot None (pair_of self.old) (pair_of self.new) }
    {
        self.keys[slot as usize] = NOTHING;
    }

    /// The key of a slot is that of another slot, and the first has none.
    #[tactic(auto, using(crate::proofs::InKeys::KeyLaws::keyed_moved))]
    fn rename(&mut self, from: u8, to: u8)
        ensures { IsMoved from to (pair_of self.old) (pair_of self.new) }
    {
        let key = self.keys[from as usize];
        self.keys[from as usize] = NOTHING;
        self.keys[to as usize] = key;
    }

    /// A mark is set.
    fn mark(&mut self, mark: u8)
        requires { mark < 32 }
        ensures { IsMarked mark (pair_of self.old) (pair_of self.new) }
    {
        self.marks[mark as usize] = true;
    }
}

/// A slot of a table that is there has another key.
pub fn put_in(tables: &mut Slab<Box<Table>>, place: u32, slot: u8, key: u32)
    requires there { ContainsKey tables.old place }
    requires key { key < 4294967295 }
    ensures { Alters tables.old tables.new place (IsPut slot (Some key)) }
{
    if let Some(table) = tables.get_mut(place as usize) {
        table.put(slot, key);
    }
}

/// A slot of a table has no key.
pub fn remove_in(tables: &mut Slab<Box<Table>>, place: u32, slot: u8)
    ensures { Alters tables.old tables.new place (IsPut slot None) }
{
    if let Some(table) = tables.get_mut(place as usize) {
        table.remove(slot);
    }
}

/// A key of a table goes to another slot.
pub fn rename_in(tables: &mut Slab<Box<Table>>, place: u32, from: u8, to: u8)
    ensures { Alters tables.old tables.new place (IsMoved from to) }
{
    if let Some(table) = tables.get_mut(place as usize) {
        table.rename(from, to);
    }
}

/// A mark of a table that is there is set.
pub fn mark_in(tables: &mut Slab<Box<Table>>, place: u32, mark: u8)
    requires there { ContainsKey tables.old place }
    requires few { mark < 32 }
    ensures { Alters tables.old tables.new place (IsMarked mark) }
{
    if let Some(table) = tables.get_mut(place as usize) {
        table.mark(mark);
    }
}

/// The table at a place is given back, if there is one.
pub fn give_back(tables: &mut Slab<Box<Table>>, place: u32)
    ensures { Updates tables.old tables.new place None }
{
    let _table = tables.try_remove(place as usize);
}

/// A table with one key comes, and its place.
///
/// # Errors
///
/// There is no memory for a table; the tables are as before then.
pub fn add(
    tables: &mut Slab<Box<Table>>,
    alloc: Global,
    slot: u8,
    key: u32,
) -> Result<u32, AllocError>
    requires { key < 4294967295 }
    ensures ok { IfOk result (Adds tables.old tables.new slot key) }
    ensures err { OnErr result (SameValues tables.old tables.new) }
{
    let place = tables.vacant_key();
    if place >= NOTHING as usize {
        return Err(AllocError);
    }
    let table = one_key(alloc, slot, key)?;
    tables.reserve(1)?;
    tables.insert_reserved(table);
    Ok(place as u32)
}

/// The key that is written so.
#[inline]
fn key_of(word: u32) -> Option<u32>
    ensures { result ≡ number_of word }
{
    if word == NOTHING { None } else { Some(word) }
}

/// The first slot with a key from this one on.
fn next_key(keys: &[u32; 256], from: u16) -> Option<u8>
    ensures some { IfSome result (λ next. IsSome (cell_in (keyed keys.now) next) × (from ≤ next)
        × ((k : ℕ) → IsSome (cell_in (keyed keys.now) k) → from ≤ k → next ≤ k)) }
    ensures none { result ≡ None → (k : ℕ) → IsSome (cell_in (keyed keys.now) k) → k < from }
{
    for at in usize::from(from)..256 {
        if key_at(keys, at).is_some() {
            return Some(at as u8);
        }
    }
    None
}

/// The key that is written in a slot.
#[inline]
fn key_at(keys: &[u32; 256], at: usize) -> Option<u32>
    requires { at < 256 }
    ensures { result ≡ cell_in (keyed keys.now) at }
{
    key_of(keys[at])
}

/// A table with one key.
fn one_key(alloc: Global, slot: u8, key: u32) -> Result<Box<Table>, AllocError>
    requires { key < 4294967295 }
    ensures keys { IfOk result (λ t. (k : ℕ) → cell_in (keys_in (Some t)) k ≡ (if k == slot then Some key else None)) }
    ensures marks { IfOk result (λ t. (m : ℕ) → marked_in (marks_in (Some t)) m ≡ false) }
{
    let mut keys = [NOTHING; 256];
    keys[slot as usize] = key;
    let table = Table {
        keys,
        marks: [false; 32],
    };
    let table = Box::new(alloc, table)?;
    Ok(table)
}
