//! The values of one space.
ghost use Rattle.std.specs.Prelude.{◌≡◌, ℕ, ◌==◌, ◌≤◌, ◌<◌, [], OnOk, OnErr, IfOk, IsSome, IfSome, Some, None, if◌then◌else◌, length};
ghost use Rattle.std.specs.Option.{option_copied};
ghost use Rattle.fk_store_cells.specs.Slots.Cells.{cell_in};

use std::alloc::{AllocError, Global};
use std::marker::Model;

/// The values of one space, by slot. It has no room at first, and then room for all slots.
#[derive(Drop)]
pub struct Row<V> {
    cells: Vec<Option<V>>,
}

impl<V> Model for Row<V> {
    ghost use Rattle.std.specs.Prelude.{List, Option};
    ghost use Rattle.fk_store_cells.specs.Slots.Cells.{IsRow};

    ghost Value = { List (Option V) };

    ghost view = { λ s. s.cells.items };

    ghost invariant = { λ s. IsRow s.cells.items };
}

impl<V> Row<V> {
    /// No values, and no room yet.
    pub fn new(alloc: Global) -> Row<V>
        ensures { result ≡ [] }
    {
        Row {
            cells: Vec::new(alloc),
        }
    }

    /// The value in a slot.
    #[inline]
    pub fn at(&self, slot: u8) -> Option<&V>
        ensures { option_copied result ≡ cell_in self.now slot }
    {
        let at = slot as usize;
        if at < self.cells.len() {
            self.cells[at].as_ref()
        } else {
            None
        }
    }

    /// How many slots it has room for: none, or all 256.
    pub fn room(&self) -> u16
        ensures room { result ≡ length self.now }
        ensures few { result ≤ 256 }
    {
        self.cells.len() as u16
    }

    /// The first taken slot from this one on.
    pub fn next_taken(&self, from: u16) -> Option<u8>
        ensures some { IfSome result (λ next. IsSome (cell_in self.now next) × (from ≤ next) × ((k : ℕ) → IsSome (cell_in self.now k) → from ≤ k → next ≤ k)) }
        ensures none { result ≡ None → (k : ℕ) → IsSome (cell_in self.now k) → k < from }
    {
        for at in usize::from(from)..self.cells.len() {
            if self.cells[at].is_some() {
                return Some(at as u8);
            }
        }
        None
    }

    /// Takes the value out of a slot.
    pub fn take(&mut self, slot: u8) -> Option<V>
        ensures taken { result ≡ cell_in self.old slot }
        ensures left { (k : ℕ) → cell_in self.new k ≡ (if k == slot then None else cell_in self.old k) }
        ensures room { IsSome result → length self.new ≡ 256 }
        ensures long { length self.new ≡ length self.old }
    {
        let at = slot as usize;
        if at < self.cells.len() {
            self.cells[at].take()
        } else {
            None
        }
    }
}

impl<V: Drop> Row<V> {
    /// Lays a value into a slot of a row that has room.
    pub fn lay(&mut self, slot: u8, value: V)
        requires { length self.old ≡ 256 }
        ensures laid { (k : ℕ) → cell_in self.new k ≡ (if k == slot then Some value else cell_in self.old k) }
        ensures long { length self.new ≡ length self.old }
    {
        self.cells[slot as usize] = Some(value);
    }

    /// Puts a value in a slot. For want of memory all stays as it was.
    ///
    /// # Errors
    ///
    /// There is no memory for the row; it is as before then.
    pub fn put(&mut self, slot: u8, value: V) -> Result<(), AllocError>
        ensures ok { OnOk result ((k : ℕ) → cell_in self.new k ≡ (if k == slot then Some value else cell_in self.old k)) }
        ensures err { OnErr result (self.new ≡ self.old) }
    {
        if self.cells.is_empty() {
            let alloc = *self.cells.allocator();
            self.cells = all_empty(alloc)?;
        }
        self.cells[slot as usize] = Some(value);
        Ok(())
    }
}

/// Room for all slots, with nothing in them.
fn all_empty<V: Drop>(alloc: Global) -> Result<Vec<Option<V>>, AllocError>
    ensures empty { IfOk result (λ cells. (k : ℕ) → cell_in cells.items k ≡ None) }
    ensures long { IfOk result (λ cells. length cells.items ≡ 256) }
{
    let mut cells = Vec::with_capacity(alloc, 256)?;
    for _ in 0..256u16 {
        cells.push(None)?;
    }
    Ok(cells)
}
