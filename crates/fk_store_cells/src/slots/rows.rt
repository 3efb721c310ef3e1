//! The values of all spaces, a row for each birth number.
ghost use Rattle.std.specs.Prelude.{◌≡◌, ◌<◌, ◌≤◌, ℕ, ◌==◌, ◌&&◌, true, false, OnOk, OnErr, IsSome, IfSome, Some, None, if◌then◌else◌, length};
ghost use Rattle.std.specs.Option.{option_copied};
ghost use Rattle.fk_store_cells.specs.Slots.Cells.{cell, is_from, HasRoom};

use crate::slots::row::Row;
use std::alloc::AllocError;

/// The value in a slot of a space.
#[inline]
pub fn value_at<V>(rows: &Vec<Row<V>>, space: u32, slot: u8) -> Option<&V>
    ensures { option_copied result ≡ cell rows.now.items space slot }
{
    let at = space as usize;
    if at < rows.len() {
        rows[at].at(slot)
    } else {
        None
    }
}

/// The space has room for all of its slots; false where it has none yet.
#[inline]
pub fn has_room<V>(rows: &Vec<Row<V>>, space: u32) -> bool
    ensures { result ≡ true → HasRoom rows.now.items space }
{
    let at = space as usize;
    if at < rows.len() {
        rows[at].room() == 256
    } else {
        false
    }
}

/// The first taken slot from a slot of a space on, in the order of spaces and slots.
pub fn next_taken<V>(rows: &Vec<Row<V>>, space: u32, slot: u16) -> Option<(u32, u8)>
    requires few { length rows.now.items ≤ 4294967296 }
    ensures some { IfSome result (λ next. IsSome (cell rows.now.items next.0 next.1)
        × (is_from space slot next.0 next.1 ≡ true)
        × ((s k : ℕ) → IsSome (cell rows.now.items s k) → is_from space slot s k ≡ true → is_from next.0 next.1 s k ≡ true)) }
    ensures none { result ≡ None → (s k : ℕ) → IsSome (cell rows.now.items s k) → is_from space slot s k ≡ false }
{
    let mut from = slot;
    for at in (space as usize)..rows.len() {
        if let Some(slot) = rows[at].next_taken(from) {
            return Some((at as u32, slot));
        }
        from = 0;
    }
    None
}

/// Puts a value in a slot of a space. For want of memory what stands where stays as it was.
///
/// # Errors
///
/// There is no memory for the rows; what stands where is as before then.
pub fn put_value<V: Drop>(
    rows: &mut Vec<Row<V>>,
    space: u32,
    slot: u8,
    value: V,
) -> Result<(), AllocError>
    ensures ok { OnOk result ((s k : ℕ) → cell rows.new.items s k ≡ (if s == space && k == slot then Some value else cell rows.old.items s k)) }
    ensures err { OnErr result ((s k : ℕ) → cell rows.new.items s k ≡ cell rows.old.items s k) }
    ensures few { length rows.old.items ≤ 4294967296 → length rows.new.items ≤ 4294967296 }
{
    grow(rows, space)?;
    let row = &mut rows[space as usize];
    row.put(slot, value)
}

/// Takes the value out of a slot of a space.
pub fn take_value<V: Drop>(rows: &mut Vec<Row<V>>, space: u32, slot: u8) -> Option<V>
    ensures taken { result ≡ cell rows.old.items space slot }
    ensures left { (s k : ℕ) → cell rows.new.items s k ≡ (if s == space && k == slot then None else cell rows.old.items s k) }
    ensures room { IsSome result → HasRoom rows.new.items space }
    ensures long { length rows.new.items ≡ length rows.old.items }
{
    let at = space as usize;
    if at < rows.len() {
        let row = &mut rows[at];
        row.take(slot)
    } else {
        None
    }
}

/// Lays a value into a slot of a space that has room.
pub fn lay_value<V: Drop>(rows: &mut Vec<Row<V>>, space: u32, slot: u8, value: V)
    requires { HasRoom rows.old.items space }
    ensures laid { (s k : ℕ) → cell rows.new.items s k ≡ (if s == space && k == slot then Some value else cell rows.old.items s k) }
    ensures long { length rows.new.items ≡ length rows.old.items }
{
    let row = &mut rows[space as usize];
    row.lay(slot, value);
}

/// Takes all values of a space away, and its room.
pub fn clear_row<V: Drop>(rows: &mut Vec<Row<V>>, space: u32)
    ensures left { (s k : ℕ) → cell rows.new.items s k ≡ (if s == space then None else cell rows.old.items s k) }
    ensures long { length rows.new.items ≡ length rows.old.items }
{
    let at = space as usize;
    if at < rows.len() {
        rows[at] = Row::new(*rows.allocator());
    }
}

/// Makes rows for all spaces up to this one.
fn grow<V: Drop>(rows: &mut Vec<Row<V>>, space: u32) -> Result<(), AllocError>
    ensures same { (s k : ℕ) → cell rows.new.items s k ≡ cell rows.old.items s k }
    ensures long { OnOk result (space < length rows.new.items) }
    ensures few { length rows.old.items ≤ 4294967296 → length rows.new.items ≤ 4294967296 }
{
    let alloc = *rows.allocator();
    while rows.len() <= space as usize {
        rows.push(Row::new(alloc))?;
    }
    Ok(())
}
