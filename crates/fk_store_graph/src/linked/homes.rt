//! Under which key each space stands, by its birth number.
ghost use Rattle.std.specs.Prelude.{◌≡◌, ◌<◌, ℕ, OnOk, Some, None, false, if◌then◌else◌, length};
ghost use Rattle.fk_model.specs.declared.names.Who.{Who};
ghost use Rattle.fk_store_cells.specs.Keys.Tables.{mark_at};
ghost use Rattle.fk_store_cells.specs.Objects.Filed.{key_of};
ghost use Rattle.fk_store_graph.specs.Leads.Births.{is_number};
ghost use Rattle.fk_store_graph.specs.Linked.Homes.{home_at, home_word};

use fk_store_cells::objects::Objects;
use std::alloc::AllocError;

/// What stands for no key.
pub const NOWHERE: u32 = u32::MAX;

/// The key of the space with a birth number.
pub fn home_of(homes: &Vec<u32>, birth: u32) -> Option<u32>
    ensures { result ≡ home_at homes.now.items birth }
{
    if (birth as usize) < homes.len() {
        key_word(homes[birth as usize])
    } else {
        None
    }
}

fn key_word(word: u32) -> Option<u32>
    ensures { result ≡ home_word word }
{
    if word == NOWHERE { None } else { Some(word) }
}

/// Makes room for a birth number, if there is one.
///
/// # Errors
///
/// There is no memory for it.
pub fn make_room(homes: &mut Vec<u32>, birth: Option<u32>) -> Result<(), AllocError>
    ensures same { (n : ℕ) → home_at homes.new.items n ≡ home_at homes.old.items n }
    ensures long { OnOk result ((n : ℕ) → birth ≡ Some n → n < length homes.new.items) }
{
    match birth {
        None => Ok(()),
        Some(birth) => grow(homes, birth as usize),
    }
}

fn grow(homes: &mut Vec<u32>, birth: usize) -> Result<(), AllocError>
    ensures same { (n : ℕ) → home_at homes.new.items n ≡ home_at homes.old.items n }
    ensures long { OnOk result (birth < length homes.new.items) }
{
    while homes.len() <= birth {
        homes.push(NOWHERE)?;
    }
    Ok(())
}

/// The space with this birth number, if there is one, has this key from now on; none if it is NOWHERE.
pub fn settle(homes: &mut Vec<u32>, birth: Option<u32>, key: u32)
    requires { (n : ℕ) → birth ≡ Some n → n < length homes.old.items }
    ensures { (n : ℕ) → home_at homes.new.items n ≡ (if is_number n birth then home_word key else home_at homes.old.items n) }
{
    if let Some(birth) = birth {
        homes[birth as usize] = key;
    }
}

/// The space with this birth number, if there is one, is no more: it has no key, and its table and its
/// marks are given back.
pub fn leave(objects: &mut Objects, homes: &mut Vec<u32>, birth: Option<u32>)
    requires low { (n : ℕ) → birth ≡ Some n → n < length homes.old.items }
    requires empty { (n : ℕ) (q : Who) → birth ≡ Some n → q.space ≡ n → key_of objects.old q ≡ None }
    ensures homes { (n : ℕ) → home_at homes.new.items n ≡ (if is_number n birth then None else home_at homes.old.items n) }
    ensures keys { (q : Who) → key_of objects.new q ≡ key_of objects.old q }
    ensures entries { objects.new.entries ≡ objects.old.entries }
    ensures marks { (s m : ℕ) → mark_at objects.new.marks s m ≡ (if is_number s birth then false else mark_at objects.old.marks s m) }
{
    if let Some(birth) = birth {
        settle(homes, Some(birth), NOWHERE);
        objects.clear(birth);
    }
}
