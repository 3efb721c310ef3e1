//! Kinds by slot, so that what a pointer leads to is one step away.
ghost use Rattle.std.specs.Prelude.{◌≡◌, ◌<◌, ◌⊎◌, OnOk, IfOk, Some, length, set};
ghost use Rattle.fk_image.specs.Image.Kinds as words;
ghost use Rattle.fk_image.specs.Image.Objects.{kind_of_rec, kind_in};

use crate::image::image::{ObjectRec, Rec};
use crate::image::objects::kind_of_rec;
use fk_model::{Kind, NoMemory, kind};
use std::alloc::Global;

/// The number of an object's kind.
pub fn number_of_rec(body: &Rec) -> u8
    ensures { words.numbered result ≡ Some (kind_of_rec body.now) }
{
    match body {
        Rec::Mutex { .. } => kind::MUTEX as u8,
        Rec::Cond => kind::COND as u8,
        Rec::Mapping { .. } => kind::MAPPING as u8,
        Rec::Region { .. } => kind::REGION as u8,
        Rec::Port { .. } => kind::PORT as u8,
        Rec::Portset => kind::PORTSET as u8,
        Rec::Thread(_) => kind::THREAD as u8,
        Rec::Reference { .. } => kind::REFERENCE as u8,
    }
}

fn numbered(number: u8) -> Option<Kind>
    ensures { result ≡ words.numbered number }
{
    match u64::from(number) {
        kind::MUTEX => Some(Kind::Mutex),
        kind::COND => Some(Kind::Cond),
        kind::MAPPING => Some(Kind::Mapping),
        kind::REGION => Some(Kind::Region),
        kind::PORT => Some(Kind::Port),
        kind::PORTSET => Some(Kind::Portset),
        kind::THREAD => Some(Kind::Thread),
        kind::REFERENCE => Some(Kind::Reference),
        _ => None,
    }
}

/// The number that a table has for a slot.
fn number_at(numbers: &Vec<u8>, slot: u16) -> u8
    ensures { words.numbered result ≡ words.kind_at numbers.now.items slot }
{
    if (slot as usize) < numbers.len() {
        numbers[slot as usize]
    } else {
        0
    }
}

/// The kind that a table has for a slot.
pub fn kind_at(numbers: &Vec<u8>, slot: u16) -> Option<Kind>
    ensures { result ≡ words.kind_at numbers.now.items slot }
{
    numbered(number_at(numbers, slot))
}

/// Puts a number into a table that has room for it.
#[inline(always)]
pub fn put(numbers: &mut Vec<u8>, slot: u8, number: u8)
    ensures { numbers.new.items ≡ set numbers.old.items slot number }
{
    if (slot as usize) < numbers.len() {
        numbers[slot as usize] = number;
    }
}

/// The kind of the object in a slot, looked for among few.
#[tactic(auto, unfolding(crate::specs::Image::Objects::kind_in))]
pub fn kind_among(items: &[ObjectRec], slot: u16) -> Option<Kind>
    ensures { result ≡ kind_in items.now slot }
{
    for object in items {
        if u16::from(object.slot) == slot {
            return Some(kind_of_rec(&object.body));
        }
    }
    None
}

/// The table of objects, with a number for each slot that a byte can name.
fn table_of(alloc: Global, items: &[ObjectRec]) -> Result<Vec<u8>, NoMemory>
    ensures long { IfOk result (λ numbers. length numbers.items ≡ 256) }
    ensures tells { IfOk result (λ numbers. words.Tells numbers.items items.now) }
{
    let mut numbers = Vec::new(alloc);
    numbers.resize(256, 0)?;
    let mut at = items.len();
    while at > 0 {
        at -= 1;
        let object = &items[at];
        numbers[object.slot as usize] = number_of_rec(&object.body);
    }
    Ok(numbers)
}

/// So many objects are looked through where there is no table.
const FEW: usize = 8;

/// Makes the table anew, or none where objects are few.
#[inline(never)]
fn tabulate(numbers: &mut Vec<u8>, items: &[ObjectRec]) -> Result<(), NoMemory>
    requires { words.Tells numbers.old.items items.now }
    ensures tells { words.Tells numbers.new.items items.now }
    ensures ready { OnOk result (length numbers.new.items ≡ 0 ⊎ length numbers.new.items ≡ 256) }
{
    if !numbers.is_empty() || items.len() >= FEW {
        *numbers = table_of(*numbers.allocator(), items)?;
    }
    Ok(())
}

/// Makes room for the kind of a slot, unless there is no table and objects are few.
///
/// # Errors
///
/// There is no memory for the table.
#[inline(always)]
pub fn make_room(numbers: &mut Vec<u8>, items: &[ObjectRec], slot: u8) -> Result<(), NoMemory>
    requires { words.Tells numbers.old.items items.now }
    ensures tells { words.Tells numbers.new.items items.now }
    ensures ready { OnOk result (length numbers.new.items ≡ 0 ⊎ slot < length numbers.new.items) }
{
    if (slot as usize) < numbers.len() {
        Ok(())
    } else {
        tabulate(numbers, items)
    }
}
