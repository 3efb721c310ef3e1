//! The parts of a space's objects, their records and its pages.
ghost use Rattle.std.specs.Prelude.{◌≡◌, ℕ, List};
ghost use Rattle.fk_image.specs.declared.image.image.SpaceRec as records;
ghost use Rattle.fk_image.specs.Image.Picture.{pictured_body};
ghost use Rattle.fk_model.specs.Objects.{kind_of, number_of_kind};
ghost use Rattle.laws_restore.specs.Sites.Orders.{stage_of};
ghost use Rattle.fk_restore.specs.Positions.Passes as words;
ghost use Rattle.fk_restore.specs.Positions.Doing.{doing_of};

use crate::positions::parts::Doing;
use crate::positions::walks::PLACES;
use fk_image::{ObjectRec, PageRec, Rec, SpaceRec};
use fk_model::{Stage, kind};

/// The number of an object's kind.
fn kind_number(body: &Rec) -> u64
    ensures { (ss : List records.SpaceRec) → result ≡ number_of_kind (kind_of (pictured_body ss body.now)) }
{
    match body {
        Rec::Mutex { .. } => kind::MUTEX,
        Rec::Cond => kind::COND,
        Rec::Mapping { .. } => kind::MAPPING,
        Rec::Region { .. } => kind::REGION,
        Rec::Port { .. } => kind::PORT,
        Rec::Portset => kind::PORTSET,
        Rec::Thread(_) => kind::THREAD,
        Rec::Reference { .. } => kind::REFERENCE,
    }
}

/// An object is made.
fn makes_object(object: &ObjectRec) -> Stage
    ensures { (ss : List records.SpaceRec) (slot : ℕ) (bind : ℕ → ℕ) (n : ℕ) (s : records.SpaceRec)
        → result ≡ stage_of slot (words.makes_object ss slot bind n s object.now) }
{
    Stage::Create {
        s: u64::from(PLACES),
        x: u64::from(object.slot),
        kind: kind_number(&object.body),
    }
}

/// An object, its record or a page.
fn fills_item(space: &SpaceRec, item: usize) -> Doing
    ensures { (ss : List records.SpaceRec) (slot : ℕ) (bind : ℕ → ℕ) (n : ℕ) → result ≡ doing_of slot (words.fills_item ss slot bind n space.now item) }
{
    let objects = space.objects.as_slice();
    let count = objects.len();
    if item < count {
        made(objects, item)
    } else if item < count + count {
        was_set(objects, item - count)
    } else {
        given(space.pages.as_slice(), item - (count + count))
    }
}

/// The object with a number is made.
fn made(objects: &[ObjectRec], item: usize) -> Doing
    ensures { (ss : List records.SpaceRec) (slot : ℕ) (bind : ℕ → ℕ) (n : ℕ) (s : records.SpaceRec)
        → result ≡ doing_of slot (words.object_part ss slot bind n s (words.makes_object ss slot bind n s) item objects.now) }
{
    match objects.get(item) {
        None => Doing::Nothing,
        Some(object) => Doing::Asks(makes_object(object)),
    }
}

/// The object with a number gets its record.
fn was_set(objects: &[ObjectRec], item: usize) -> Doing
    ensures { (ss : List records.SpaceRec) (slot : ℕ) (bind : ℕ → ℕ) (n : ℕ) (s : records.SpaceRec)
        → result ≡ doing_of slot (words.object_part ss slot bind n s (words.sets_object ss slot bind n s) item objects.now) }
{
    match objects.get(item) {
        None => Doing::Nothing,
        Some(object) => Doing::Asks(Stage::SetState {
            s: u64::from(PLACES),
            x: u64::from(object.slot),
            addr: 0,
        }),
    }
}

/// The page with this place in its space is given.
fn given(pages: &[PageRec], item: usize) -> Doing
    ensures { (ss : List records.SpaceRec) (slot : ℕ) (bind : ℕ → ℕ) (n : ℕ) (s : records.SpaceRec)
        → result ≡ doing_of slot (words.page_part ss slot bind n s item pages.now) }
{
    match pages.get(item) {
        None => Doing::Nothing,
        Some(page) => Doing::Asks(Stage::PageGive {
            s: u64::from(PLACES),
            page: u64::from(page.page),
            addr: 0,
        }),
    }
}

/// A part of an item, where a space is filled.
pub fn fills_part(space: &SpaceRec, item: usize, part: u8) -> Doing
    ensures { (ss : List records.SpaceRec) (slot : ℕ) (bind : ℕ → ℕ) (n : ℕ) → result ≡ doing_of slot (words.fills_part ss slot bind n space.now item part) }
{
    if part == 0 {
        fills_item(space, item)
    } else {
        Doing::Nothing
    }
}
