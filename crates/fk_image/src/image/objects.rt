//! The objects of a space by rising slot.
ghost use Rattle.std.specs.Prelude.{◌≡◌, ◌≤◌, ◌++◌, ◌∷◌, [], length, IfOk, OnOk, OnErr};
ghost use Rattle.fk_image.specs.Image.Objects as words;

use crate::image::copy::copy_items;
use crate::image::image::{ObjectRec, Rec};
use crate::image::kinds::{kind_among, kind_at, make_room, number_of_rec, put};
use fk_model::{Kind, NoMemory};
use std::alloc::Global;
use std::marker::Model;

/// The objects of a space, by rising slot. Contracts see them as a list. Where they aren't few their kinds
/// stand in a table by slot besides: to where pointers lead is asked more often than all else.
#[derive(Drop)]
pub struct Objects {
    items: Vec<ObjectRec>,
    kinds: Vec<u8>,
}

impl Model for Objects {
    ghost use Rattle.std.specs.Prelude as std_words;
    ghost use Rattle.fk_image.specs.declared.image.image.ObjectRec as records;
    ghost use Rattle.fk_image.specs.Image.Objects.{rises};
    ghost use Rattle.fk_image.specs.Image.Kinds.{Tells};

    ghost Value = { std_words.List records.ObjectRec };

    ghost view = { λ s. s.items.items };

    ghost invariant = { λ s. std_words.IsTrue (rises 0 s.items.items) × Tells s.kinds.items s.items.items };
}

impl Objects {
    /// No objects.
    pub fn new(alloc: Global) -> Objects
        ensures { result ≡ [] }
    {
        Objects {
            items: Vec::new(alloc),
            kinds: Vec::new(alloc),
        }
    }

    /// No objects, with memory for the records of so many.
    ///
    /// # Errors
    ///
    /// There is no memory for these.
    pub fn with_room(alloc: Global, room: usize) -> Result<Objects, NoMemory>
        ensures { IfOk result (λ objects. objects ≡ []) }
    {
        Ok(Objects {
            items: Vec::with_capacity(alloc, room)?,
            kinds: Vec::new(alloc),
        })
    }

    /// How many there are.
    pub fn len(&self) -> usize
        ensures { result ≡ length self.now }
    {
        self.items.len()
    }

    /// The objects by rising slot.
    pub fn as_slice(&self) -> &[ObjectRec]
        ensures { result.now ≡ self.now }
    {
        self.items.as_slice()
    }

    /// Adds an object in a slot above the others. For want of memory they stay as they were.
    ///
    /// # Errors
    ///
    /// There is no memory for one record more; the objects are as before then.
    #[inline(always)]
    pub fn push(&mut self, item: ObjectRec) -> Result<(), NoMemory>
        requires { words.next_slot self.old ≤ item.slot }
        ensures ok { OnOk result (self.new ≡ self.old ++ item ∷ []) }
        ensures err { OnErr result (self.new ≡ self.old) }
    {
        self.items.reserve(1)?;
        make_room(&mut self.kinds, self.items.as_slice(), item.slot)?;
        put(&mut self.kinds, item.slot, number_of_rec(&item.body));
        self.items.push_reserved(item);
        Ok(())
    }

    /// Equal objects.
    ///
    /// # Errors
    ///
    /// There is no memory for the copy.
    pub fn copy(&self, alloc: Global) -> Result<Objects, NoMemory>
        ensures { IfOk result (λ copy. copy ≡ self.now) }
    {
        Ok(Objects {
            items: copy_items(alloc, self.items.as_slice())?,
            kinds: Vec::from_slice(alloc, self.kinds.as_slice())?,
        })
    }

    /// The kind of the object in a slot.
    pub fn kind_in(&self, slot: u16) -> Option<Kind>
        ensures { result ≡ words.kind_in self.now slot }
    {
        if self.kinds.is_empty() {
            kind_among(self.items.as_slice(), slot)
        } else {
            kind_at(&self.kinds, slot)
        }
    }
}

/// The kind of an object.
pub fn kind_of_rec(body: &Rec) -> Kind
    ensures { result ≡ words.kind_of_rec body.now }
{
    match body {
        Rec::Mutex { .. } => Kind::Mutex,
        Rec::Cond => Kind::Cond,
        Rec::Portset => Kind::Portset,
        Rec::Mapping { .. } => Kind::Mapping,
        Rec::Region { .. } => Kind::Region,
        Rec::Port { .. } => Kind::Port,
        Rec::Thread(_) => Kind::Thread,
        Rec::Reference { .. } => Kind::Reference,
    }
}
