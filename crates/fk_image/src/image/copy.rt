//! Equal images.
ghost use Rattle.std.specs.Prelude.{◌≡◌, IfOk};

use crate::image::boxed::BoxedThread;
use crate::image::image::{Image, ObjectRec, Rec, SpaceRec};
use fk_model::{List, NoMemory};
use std::alloc::Global;

fn copy_body(alloc: Global, body: &Rec) -> Result<Rec, NoMemory>
    ensures { IfOk result (λ copy. copy ≡ body.now) }
{
    Ok(match body {
        Rec::Mutex { locked } => Rec::Mutex { locked: *locked },
        Rec::Cond => Rec::Cond,
        Rec::Portset => Rec::Portset,
        Rec::Mapping {
            first,
            count,
            offset,
            write,
            region,
        } => Rec::Mapping {
            first: *first,
            count: *count,
            offset: *offset,
            write: *write,
            region: *region,
        },
        Rec::Region {
            first,
            count,
            write,
            keeper,
        } => Rec::Region {
            first: *first,
            count: *count,
            write: *write,
            keeper: *keeper,
        },
        Rec::Port { set } => Rec::Port { set: *set },
        Rec::Thread(thread) => Rec::Thread(BoxedThread::new(alloc, *thread.get())?),
        Rec::Reference { to } => Rec::Reference { to: *to },
    })
}

/// Equal objects.
///
/// # Errors
///
/// There is no memory for the copy.
pub fn copy_items(alloc: Global, items: &[ObjectRec]) -> Result<Vec<ObjectRec>, NoMemory>
    ensures { IfOk result (λ copy. copy.items ≡ items.now) }
{
    let mut copy = Vec::new(alloc);
    for object in items {
        copy.push(ObjectRec {
            slot: object.slot,
            body: copy_body(alloc, &object.body)?,
        })?;
    }
    Ok(copy)
}

fn copy_space(alloc: Global, space: &SpaceRec) -> Result<SpaceRec, NoMemory>
    ensures { IfOk result (λ copy. copy ≡ space.now) }
{
    Ok(SpaceRec {
        parent: space.parent,
        slot: space.slot,
        holder: space.holder,
        objects: space.objects.copy(alloc)?,
        pages: space.pages.copy()?,
    })
}

impl Image {
    /// An equal image.
    ///
    /// # Errors
    ///
    /// There is no memory for the copy.
    pub fn copy(&self, alloc: Global) -> Result<Image, NoMemory>
        ensures { IfOk result (λ copy. copy ≡ self.now) }
    {
        let mut spaces = List::new(alloc);
        for space in self.spaces.as_slice() {
            spaces.push(copy_space(alloc, space)?)?;
        }
        Ok(Image { spaces })
    }
}
