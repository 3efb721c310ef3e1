//! Where pointers lead, and what each field may hold.
ghost use Rattle.std.specs.Prelude.{◌≡◌};
ghost use Rattle.fk_image.specs.Image.Links as words;

use crate::image::image::{Link, SpaceRec};
use crate::image::objects::Objects;
use fk_model::Kind;

/// The kind of the object in a slot of the space with a number.
pub fn kind_in_space(spaces: &[SpaceRec], space: u32, slot: u8) -> Option<Kind>
    ensures { result ≡ words.kind_in_space spaces.now space slot }
{
    match spaces.get(space as usize) {
        None => None,
        Some(space) => space.objects.kind_in(u16::from(slot)),
    }
}

/// Whether a mapping's pointer leads to a region, or nowhere.
pub fn leads_to_region(spaces: &[SpaceRec], to: Link) -> bool
    ensures { result ≡ words.leads_to_region spaces.now to }
{
    match to {
        Link::Null | Link::Dead => true,
        Link::In { space, slot } => matches!(
            kind_in_space(spaces, space, slot),
            Some(Kind::Region)
        ),
        Link::Out(_) | Link::Root | Link::Outside => false,
    }
}

/// Whether a region's pointer leads to a port, or nowhere.
pub fn leads_to_keeper(spaces: &[SpaceRec], to: Link) -> bool
    ensures { result ≡ words.leads_to_keeper spaces.now to }
{
    match to {
        Link::Null | Link::Dead | Link::Out(_) => true,
        Link::In { space, slot } => matches!(kind_in_space(spaces, space, slot), Some(Kind::Port)),
        Link::Root | Link::Outside => false,
    }
}

/// Whether the pointer of a talk or a fault leads to a port.
pub fn leads_to_port(spaces: &[SpaceRec], to: Link) -> bool
    ensures { result ≡ words.leads_to_port spaces.now to }
{
    match to {
        Link::Out(_) => true,
        Link::In { space, slot } => matches!(kind_in_space(spaces, space, slot), Some(Kind::Port)),
        Link::Null | Link::Dead | Link::Root | Link::Outside => false,
    }
}

fn is_thread_in(spaces: &[SpaceRec], space: u32, to: Link) -> bool
    ensures { result ≡ words.is_thread_in spaces.now space to }
{
    match to {
        Link::In { space: other, slot } => {
            other == space && matches!(kind_in_space(spaces, other, slot), Some(Kind::Thread))
        }
        _ => false,
    }
}

/// Whether a peer may serve a talk, or have taken a fault, at a port: it is a thread of the port's space,
/// or outside where the port is.
pub fn serves_port(spaces: &[SpaceRec], port: Link, peer: Link) -> bool
    ensures { result ≡ words.serves_port spaces.now port peer }
{
    match port {
        Link::Out(_) => matches!(peer, Link::Outside),
        Link::In { space, .. } => is_thread_in(spaces, space, peer),
        Link::Null | Link::Dead | Link::Root | Link::Outside => false,
    }
}

/// Whether a port's set, 0 or 1 and its slot, is none or a port set among these objects.
pub fn is_set_of(objects: &Objects, set: u16) -> bool
    ensures { result ≡ words.is_set_of objects.now set }
{
    set == 0 || matches!(objects.kind_in(set - 1), Some(Kind::Portset))
}
