//! The version of an image.
ghost use Rattle.std.specs.Prelude.{◌≡◌};
ghost use Rattle.std.specs.List.{list_any};
ghost use Rattle.fk_image.specs.Format.Versions as versions;

use crate::image::{Image, ObjectRec, Rec, SpaceRec};
use fk_model::call;

/// A calling thread's first register is the code of a call that hands a reference over or receives
/// one.
pub fn shows_new(regs: &[u64; 16], mode: u8) -> bool
    ensures { result ≡ versions.shows_new regs.now mode }
{
    mode == 1
        && matches!(
            regs[0],
            call::CLIENT_OVER_REF
                | call::CLIENT_RECEIVE_REF
                | call::SERVER_OVER_REF
                | call::SERVER_RECEIVE_REF
        )
}

fn body_shows(body: &Rec) -> bool
    ensures { result ≡ versions.body_shows body.now }
{
    match body {
        Rec::Thread(thread) => {
            let thread = thread.get();
            shows_new(&thread.regs, thread.mode)
        }
        _ => false,
    }
}

fn objects_show(objects: &[ObjectRec]) -> bool
    ensures { result ≡ list_any versions.object_shows objects.now }
{
    for object in objects {
        if body_shows(&object.body) {
            return true;
        }
    }
    false
}

fn spaces_show(spaces: &[SpaceRec]) -> bool
    ensures { result ≡ list_any versions.space_shows spaces.now }
{
    for space in spaces {
        if objects_show(space.objects.as_slice()) {
            return true;
        }
    }
    false
}

/// A calling thread of the image shows such a call, so that the image's version is the new one.
pub fn image_shows(image: &Image) -> bool
    ensures { result ≡ versions.image_shows image.now }
{
    spaces_show(image.spaces.as_slice())
}

impl Image {
    /// The version of the format in which an image is written: 2 where a calling thread shows a call
    /// that hands a reference over or receives one, else 1.
    pub fn version(&self) -> u8
        ensures { result ≡ versions.version self.now }
    {
        if image_shows(self) { 2 } else { 1 }
    }
}
