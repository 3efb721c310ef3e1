//! The image that a file spells, which several commands need.
ghost use Rattle.std.specs.Prelude.{◌≡◌, Ok, true, IfOk, IfErr};
ghost use Rattle.fk_commands.specs.Prepared.{IsImageFail};
ghost use Rattle.fk_image.specs.Image.Valid.{is_valid};
ghost use Rattle.fk_image.specs.Format.Reading.{image_reading};

use crate::status::Status;
use fk_codec::{ReadFail, read};
use fk_image::Image;
use fk_model::Text;
use std::alloc::Global;

/// The image that the bytes of the file of a name spell.
///
/// # Errors
///
/// `BadImage` where they spell none, with the offset and the reason of their first fault. `NoMemory` where there is no
/// memory for it.
pub fn image_of(alloc: Global, name: &str, bytes: &[u8]) -> Result<Image, Status>
    ensures read { IfOk result (λ image. image_reading bytes.now ≡ Ok image) }
    ensures valid { IfOk result (λ image. is_valid image ≡ true) }
    ensures fail { IfErr result (IsImageFail name.now (image_reading bytes.now)) }
{
    match read(alloc, bytes) {
        Ok(image) => Ok(image),
        Err(ReadFail::Image(error)) => Err(Status::BadImage {
            name: Text::of(alloc, name)?,
            offset: error.offset,
            reason: error.reason,
        }),
        Err(ReadFail::NoMemory) => Err(Status::NoMemory),
    }
}
