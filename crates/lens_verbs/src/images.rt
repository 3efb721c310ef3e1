//! The images of the shelf: shown as text, and for a scenario's jobs.
ghost use Rattle.std.specs.Prelude.{⊤};

use fk_causes::Shelf;
use fk_commands::{ImageReader, Status, image_of, lend_image};
use fk_finish::ValidImage;
use fk_first::Images;
use fk_image::Image;
use lens_text::{Problem, Sheet, file_of, given, line_at, push_differences, push_image};

/// What was expected of an image, by the reason for which it is refused, and by any other.
const EXPECTED: &str = "the end of the file
the 8 bytes FLUKEIMG
the version 1 or 2
the whole of the field that begins here; the file ends in it
a space that follows in preorder, or a slot or page above the one before
a number, slot, kind, mode or tag in its range
a pointer to something that this field can hold
the end of the file
the version 1, since no thread is at a call that hands a reference over or receives one";

/// Says that the file with a name isn't taken for an image, by the status with which it is refused.
fn refuse_image(sheet: &Sheet, name: &str, status: &Status) {
    match status {
        Status::BadImage { offset, reason, .. } => {
            let expected = line_at(EXPECTED, *reason as u64);
            given(
                sheet,
                name,
                ".img, offset @: expected ",
                *offset,
                0,
                expected,
            );
        }
        _ => sheet.lacks(),
    }
}

/// Writes an image on a sheet; why there is none is said on another.
#[derive(Drop)]
struct ImageText<'a> {
    name: &'a str,
    sheet: &'a Sheet,
    faults: &'a Sheet,
}

impl ImageReader for ImageText<'_> {
    ghost looks = { λ _ _ _. ⊤ };

    ghost hears = { λ _ _ _. ⊤ };

    fn image(&mut self, image: &Image) {
        push_image(self.sheet, image.spaces.as_slice());
    }

    fn refused(&mut self, status: &Status) {
        refuse_image(self.faults, self.name, status);
    }
}

/// Adds the image with this name to one sheet, or says on another why it isn't shown.
pub fn show_image<H: Shelf>(faults: &Sheet, sheet: &Sheet, name: &str, shelf: &mut H) {
    if let Some(bytes) = file_of(faults, shelf, name, ".img") {
        lend_image(
            sheet.alloc,
            name,
            &bytes,
            &mut ImageText {
                name,
                sheet,
                faults,
            },
        );
    }
}

/// Adds the lines by which the images with these names differ, in their order: those that the second lacks behind `-`, those that the
/// first lacks behind `+`. Where all are the same there is none. Or says why they aren't shown, of the first where neither is.
pub fn show_differences<H: Shelf>(sheet: &Sheet, name: &str, other: &str, shelf: &mut H) {
    let (first, second) = (Sheet::new(sheet.alloc), Sheet::new(sheet.alloc));
    show_image(sheet, &second, other, shelf);
    show_image(sheet, &first, name, shelf);
    let (first, second) = (sheet.taken(first), sheet.taken(second));
    if sheet.problem().is_none() {
        push_differences(sheet, first.as_str(), second.as_str());
    }
}

/// The files of a shelf; what is wrong with one is said on the sheet.
#[derive(Drop)]
pub struct Files<'a, H: Shelf> {
    pub sheet: &'a Sheet,
    pub shelf: &'a mut H,
}

impl<H: Shelf> Images for Files<'_, H> {
    type Fault = Problem;

    fn image(&mut self, name: &str) -> Result<ValidImage, Problem> {
        let sheet = self.sheet;
        if let Some(bytes) = file_of(sheet, self.shelf, name, ".img") {
            match image_of(sheet.alloc, name, &bytes) {
                Ok(image) => match ValidImage::new(sheet.alloc, image) {
                    Ok(valid) => return Ok(valid),
                    Err(_) => sheet.lacks(),
                },
                Err(status) => refuse_image(sheet, name, &status),
            }
        }
        Err(sheet.problem().unwrap_or(Problem::NoMemory))
    }
}
