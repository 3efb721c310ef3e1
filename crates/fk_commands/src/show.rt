//! The command `show`: the counts of an image are shown.
ghost use Rattle.std.specs.Prelude.{◌≡◌, IfErr};
ghost use Rattle.fk_causes.specs.Causes.{Rose, StandsUnless};
ghost use Rattle.fk_image.specs.Format.Reading.{image_reading};
ghost use Rattle.fk_commands.specs.Show.{IsShow, IsShown};
ghost use Rattle.fk_commands.specs.Prepared.{ComesTo, IsRefusal};
ghost use Rattle.fk_commands.specs.Status.{is_shelf_fault};

use crate::image::image_of;
use crate::prepared::Prepared;
use crate::shelf_file::file_of;
use crate::status::Status;
use fk_causes::Shelf;
use fk_codec::show::show_text;
use std::alloc::Global;

fn show_image(alloc: Global, name: &str, bytes: &[u8]) -> Result<Prepared, Status>
    ensures comes { ComesTo (IsShown name.now (image_reading bytes.now)) result }
    ensures refusal { IfErr result (IsRefusal ⊥ ⊥) }
{
    let image = image_of(alloc, name, bytes)?;
    let output = show_text(alloc, &image)?;
    Ok(Prepared {
        status: Status::Ok,
        report: None,
        output,
    })
}

/// Shows the counts of the image with this name, which the shelf has as `NAME.img`.
///
/// # Errors
///
/// `Absent` where the shelf has no such image, and `ShelfFault` where the get of it failed. `BadImage`
/// where its bytes spell no image, with the offset and the reason of their first fault. `NoMemory` where
/// there is no memory for any of it.
pub fn show<H: Shelf>(alloc: Global, name: &str, shelf: &mut H) -> Result<Prepared, Status>
    ensures comes { ComesTo (IsShow name.now (H.files shelf.old)) result }
    ensures refusal { IfErr result (IsRefusal ⊥ (Rose (H.failed_gets shelf.old) (H.failed_gets shelf.new))) }
    ensures kept_gets { StandsUnless is_shelf_fault (H.failed_gets shelf.old) (H.failed_gets shelf.new) result }
    ensures same_files { H.files shelf.new ≡ H.files shelf.old }
    ensures same_puts { H.failed_puts shelf.new ≡ H.failed_puts shelf.old }
{
    let file = format!(in alloc; "{name}.img")?;
    let bytes = file_of(alloc, shelf, file.as_str(), name)?;
    show_image(alloc, name, &bytes)
}
