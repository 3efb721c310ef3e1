//! A file of the shelf.
ghost use Rattle.std.specs.Prelude.{◌≡◌, ◌≤◌, Some, IfOk, IfErr};
ghost use Rattle.fk_causes.specs.Causes.{StandsUnless};
ghost use Rattle.fk_causes.specs.Shelf.{HasAt};
ghost use Rattle.fk_commands.specs.Prepared.{IsFileFail};
ghost use Rattle.fk_commands.specs.Status.{is_shelf_fault};

use crate::status::Status;
use fk_causes::{Shelf, ShelfFail};
use fk_model::Text;
use std::alloc::Global;

/// The bytes of a file that is needed for a name.
///
/// # Errors
///
/// `Absent` with the name where the shelf has no such file, `ShelfFault` where the get of it failed, and
/// `NoMemory` where there is none for its bytes.
pub fn file_of<H: Shelf>(
    alloc: Global,
    shelf: &mut H,
    file: &str,
    name: &str,
) -> Result<Vec<u8>, Status>
    ensures found { IfOk result (λ bytes. HasAt (H.files shelf.old) file.now (Some bytes.items)) }
    ensures fail { IfErr result (IsFileFail file.now name.now (H.files shelf.old) (H.failed_gets shelf.old) (H.failed_gets shelf.new)) }
    ensures kept_gets { StandsUnless is_shelf_fault (H.failed_gets shelf.old) (H.failed_gets shelf.new) result }
    ensures later { H.failed_gets shelf.old ≤ H.failed_gets shelf.new }
    ensures same_files { H.files shelf.new ≡ H.files shelf.old }
    ensures same_puts { H.failed_puts shelf.new ≡ H.failed_puts shelf.old }
{
    match shelf.get(file) {
        Ok(Some(bytes)) => Ok(bytes),
        Ok(None) => Err(Status::Absent {
            name: Text::of(alloc, name)?,
        }),
        Err(ShelfFail::Failed) => Err(Status::ShelfFault),
        Err(ShelfFail::NoMemory) => Err(Status::NoMemory),
    }
}
