//! The source, and the files of the shelf.
use crate::faults::{given, unread};
use crate::sheet::Sheet;
use fk_causes::{ReadError, Shelf, ShelfFail, Source, read_all};

/// What the source is called.
pub const SOURCE: &str = "standard input";

/// The bytes of the file with this name and this ending; none where it isn't there or can't be read, which the sheet says then.
pub fn file_of<H: Shelf>(
    sheet: &Sheet,
    shelf: &mut H,
    name: &str,
    ending: &str,
) -> Option<Vec<u8>> {
    let file = Sheet::new(sheet.alloc);
    file.add(name);
    file.add(ending);
    match shelf.get(sheet.taken(file).as_str()) {
        Ok(Some(bytes)) => return Some(bytes),
        Ok(None) => {
            let expected = ": expected a file of this name in the current folder";
            given(sheet, name, ending, 0, 0, expected);
        }
        Err(ShelfFail::Failed) => unread(sheet, name, ending),
        Err(ShelfFail::NoMemory) => sheet.lacks(),
    }
    None
}

/// All of the source; none where it is too long or can't be read, which the sheet says then.
pub fn source_text<R: Source>(sheet: &Sheet, source: &mut R) -> Option<Vec<u8>> {
    match read_all(sheet.alloc, source) {
        Ok(text) => return Some(text),
        Err(ReadError::TooLong) => {
            let expected = ": expected no more than 1048576 bytes";
            given(sheet, SOURCE, "", 0, 0, expected);
        }
        Err(ReadError::ReadFault) => unread(sheet, SOURCE, ""),
        Err(ReadError::NoMemory) => sheet.lacks(),
    }
    None
}
