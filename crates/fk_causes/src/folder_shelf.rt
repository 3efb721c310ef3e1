//! The files of the current folder as a shelf. This is the trusted edge.
ghost use Rattle.std.specs.Prelude.{◌≡◌, ◌↔◌, ◌<◌, ◌≤◌, IsTrue, None, Some, Err, IfOk, OnOk, IfSome, length, vec_len};
ghost use Rattle.std.specs.Option.{option_map};
ghost use Rattle.fk_causes.specs.Shelf.{HasAt, HasShelfCause, CountsFailure};
ghost use Rattle.fk_causes.specs.declared.shelf.ShelfFail.TheVariants as fails;

use crate::shelf::{Shelf, ShelfFail};
use std::fs::{File, OpenFile};
use std::io::{ErrorKind, Read, Write};
use std::rt::Files;
use std::{fs, io};

/// The most bytes of a file: 1 GiB.
pub const FILE_LIMIT: u64 = 1 << 30;

/// The files of the current folder. It tells nothing of what they hold. A file that is missing is
/// none; one of more than `FILE_LIMIT` bytes counts as a fault, when it is read and when it is put,
/// and what is no file, as a pipe or a device, when it is read: it isn't waited for.
///
/// A put writes a new file, under the first name of `NAME.0.new`, `NAME.1.new` and so on that no file
/// has, and has it take the place of `NAME` once it is whole. So a put that fails leaves what was under
/// `NAME`, or all of its bytes, and so does one that is cut off; that one may leave its new file too,
/// which no other put touches. Several at once, of one process or more, each put a whole file.
#[derive(Drop)]
pub struct FolderShelf<'a, R> {
    rt: &'a R,
    failed_gets: u64,
    failed_puts: u64,
}

impl<'a, R: Files + AllocGlobal> FolderShelf<'a, R> {
    /// A shelf over the current folder of this runtime. None of its calls has failed yet.
    pub fn new(rt: &'a R) -> FolderShelf<'a, R>
        ensures files { ⟦<FolderShelf<'a, R> as Shelf>⟧.files result ≡ None }
        ensures gets { ⟦<FolderShelf<'a, R> as Shelf>⟧.failed_gets result ≡ 0 }
        ensures puts { ⟦<FolderShelf<'a, R> as Shelf>⟧.failed_puts result ≡ 0 }
    {
        FolderShelf {
            rt,
            failed_gets: 0,
            failed_puts: 0,
        }
    }
}

/// The bytes of a file, or none of a file of more than `FILE_LIMIT` bytes, and of what is no file.
fn read_file<R: Files + AllocGlobal>(rt: &R, name: &str) -> io::Result<Option<Vec<u8>>>
    ensures short { IfOk result (λ found. IfSome found (λ bytes. vec_len bytes ≤ FILE_LIMIT)) }
{
    // A pipe isn't opened: that would wait for somebody who writes into it.
    if !fs::metadata(rt, name)?.is_file() {
        return Ok(None);
    }
    let file = fs::open(rt, name)?;
    if file.metadata()?.len() > FILE_LIMIT {
        return Ok(None);
    }
    let mut bytes = Vec::new(rt.alloc());
    file.take(FILE_LIMIT + 1).read_to_end(&mut bytes)?;
    // The length may have risen meanwhile, or isn't told.
    if is_long(&bytes) {
        Ok(None)
    } else {
        Ok(Some(bytes))
    }
}

/// A new file beside the one of a name, and its own name, which no other file has.
fn new_beside<R: Files + AllocGlobal>(rt: &R, name: &str) -> io::Result<(String, R::File)> {
    for number in 0..u32::MAX {
        let beside = format!(in rt.alloc(); "{name}.{number}.new")?;
        match File::create_new(rt, beside.as_str()) {
            Ok(file) => return Ok((beside, file)),
            Err(error) if error.kind() == ErrorKind::AlreadyExists => {}
            Err(error) => return Err(error),
        }
    }
    Err(io::Error::from(ErrorKind::AlreadyExists))
}

/// Writes bytes into a file and onto its disk.
fn fill_file<F: Write + OpenFile>(file: &mut F, bytes: &[u8]) -> io::Result<()> {
    file.write_all(bytes)?;
    file.sync_all()
}

/// Has the names of the folder last, where it can be opened and its file system can do that.
fn sync_folder<R: Files>(rt: &R) -> io::Result<()> {
    let Ok(folder) = fs::open(rt, ".") else {
        return Ok(());
    };
    match folder.sync_all() {
        Err(error) if error.kind() == ErrorKind::InvalidInput => Ok(()),
        Err(error) if error.kind() == ErrorKind::Unsupported => Ok(()),
        synced => synced,
    }
}

/// Has the file of this name hold these bytes. They are written beside it first, so that it holds what it did until all of them are
/// there.
fn replace_file<R: Files + AllocGlobal>(rt: &R, name: &str, bytes: &[u8]) -> io::Result<()> {
    let (beside, mut file) = new_beside(rt, name)?;
    let put = match fill_file(&mut file, bytes) {
        Ok(()) => fs::rename(rt, beside.as_str(), name),
        Err(error) => Err(error),
    };
    match put {
        Ok(()) => sync_folder(rt),
        Err(error) => {
            // What failed is told; that this fails too says nothing more.
            let _ = fs::remove_file(rt, beside.as_str());
            Err(error)
        }
    }
}

fn is_long(bytes: &[u8]) -> bool
    ensures { IsTrue result ↔ (FILE_LIMIT < length bytes.now) }
{
    bytes.len() as u64 > FILE_LIMIT
}

impl<R: Files + AllocGlobal> Shelf for FolderShelf<'_, R> {
    ghost files = { λ _. None };

    ghost failed_gets = { λ s. s.failed_gets };

    ghost failed_puts = { λ s. s.failed_puts };

    fn get(&mut self, name: &str) -> Result<Option<Vec<u8>>, ShelfFail>
        ensures found { IfOk result (λ found. HasAt None name.now (option_map (λ bytes. bytes.items) found)) }
        ensures cause { HasShelfCause self.old.failed_gets self.new.failed_gets result }
        ensures same_puts { self.new.failed_puts ≡ self.old.failed_puts }

        ensures gets { CountsFailure self.old.failed_gets self.new.failed_gets result }
        ensures short { IfOk result (λ found. IfSome found (λ bytes. vec_len bytes ≤ FILE_LIMIT)) }
    {
        match read_file(self.rt, name) {
            Ok(Some(bytes)) => Ok(Some(bytes)),
            Err(error) if error.kind() == ErrorKind::NotFound => Ok(None),
            Err(error) if error.kind() == ErrorKind::OutOfMemory => Err(ShelfFail::NoMemory),
            _ => {
                self.failed_gets = self.failed_gets.saturating_add(1);
                Err(ShelfFail::Failed)
            }
        }
    }

    fn put(&mut self, name: &str, bytes: &[u8]) -> Result<(), ShelfFail>
        ensures stored { OnOk result (HasAt None name.now (Some bytes.now)) }
        ensures cause { HasShelfCause self.old.failed_puts self.new.failed_puts result }
        ensures same_gets { self.new.failed_gets ≡ self.old.failed_gets }

        ensures puts { CountsFailure self.old.failed_puts self.new.failed_puts result }
        ensures long { FILE_LIMIT < length bytes.now → result ≡ Err fails.Failed }
    {
        if !is_long(bytes) {
            match replace_file(self.rt, name, bytes) {
                Ok(()) => return Ok(()),
                Err(error) if error.kind() == ErrorKind::OutOfMemory => {
                    return Err(ShelfFail::NoMemory);
                }
                Err(_) => {}
            }
        }
        self.failed_puts = self.failed_puts.saturating_add(1);
        Err(ShelfFail::Failed)
    }
}
