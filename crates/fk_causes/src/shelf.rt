//! What a shelf of named files promises.
ghost use Rattle.std.specs.Prelude.{◌≡◌, ℕ, Option, Some, IfOk, OnOk};
ghost use Rattle.std.specs.Option.{option_map};
ghost use Rattle.fk_causes.specs.Shelf.{FileMap, HasAt, KeepsOthers, HasShelfCause};
ghost use Rattle.fk_causes.specs.declared.shelf.ShelfFail.TheVariants as fails;

use std::alloc::{AllocError, AllocFailed};

/// Why a get or a put wasn't done.
#[derive(Clone, Copy)]
pub enum ShelfFail {
    /// The shelf failed. Its count of failed gets or of failed puts rose.
    Failed,
    /// There is no memory for the bytes.
    NoMemory,
}

impl From<AllocError> for ShelfFail {
    ghost from_gives = { λ _ fail. fail ≡ fails.NoMemory };

    fn from(_: AllocError) -> ShelfFail {
        ShelfFail::NoMemory
    }
}

impl<T: Drop> From<AllocFailed<T>> for ShelfFail {
    ghost from_gives = { λ _ fail. fail ≡ fails.NoMemory };

    fn from(_: AllocFailed<T>) -> ShelfFail {
        ShelfFail::NoMemory
    }
}

/// Named files of bytes. It counts failed gets and failed puts apart; the count of its faults is
/// their sum.
pub trait Shelf {
    /// The bytes under each name, where they are told.
    ghost files: { Self → Option FileMap };

    /// How often a get has failed.
    ghost failed_gets: { Self → ℕ };

    /// How often a put has failed.
    ghost failed_puts: { Self → ℕ };

    /// The bytes under a name. Where the files are told, they are those told, and `None` comes
    /// exactly where none are told there. Files and failed puts stay as they were.
    ///
    /// # Errors
    ///
    /// `Failed` only where the count of failed gets rose in this call: any other answer leaves it as it
    /// was. `NoMemory` where there is no memory for the bytes.
    fn get(&mut self, name: &str) -> Result<Option<Vec<u8>>, ShelfFail>
        ensures found { IfOk result (λ found. HasAt (files self.old) name.now
            (option_map (λ bytes. bytes.items) found)) }
        ensures cause { HasShelfCause (failed_gets self.old) (failed_gets self.new) result }
        ensures same_files { files self.new ≡ files self.old }
        ensures same_puts { failed_puts self.new ≡ failed_puts self.old };

    /// Puts bytes under a name, in place of those that were there. All other names and failed gets
    /// stay as they were. After an error nothing is said of what is under this name.
    ///
    /// # Errors
    ///
    /// `Failed` only where the count of failed puts rose in this call: any other answer leaves it as it
    /// was. `NoMemory` where there is no memory for the file.
    fn put(&mut self, name: &str, bytes: &[u8]) -> Result<(), ShelfFail>
        ensures stored { OnOk result (HasAt (files self.new) name.now (Some bytes.now)) }
        ensures others { KeepsOthers (files self.old) (files self.new) name.now }
        ensures cause { HasShelfCause (failed_puts self.old) (failed_puts self.new) result }
        ensures same_gets { failed_gets self.new ≡ failed_gets self.old };
}
