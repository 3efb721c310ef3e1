//! A shelf in memory, whose chosen calls fail.
ghost use Rattle.std.specs.Prelude.{◌≡◌, ◌≢◌, ◌↔◌, ℕ, List, IsTrue, Contains, Some, Err, OnOk, OnErr, IfOk};
ghost use Rattle.std.specs.Option.{option_map};
ghost use Rattle.std.specs.FinMap as map;
ghost use Rattle.fk_causes.specs.Causes.{counted};
ghost use Rattle.fk_causes.specs.Shelf.{files_of, HasShelfCause, CountsFailure};
ghost use Rattle.fk_causes.specs.declared.shelf.ShelfFail.TheVariants as fails;

use crate::shelf::{Shelf, ShelfFail};
use std::alloc::{AllocError, Global};
use std::collections::BTreeMap;
use std::marker::Model;

/// A shelf in memory. It tells all its files.
#[derive(Drop)]
pub struct MemShelf {
    files: BTreeMap<String, Vec<u8>>,
    calls: u64,
    fails: Vec<u64>,
    failed_gets: u64,
    failed_puts: u64,
}

impl Model for MemShelf {
    ghost use Rattle.std.specs.FinMap.{code};
    ghost use Rattle.std.specs.Coded.{codes};
    ghost use Rattle.fk_causes.specs.Shelf.{ShelfMemory, files_of};

    ghost Value = { ShelfMemory };

    ghost coded = { Prim.hlevel (codes, code) };

    ghost view = { λ s. record {
      files = files_of s.files.entries;
      calls = s.calls;
      fails = s.fails.items;
      failed_gets = s.failed_gets;
      failed_puts = s.failed_puts;
    } };
}

impl MemShelf {
    /// A shelf without files. Its calls, gets and puts together, are counted from 1, and those whose
    /// numbers are among `fails` fail.
    pub fn new(fails: Vec<u64>) -> MemShelf
        ensures { result ≡ record { files = map.empty; calls = 0; fails = fails.items; failed_gets = 0; failed_puts = 0 } }
    {
        MemShelf {
            files: BTreeMap::new(*fails.allocator()),
            calls: 0,
            fails,
            failed_gets: 0,
            failed_puts: 0,
        }
    }

    /// All its files.
    pub fn files(&self) -> &BTreeMap<String, Vec<u8>>
        ensures { files_of result.now.entries ≡ self.now.files }
    {
        &self.files
    }

    /// Counts a call, and answers whether it is one of those that fail.
    fn is_failing(&mut self) -> bool
        ensures calls { self.new ≡ record self.old { calls = counted self.old.calls } }
        ensures fails { IsTrue result ↔ Contains self.old.fails self.new.calls }
    {
        self.calls = self.calls.saturating_add(1);
        self.fails.contains(&self.calls)
    }
}

/// A copy of the bytes under a name.
fn copy_of(
    alloc: Global,
    files: &BTreeMap<String, Vec<u8>>,
    name: &str,
) -> Result<Option<Vec<u8>>, AllocError>
    ensures { IfOk result (λ found. map.get (files_of files.now.entries) name.now
        ≡ option_map (λ bytes. bytes.items) found) }
{
    match files.get(name) {
        Some(bytes) => Ok(Some(Vec::from_slice(alloc, bytes)?)),
        None => Ok(None),
    }
}

/// Puts a copy of some bytes under a name. For want of memory all stays as it was.
fn put_copy(
    alloc: Global,
    files: &mut BTreeMap<String, Vec<u8>>,
    name: &str,
    bytes: &[u8],
) -> Result<(), AllocError>
    ensures stored { OnOk result (map.get (files_of files.new.entries) name.now ≡ Some bytes.now) }
    ensures others { OnOk result ((other : List ℕ) → other ≢ name.now
        → map.get (files_of files.new.entries) other ≡ map.get (files_of files.old.entries) other) }
    ensures err { OnErr result (files.new.entries ≡ files.old.entries) }
{
    let name = String::from_str(alloc, name)?;
    let bytes = Vec::from_slice(alloc, bytes)?;
    files.insert(name, bytes)?;
    Ok(())
}

impl Shelf for MemShelf {
    ghost files = { λ s. Some (λ name. map.get s.files name) };

    ghost failed_gets = { λ s. s.failed_gets };

    ghost failed_puts = { λ s. s.failed_puts };

    fn get(&mut self, name: &str) -> Result<Option<Vec<u8>>, ShelfFail>
        ensures found { IfOk result (λ found. map.get self.old.files name.now
            ≡ option_map (λ bytes. bytes.items) found) }
        ensures cause { HasShelfCause self.old.failed_gets self.new.failed_gets result }
        ensures same_files { self.new.files ≡ self.old.files }
        ensures same_puts { self.new.failed_puts ≡ self.old.failed_puts }

        ensures calls { self.new.calls ≡ counted self.old.calls }
        ensures fails { (result ≡ Err fails.Failed) ↔ Contains self.old.fails self.new.calls }
        ensures same_fails { self.new.fails ≡ self.old.fails }
        ensures gets { CountsFailure self.old.failed_gets self.new.failed_gets result }
    {
        if self.is_failing() {
            self.failed_gets = self.failed_gets.saturating_add(1);
            return Err(ShelfFail::Failed);
        }
        Ok(copy_of(*self.fails.allocator(), &self.files, name)?)
    }

    /// Every error leaves all files as they were.
    fn put(&mut self, name: &str, bytes: &[u8]) -> Result<(), ShelfFail>
        ensures stored { OnOk result (map.get self.new.files name.now ≡ Some bytes.now) }
        ensures others { (other : List ℕ) → other ≢ name.now
            → map.get self.new.files other ≡ map.get self.old.files other }
        ensures cause { HasShelfCause self.old.failed_puts self.new.failed_puts result }
        ensures same_gets { self.new.failed_gets ≡ self.old.failed_gets }

        ensures calls { self.new.calls ≡ counted self.old.calls }
        ensures fails { (result ≡ Err fails.Failed) ↔ Contains self.old.fails self.new.calls }
        ensures same_fails { self.new.fails ≡ self.old.fails }
        ensures same_files { OnErr result (self.new.files ≡ self.old.files) }
        ensures puts { CountsFailure self.old.failed_puts self.new.failed_puts result }
    {
        if self.is_failing() {
            self.failed_puts = self.failed_puts.saturating_add(1);
            return Err(ShelfFail::Failed);
        }
        let alloc = *self.fails.allocator();
        Ok(put_copy(alloc, &mut self.files, name, bytes)?)
    }
}
