//! The pages with which a space begins.
ghost use Rattle.std.specs.Prelude.{◌≡◌, ◌≤◌, length, OnOk};
ghost use Rattle.fk_model.specs.World.{apply_all};
ghost use Rattle.fk_store.specs.Store.Paths.{path};
ghost use Rattle.fk_store.specs.Store.World.{world, IsSpace};
ghost use Rattle.fk_boot.specs.FirstWorld as definitions;

use fk_model::NoMemory;
use fk_model::limits::{PAGE_WORDS, PAGES};
use fk_scenario::entries::Program;
use fk_store::Store;

/// The words of the program with an index; none without an index.
pub fn words_of_program(programs: &[Program], index: Option<u32>) -> &[u64]
    ensures { result.now ≡ definitions.words_of_program programs.now index }
{
    let Some(index) = index else {
        return &[];
    };
    match programs.get(index as usize) {
        Some(program) => program.words.as_slice(),
        None => &[],
    }
}

/// A page with these words, at most 64, and zeros after them.
fn page_of(words: &[u64]) -> [u64; 64]
    requires { length words.now ≤ 64 }
    ensures { result ≡ definitions.page_words words.now }
{
    let mut page = [0; 64];
    page[..words.len()].copy_from_slice(words);
    page
}

/// Puts pages of zeros into a space.
///
/// # Errors
///
/// There is no memory for the pages.
pub fn put_zeros(store: &mut Store, space: u32, pages: &[u8]) -> Result<(), NoMemory>
    requires { IsSpace store.old space }
    ensures world { OnOk result (world store.new ≡ apply_all (definitions.zero_pages (path store.old space) pages.now) (world store.old)) }
    ensures path { OnOk result (path store.new ≡ path store.old) }
    ensures space { OnOk result (IsSpace store.new space) }
{
    for page in pages {
        store.put_page(space, *page, &[0; 64])?;
    }
    Ok(())
}

/// Puts the part of a program that stands in a page there.
fn put_part(store: &mut Store, space: u32, words: &[u64], page: u8) -> Result<(), NoMemory>
    requires { IsSpace store.old space }
    ensures world { OnOk result (world store.new ≡ apply_all (definitions.program_page (path store.old space) words.now page) (world store.old)) }
    ensures path { OnOk result (path store.new ≡ path store.old) }
    ensures space { OnOk result (IsSpace store.new space) }
{
    let start = page as usize * 64;
    if words.len() <= start {
        return Ok(());
    }
    let rest = &words[start..];
    let part = &rest[..rest.len().min(64)];
    store.put_page(space, page, &page_of(part))
}

/// Puts a program into a space, from address 0 on.
///
/// # Errors
///
/// There is no memory for the pages.
pub fn put_program(store: &mut Store, space: u32, words: &[u64]) -> Result<(), NoMemory>
    requires { IsSpace store.old space }
    ensures { OnOk result (world store.new ≡ apply_all (definitions.program_pages (path store.old space) words.now) (world store.old)) }
{
    for page in 0..PAGES {
        put_part(store, space, words, page as u8)?;
    }
    Ok(())
}
