//! Where the words of a new page come from.
ghost use Rattle.std.specs.Prelude.{◌≡◌, ℕ, List, Some, IsSome, OnOk, OnErr, length};
ghost use Rattle.fk_model.specs.World.{apply};
ghost use Rattle.fk_model.specs.World.Change.{PutPage};
ghost use Rattle.fk_model.specs.Valid.{kind_there};
ghost use Rattle.fk_store.specs.Store.Paths.{path};
ghost use Rattle.fk_store.specs.Store.World.{world, IsSpace};
ghost use Rattle.fk_plans.specs.Plans.Sources.{source_words, IsSource};

use fk_model::NoMemory;
use fk_store::Store;

/// Where the words of a new page come from.
#[derive(Clone, Copy)]
pub enum Source {
    Zeros,
    /// A page of a space.
    Page(u32, u8),
    /// The porter that makes the stage.
    Given,
}

/// The words that a page gets, where a porter gives these.
fn words_of(store: &Store, given: &[u64], source: Source) -> [u64; 64]
    requires there { IsSource (path store.now) (world store.now) source }
    requires given { source ≡ Source.Given → length given.now ≡ 64 }
    ensures { result ≡ source_words (path store.now) given.now source (world store.now) }
{
    match source {
        Source::Zeros => [0; 64],
        Source::Page(space, page) => match store.page(space, page) {
            Some(words) => *words,
            None => unreachable!(),
        },
        Source::Given => {
            let mut words = [0; 64];
            words.copy_from_slice(given);
            words
        }
    }
}

/// Gives a space a page. For want of memory all stays as it was.
///
/// # Errors
///
/// There is no memory for the page; the store is as before then.
pub fn give(
    store: &mut Store,
    given: &[u64],
    space: u32,
    page: u8,
    source: Source,
) -> Result<(), NoMemory>
    requires space { IsSpace store.old space }
    requires there { IsSource (path store.old) (world store.old) source }
    requires given { source ≡ Source.Given → length given.now ≡ 64 }
    ensures world { let words = source_words (path store.old) given.now source (world store.old) in
        OnOk result (world store.new ≡ apply (PutPage (path store.old space) page words) (world store.old)) }
    ensures err { OnErr result (store.new ≡ store.old) }
    ensures paths { path store.new ≡ path store.old }
{
    let words = words_of(store, given, source);
    store.put_page(space, page, &words)
}
