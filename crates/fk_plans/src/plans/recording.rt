//! Records of objects that are shown and set.
ghost use Rattle.std.specs.Prelude.{◌≡◌, ◌+◌, ◌≤◌, ℕ, IsSome, length, take, drop};
ghost use Rattle.fk_model.specs.Outcomes.Said.{Answered};
ghost use Rattle.fk_model.specs.Places.{Path};
ghost use Rattle.fk_model.specs.Reach.{words_at};
ghost use Rattle.fk_model.specs.TransferRows.{overwritten};
ghost use Rattle.fk_model.specs.Valid.{kind_there};
ghost use Rattle.fk_model.specs.World.{apply, apply_all};
ghost use Rattle.fk_model.specs.World.Change.{PutPage};
ghost use Rattle.fk_model.specs.declared.statuses.status.TheConstants.{OK as DONE};
ghost use Rattle.fk_changes.specs.Records.Settings.{record_there, sets_at};
ghost use Rattle.fk_store.specs.Store.Moves.{said_by};
ghost use Rattle.fk_store.specs.Store.Paths.{path, place};
ghost use Rattle.fk_store.specs.Store.World.{world, IsSpace};
ghost use Rattle.fk_plans.specs.Plans.Hearers.{IsPadded};
ghost use Rattle.fk_plans.specs.Plans.Recordings.{record_words, IsRecord};

use fk_changes::records::{record_of, set_state};
use fk_model::status::OK;
use fk_model::{Answer, Said, Who};
use fk_store::Store;

/// Where the words of a record stand that is set.
#[derive(Clone, Copy)]
pub enum Record {
    /// In a page, from a word on.
    Page { space: u32, page: u8, at: u8 },
    /// The porter that makes the stage gives them.
    Given,
}

/// The record of an object; 0 throughout where nothing is there.
#[inline(always)]
pub fn record_at(store: &Store, object: Who) -> [u64; 32]
    ensures { result ≡ record_there ((world store.now).body (place (path store.now) object)) }
{
    match store.at(object) {
        Some(body) => record_of(body),
        None => [0; 32],
    }
}

/// A record is written into a page.
#[inline(always)]
fn lay(page: &mut [u64; 64], words: &[u64; 32], at: u8)
    requires at { at + 32 ≤ 64 }
    ensures { page.new ≡ overwritten page.old at words.now }
{
    let at = at as usize;
    page[at..at + 32].copy_from_slice(words);
}

/// The record of an object goes to a page that is there.
pub fn write_record(store: &mut Store, object: Who, to: (u32, u8), at: u8)
    requires at { at + 32 ≤ 64 }
    requires space { IsSpace store.old to.0 }
    requires page { IsSome ((world store.old).page (path store.old to.0) to.1) }
    ensures world { let w = world store.old in
        let words = record_there (w.body (place (path store.old) object)) in
        world store.new ≡ apply (PutPage (path store.old to.0) to.1 (overwritten (words_at w (path store.old to.0) to.1) at words)) w }
    ensures kinds { kind_there (world store.new) ≡ kind_there (world store.old) }
    ensures paths { path store.new ≡ path store.old }
{
    let record = record_at(store, object);
    let Some(page) = store.page(to.0, to.1) else {
        unreachable!()
    };
    let mut words = *page;
    lay(&mut words, &record, at);
    match store.put_page(to.0, to.1, &words) {
        Ok(()) => {}
        Err(_) => unreachable!(),
    }
}

/// That it is done, and a record.
fn told_words(shown: [u64; 32]) -> Said
    ensures said { (p : ℕ → Path) → said_by p result ≡ Answered DONE shown }
    ensures padded { IsPadded result }
{
    let mut words = [0; 64];
    words[..32].copy_from_slice(&shown);
    Said::Answer(Answer {
        status: OK,
        words,
        len: 32,
    })
}

/// That it is done, and the record of an object.
pub fn told_record(store: &Store, object: Who) -> Said
    ensures said { (p : ℕ → Path) → said_by p result ≡ Answered DONE (record_there ((world store.now).body (place (path store.now) object))) }
    ensures padded { IsPadded result }
{
    told_words(record_at(store, object))
}

/// The words of a record in a page.
fn words_in(store: &Store, space: u32, page: u8, at: u8) -> [u64; 32]
    requires at { at + 32 ≤ 64 }
    requires page { IsSome ((world store.now).page (path store.now space) page) }
    ensures { result ≡ take 32 (drop at (words_at (world store.now) (path store.now space) page)) }
{
    let Some(page) = store.page(space, page) else {
        unreachable!()
    };
    let at = at as usize;
    let mut words = [0; 32];
    words.copy_from_slice(&page[at..at + 32]);
    words
}

/// Makes of an object what a record says, where it takes the record. Else all stays as it is.
pub fn set_record(store: &mut Store, given: &[u64], object: Who, from: Record)
    requires fits { IsRecord (path store.old) (world store.old) from }
    requires given { from ≡ Record.Given → length given.now ≡ 64 }
    ensures world { let words = record_words (path store.old) given.now from (world store.old) in
        world store.new ≡ apply_all (sets_at (world store.old) (path store.old object.space) (place (path store.old) object) words) (world store.old) }
    ensures kinds { kind_there (world store.new) ≡ kind_there (world store.old) }
    ensures paths { path store.new ≡ path store.old }
{
    match from {
        Record::Page { space, page, at } => {
            let words = words_in(store, space, page, at);
            set_state(store, object, &words);
        }
        Record::Given => set_state(store, object, given),
    }
}
