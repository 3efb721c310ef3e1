//! The words of records and pages, and the numbers that fields of an image hold.
ghost use Rattle.std.specs.Prelude.{◌≡◌, ◌≤◌, length, take};
ghost use Rattle.fk_model.specs.Records.{padded, word, record_registers};
ghost use Rattle.laws_checkpoint.specs.Narrow as narrow;
ghost use Rattle.fk_checkpoint.specs.Gathering.Gathering.{item_of};

use crate::gathering::Item;

/// A number that a field of 8 bits holds.
pub fn byte(n: u64) -> u8
    ensures { result ≡ narrow.byte n }
{
    if n < 256 { n as u8 } else { 0 }
}

/// A number that a field of 16 bits holds.
pub fn half(n: u64) -> u16
    ensures { result ≡ narrow.half n }
{
    if n < 65536 { n as u16 } else { 0 }
}

/// A number that a field of 32 bits holds.
pub fn number(n: usize) -> u32
    ensures { result ≡ narrow.number n }
{
    if n < 4294967296 { n as u32 } else { 0 }
}

/// The words that were answered.
#[tactic(auto, using(crate::proofs::InSeeking::Ways::take_min))]
fn words_of(item: &Item) -> &[u64]
    ensures words { result.now ≡ (item_of item.now).words }
    ensures few { length result.now ≤ 64 }
{
    &item.words[..usize::from(item.len).min(64)]
}

/// A word of a record; 0 where it has none.
pub fn word(item: &Item, at: usize) -> u64
    ensures { result ≡ word (item_of item.now).words at }
{
    match words_of(item).get(at) {
        Some(word) => *word,
        None => 0,
    }
}

/// The first 16 of these words, with zeros behind them.
fn sixteen(words: &[u64]) -> [u64; 16]
    ensures { result ≡ padded 16 (take 16 words.now) }
{
    let count = words.len().min(16);
    let mut all = [0; 16];
    all[..count].copy_from_slice(&words[..count]);
    all
}

/// The registers in the record of a thread.
pub fn registers(item: &Item) -> [u64; 16]
    ensures { result ≡ padded 16 (record_registers (item_of item.now).words) }
{
    let words = words_of(item);
    sixteen(&words[words.len().min(1)..])
}

/// The first 64 of these words, with zeros behind them. It stands apart, since it takes room that is cleared at entry.
#[inline(never)]
fn sixty_four(words: &[u64]) -> [u64; 64]
    ensures { result ≡ padded 64 (take 64 words.now) }
{
    let count = words.len().min(64);
    let mut all = [0; 64];
    all[..count].copy_from_slice(&words[..count]);
    all
}

/// The words of a page. A whole one has them as they were read.
#[tactic(auto, using(crate::proofs::InAssembly::Loops::all_taken, crate::proofs::InAssembly::Loops::whole_page))]
#[inline(always)]
pub fn page_words(item: &Item) -> [u64; 64]
    ensures { result ≡ padded 64 (item_of item.now).words }
{
    if item.len == 64 {
        return item.words;
    }
    sixty_four(words_of(item))
}
