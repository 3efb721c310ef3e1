//! The pages of all spaces.
ghost use Rattle.std.specs.Prelude.{◌≡◌, ℕ, ◌+◌, ◌<◌, ◌≤◌, ◌==◌, if◌then◌else◌, None, [], take, drop, unwrap_or, slice_set, OnOk, OnErr, IsSome, IsOk, IfOk};
ghost use Rattle.std.specs.Option.{option_copied};
ghost use Rattle.std.specs.FinMap as map;
ghost use Rattle.fk_model.specs.TransferRows.{overwritten};
ghost use Rattle.fk_store_graph.specs.Linked.Births.{is_number};
ghost use Rattle.fk_store_graph.specs.Linked.Cells.{cell};

use fk_model::NoMemory;
use fk_store_cells::slots::{Row, clear_row, lay_value, put_value, take_value, value_at};
use std::alloc::{AllocError, Global};
use std::marker::Model;

/// The words of a page.
#[derive(Drop)]
pub struct Page {
    words: Box<[u64; 64]>,
}

impl Model for Page {
    ghost use Rattle.std.specs.Prelude.{List, ℕ};

    ghost Value = { List ℕ };

    ghost view = { λ p. p.words.value };
}

impl Page {
    /// A page of these words.
    ///
    /// # Errors
    ///
    /// There is no memory for the page.
    pub fn of(alloc: Global, words: &[u64; 64]) -> Result<Page, AllocError>
        ensures { IfOk result (λ page. page ≡ words.now) }
    {
        let words = Box::new(alloc, *words)?;
        Ok(Page { words })
    }

    /// Its words.
    #[inline]
    pub fn words(&self) -> &[u64; 64]
        ensures { result.now ≡ self.now }
    {
        &self.words
    }

    /// Writes over all of it.
    pub fn write(&mut self, words: &[u64; 64])
        ensures { self.new ≡ words.now }
    {
        *self.words = *words;
    }

    /// Writes over one word.
    pub fn put(&mut self, at: u8, word: u64)
        requires { at < 64 }
        ensures { self.new ≡ slice_set self.old at word }
    {
        self.words[at as usize] = word;
    }

    /// Words of another page are written over its own, from a place on.
    pub fn overwrite(&mut self, from: &[u64; 64], at: u8, into: u8, count: u8)
        requires at { at + count ≤ 64 }
        requires into { into + count ≤ 64 }
        ensures { self.new ≡ overwritten self.old into (take count (drop at from.now)) }
    {
        let at = at as usize;
        let into = into as usize;
        let count = count as usize;
        self.words[into..into + count].copy_from_slice(&from[at..at + count]);
    }
}

/// Words of the page that these rows have under a name, else its own, are written over a page that was taken out of them.
fn overwrite_of(
    page: &mut Page,
    rows: &Vec<Row<Page>>,
    from: (u32, u8),
    at: u8,
    into: u8,
    count: u8,
)
    requires at { at + count ≤ 64 }
    requires into { into + count ≤ 64 }
    ensures { page.new ≡ overwritten page.old into (take count (drop at (unwrap_or (cell rows.now.items from.0 from.1) page.old))) }
{
    match value_at(rows, from.0, from.1) {
        Some(other) => page.overwrite(other.words(), at, into, count),
        None => {
            let own = *page.words();
            page.overwrite(&own, at, into, count);
        }
    }
}

/// The pages of all spaces, by the birth number of the space and the number of the page.
#[derive(Drop)]
pub struct Pages {
    rows: Vec<Row<Page>>,
}

impl Model for Pages {
    ghost use Rattle.std.specs.Prelude.{List, ℕ};
    ghost use Rattle.std.specs.Coded.{coded×, coded_list, coded_ℕ};
    ghost use Rattle.std.specs.FinMap.{FinMap};
    ghost use Rattle.std.specs.FinMap as finmap;
    ghost use Rattle.fk_store_graph.specs.Linked.Tabled.{map_of_rows};
    ghost use Rattle.fk_store_graph.specs.Linked.Names.{page_cmp, page_at};

    ghost Value = { FinMap page_cmp (List ℕ) };

    ghost coded = { finmap.code (coded× coded_ℕ coded_ℕ) (coded_list coded_ℕ) };

    ghost view = { λ s. map_of_rows page_cmp page_at s.rows.items };
}

impl Pages {
    /// No pages.
    pub fn new(alloc: Global) -> Pages
        ensures { result ≡ map.empty }
    {
        Pages {
            rows: Vec::new(alloc),
        }
    }

    /// The words of a page.
    #[inline]
    pub fn at(&self, space: u32, page: u8) -> Option<&[u64; 64]>
        ensures { option_copied result ≡ map.get self.now (space, page) }
    {
        match value_at(&self.rows, space, page) {
            Some(page) => Some(page.words()),
            None => None,
        }
    }

    /// Makes a page, or writes over the one that is there.
    ///
    /// # Errors
    ///
    /// There is no memory for the page; all is as before then.
    pub fn put(&mut self, space: u32, page: u8, words: &[u64; 64]) -> Result<(), NoMemory>
        ensures ok { OnOk result (self.new ≡ map.insert self.old (space, page) words.now) }
        ensures err { OnErr result (self.new ≡ self.old) }
        ensures there { IsSome (map.get self.old (space, page)) → IsOk result }
    {
        match take_value(&mut self.rows, space, page) {
            Some(mut there) => {
                there.write(words);
                lay_value(&mut self.rows, space, page, there);
                Ok(())
            }
            None => {
                let new = Page::of(*self.rows.allocator(), words)?;
                Ok(put_value(&mut self.rows, space, page, new)?)
            }
        }
    }

    /// Writes over one word of a page that is there.
    pub fn put_word(&mut self, space: u32, page: u8, at: u8, word: u64)
        requires there { IsSome (map.get self.old (space, page)) }
        requires at { at < 64 }
        ensures { self.new ≡ map.insert self.old (space, page) (slice_set (unwrap_or (map.get self.old (space, page)) []) at word) }
    {
        if let Some(mut there) = take_value(&mut self.rows, space, page) {
            there.put(at, word);
            lay_value(&mut self.rows, space, page, there);
        }
    }

    /// Words of a page that is there are written over words of another that is there, or of the same, without a page beside them.
    pub fn copy_words(&mut self, from: (u32, u8), at: u8, to: (u32, u8), into: u8, count: u8)
        requires from { IsSome (map.get self.old (from.0, from.1)) }
        requires to { IsSome (map.get self.old (to.0, to.1)) }
        requires at { at + count ≤ 64 }
        requires into { into + count ≤ 64 }
        ensures { self.new ≡ map.insert self.old (to.0, to.1) (overwritten (unwrap_or (map.get self.old (to.0, to.1)) []) into
            (take count (drop at (unwrap_or (map.get self.old (from.0, from.1)) [])))) }
    {
        if let Some(mut there) = take_value(&mut self.rows, to.0, to.1) {
            overwrite_of(&mut there, &self.rows, from, at, into, count);
            lay_value(&mut self.rows, to.0, to.1, there);
        }
    }

    /// Takes a page away.
    pub fn remove(&mut self, space: u32, page: u8)
        ensures { self.new ≡ map.remove self.old (space, page) }
    {
        let _gone = take_value(&mut self.rows, space, page);
    }

    /// Takes all pages of a space away, if there is one.
    pub fn remove_all(&mut self, space: Option<u32>)
        ensures { (n g : ℕ) → map.get self.new (n, g) ≡ if is_number n space then None else map.get self.old (n, g) }
    {
        if let Some(space) = space {
            clear_row(&mut self.rows, space);
        }
    }
}
