//! Where the words of a space are.
ghost use Rattle.std.specs.Prelude.{◌≡◌, ◌<◌, ◌≤◌, ◌+◌, ℕ, None, true, take, drop, IsSome, slice_set};
ghost use Rattle.fk_model.specs.Reach as definition;
ghost use Rattle.fk_model.specs.Holds as holds;
ghost use Rattle.fk_model.specs.TransferRows.{overwritten};
ghost use Rattle.fk_model.specs.World.{apply};
ghost use Rattle.fk_model.specs.World.Change.{PutPage};
ghost use Rattle.fk_model.specs.Valid.{kind_there};
ghost use Rattle.fk_store.specs.Store.Paths.{path, place};
ghost use Rattle.fk_store.specs.Store.Reaches.{reach_by, covering_mapping, covering_region};
ghost use Rattle.fk_store.specs.Store.Words.{IsReached};
ghost use Rattle.fk_store.specs.Store.World.{world, IsSpace};

use crate::store::{Reach, Store};
use fk_model::Who;
use fk_model::limits::{PAGE_WORDS, SPACE_WORDS};

impl Store {
    /// Where the word at an address of a space is read or written; bad past the last page. A page
    /// that is there answers at once.
    pub fn reach_word(&self, space: u32, address: u64, write: bool) -> Reach
        ensures reach { reach_by (path self.now) result ≡ definition.reach_word (world self.now) (path self.now space) address write }

        // A page that answers is there, and so is a keeper.
        ensures there { IsReached self.now result }
    {
        if address >= SPACE_WORDS {
            return Reach::Bad;
        }
        let page = (address / PAGE_WORDS) as u8;
        if self.pages.at(space, page).is_some() {
            return Reach::Home { space, page };
        }
        self.reach(space, page, write)
    }

    /// No mapping and no region is in the 16 slots of a space from this one on.
    pub fn is_bare(&self, space: u32, slot: u16) -> bool
        requires { slot < 256 }
        ensures bare { result ≡ true → (page k : ℕ) → slot ≤ k → k < slot + 16
            → (covering_mapping (world self.now) (path self.now space) page k ≡ None)
            × (covering_region (world self.now) (path self.now space) page k ≡ None) }
        ensures within { result ≡ true → slot + 16 ≤ 256 }
    {
        if slot % 16 == 0 {
            !self.bodies.may_hold_pages(space, (slot / 16) as u8)
        } else {
            false
        }
    }

    /// Writes a word of a page that is there.
    pub fn put_word(&mut self, space: u32, page: u8, at: u8, word: u64)
        requires space { IsSpace self.old space }
        requires there { IsSome ((world self.old).page (path self.old space) page) }
        requires at { at < 64 }
        ensures world { world self.new ≡ apply
            (PutPage (path self.old space) page (slice_set (definition.words_at (world self.old) (path self.old space) page) at word)) (world self.old) }
        ensures kinds { kind_there (world self.new) ≡ kind_there (world self.old) }
        ensures paths { path self.new ≡ path self.old }
    {
        self.pages.put_word(space, page, at, word);
    }

    /// Words of a page that is there are written over words of another that is there, or of the same, without a page beside them.
    pub fn copy_words(&mut self, from: (u32, u8), at: u8, to: (u32, u8), into: u8, count: u8)
        requires from { IsSome ((world self.old).page (path self.old from.0) from.1) }
        requires space { IsSpace self.old to.0 }
        requires to { IsSome ((world self.old).page (path self.old to.0) to.1) }
        requires at { at + count ≤ 64 }
        requires into { into + count ≤ 64 }
        ensures world { let words = take count (drop at (definition.words_at (world self.old) (path self.old from.0) from.1)) in
            world self.new ≡ apply (PutPage (path self.old to.0) to.1
            (overwritten (definition.words_at (world self.old) (path self.old to.0) to.1) into words)) (world self.old) }
        ensures kinds { kind_there (world self.new) ≡ kind_there (world self.old) }
        ensures paths { path self.new ≡ path self.old }
    {
        self.pages.copy_words(from, at, to, into, count);
    }

    /// A space is held, or one above it, and somebody else than this thread decides there.
    pub fn space_frozen_for(&self, me: Who, space: u32) -> bool
        ensures { result ≡ holds.is_frozen_for (world self.now) (place (path self.now) me) (path self.now space) }
    {
        match self.bodies.home(space) {
            None => false,
            Some(who) => self.frozen_for(me, who),
        }
    }
}
