//! The reading of spaces, one after the other.
ghost use Rattle.std.specs.Prelude.{◌≡◌, ◌++◌, ◌∷◌, [], ◌<◌, drop, map, vec_len, vec_capacity, OnOk};
ghost use Rattle.laws_jobs.specs.Machines.{no_words};
ghost use Rattle.laws_jobs.specs.Machines.Head.{Asks};
ghost use Rattle.laws_checkpoint.specs.Contents as reads;
ghost use Rattle.fk_checkpoint.specs.Seeking.Seeking.{answered, up};
ghost use Rattle.fk_checkpoint.specs.Gathering.Gathering.{read_of, was_read, HasRoom, HasRoomForContent, item_of, items_of, contents_of, paths_left};

use crate::gathering::content::{Content, Item};
use crate::seeking::{space_of, way, words_of};
use fk_model::kind::SPACE;
use fk_model::limits::{PAGES, SLOTS};
use fk_model::status::OK;
use fk_model::{Answer, List, NoMemory, Stage};
use std::alloc::Global;
use std::mem;

/// What a reader does next.
#[derive(Clone, Copy)]
pub enum Reading {
    /// It goes down to its space, and has made so many steps.
    Down { gone: usize },
    /// It searches for an object from a slot on.
    Searches { from: u64 },
    /// It reads the record of the object in a slot.
    Record { slot: u8 },
    /// It looks for a page from a number on.
    Looks { from: u64 },
    /// It reads a page.
    Copies { page: u8 },
}

/// A reader at a space.
#[derive(Drop)]
pub struct Read {
    step: Reading,
    /// The slots from the subtree's root down to the space.
    path: List<u8>,
    /// The spaces that are left, the next one last.
    left: Vec<List<u8>>,
    objects: Vec<Item>,
    pages: Vec<Item>,
    contents: Vec<Content>,
    /// So many objects were met in the subtree.
    most: usize,
}

/// What an answer tells of an object or a page.
#[inline(always)]
fn item(number: u8, answer: &Answer) -> Item
    ensures { item_of result ≡ record { number = number; words = answered answer.now } }
{
    Item {
        number,
        len: answer.len,
        words: answer.words,
    }
}

/// Makes room for one item, by so many places where there is none. A list that grows is copied, which costs most: so there is room for as many
/// objects as were met, though for no more than a space has slots, and for pages as the calls made so far allow, which are two for each.
fn make_room(items: &mut Vec<Item>, more: usize) -> Result<(), NoMemory>
    requires { 0 < more }
    ensures items { items.new.items ≡ items.old.items }
    ensures room { OnOk result (vec_len items.new < vec_capacity items.new) }
{
    if items.len() < items.capacity() {
        return Ok(());
    }
    items.reserve(more)?;
    Ok(())
}

/// Items that take no more room than they need.
fn cut(mut items: Vec<Item>) -> List<Item>
    ensures { result ≡ items.items }
{
    items.shrink_to_fit();
    List::of(items)
}

impl Read {
    /// A reader that begins at the root, and goes on with these spaces, the next one last. So many objects were met in the subtree, for which it
    /// makes room.
    pub fn new(alloc: Global, left: Vec<List<u8>>, most: usize) -> Read
        ensures { (slot : _) → read_of slot result ≡ reads.begin slot ([] ∷ paths_left left.items) [] }
    {
        Read {
            step: Reading::Searches { from: 0 },
            path: List::new(alloc),
            left,
            objects: Vec::new(alloc),
            pages: Vec::new(alloc),
            contents: Vec::new(alloc),
            most,
        }
    }

    /// The next call of a reader in the subtree in a slot.
    pub fn next(&self, slot: u8) -> Stage
        ensures { reads.head slot (read_of slot self.now) ≡ Asks result no_words }
    {
        let place = self.path.as_slice();
        let s = space_of(slot, place);
        match self.step {
            Reading::Down { gone } => way(slot, place, gone),
            Reading::Searches { from } => Stage::Search { s, from },
            Reading::Record { slot } => Stage::GetState {
                s,
                x: u64::from(slot),
                addr: 0,
            },
            Reading::Looks { from } => Stage::PageNext { s, from },
            Reading::Copies { page } => Stage::PageRead {
                s,
                page: u64::from(page),
                addr: 0,
            },
        }
    }

    /// What was read.
    pub fn into_contents(self) -> Vec<Content>
        ensures { result.items ≡ self.contents.items }
    {
        self.contents
    }

    /// Makes room for one answer, and changes nothing else.
    ///
    /// # Errors
    ///
    /// There is no memory for one answer.
    pub fn reserve(&mut self) -> Result<(), NoMemory>
        ensures same { (slot : _) → read_of slot self.new ≡ read_of slot self.old }
        ensures room { OnOk result (HasRoom self.new) }
    {
        match self.step {
            Reading::Record { .. } => {
                let more = self.most.min(SLOTS as usize).max(1);
                make_room(&mut self.objects, more)?;
            }
            Reading::Looks { .. } => self.contents.reserve(1)?,
            Reading::Copies { .. } => {
                let more = self.objects.len().min(256) + self.pages.len().min(256) + 1;
                make_room(&mut self.pages, more)?;
            }
            Reading::Down { .. } | Reading::Searches { .. } => {}
        }
        Ok(())
    }

    /// Goes a step down, or has come to its space.
    #[tactic(auto, using(crate::proofs::InSeeking::Ways::next_way, crate::proofs::InSeeking::Ways::no_more))]
    fn go_down(&mut self, gone: usize)
        ensures { (slot : _) → read_of slot self.new
            ≡ reads.arrive (drop gone self.old.path) (up self.old.path) (paths_left self.old.left.items) (contents_of self.old.contents.items) }
    {
        if gone < self.path.len() {
            self.step = Reading::Down { gone: gone + 1 };
        } else {
            self.objects.clear();
            self.step = Reading::Searches { from: 0 };
        }
    }

    /// What a search was answered: a space is passed by, any other object is read; behind the last one come the pages.
    fn find(&mut self, from: u64, status: u8, words: &[u64])
        ensures { (slot : _) → read_of slot self.new ≡ reads.searched from (items_of self.old.objects.items) (up self.old.path)
            (paths_left self.old.left.items) (contents_of self.old.contents.items) status words.now }
    {
        match words {
            [slot, kind, ..] if status == OK && from <= *slot && *slot < SLOTS => {
                self.step = if *kind == SPACE {
                    Reading::Searches { from: *slot + 1 }
                } else {
                    Reading::Record { slot: *slot as u8 }
                };
            }
            _ => {
                self.pages.clear();
                self.step = Reading::Looks { from: 0 };
            }
        }
    }

    /// Goes to the next space; or it is over.
    #[tactic(auto, using(crate::proofs::InGathering::Lefts::begins_below, crate::proofs::InGathering::Lefts::begins_root))]
    fn go_on(&mut self) -> bool
        requires { self.old.objects.items ≡ [] }
        ensures { (slot : _) → was_read result slot self.new ≡ reads.begin slot (paths_left self.old.left.items) (contents_of self.old.contents.items) }
    {
        let Some(path) = self.left.pop() else {
            return true;
        };
        if path.len() == 0 {
            self.path = path;
            self.step = Reading::Searches { from: 0 };
            return false;
        }
        self.path = path;
        self.step = Reading::Down { gone: 0 };
        false
    }

    /// The space is read. It stands apart, since it takes room that is cleared at entry.
    #[inline(never)]
    fn leave(&mut self) -> bool
        requires { HasRoomForContent self.old }
        ensures { (slot : _) → was_read result slot self.new ≡ reads.begin slot (paths_left self.old.left.items)
            (contents_of self.old.contents.items
            ++ record { path = up self.old.path; objects = items_of self.old.objects.items; pages = items_of self.old.pages.items } ∷ []) }
    {
        let alloc = *self.contents.allocator();
        let path = mem::replace(&mut self.path, List::new(alloc));
        let objects = mem::replace(&mut self.objects, Vec::new(alloc));
        let pages = mem::replace(&mut self.pages, Vec::new(alloc));
        self.contents.push_reserved(Content {
            path,
            objects: cut(objects),
            pages: cut(pages),
        });
        self.go_on()
    }

    /// What a look for a page was answered. It answers whether it is over.
    fn look(&mut self, from: u64, status: u8, words: &[u64]) -> bool
        requires { HasRoomForContent self.old }
        ensures { (slot : _) → was_read result slot self.new
            ≡ reads.looked slot from (items_of self.old.objects.items) (items_of self.old.pages.items) (up self.old.path)
            (paths_left self.old.left.items) (contents_of self.old.contents.items) status words.now }
    {
        match words {
            [page, ..] if status == OK && from <= *page && *page < PAGES => {
                self.step = Reading::Copies { page: *page as u8 };
                false
            }
            _ => self.leave(),
        }
    }

    /// Takes an answer. That uses up its room. It answers whether it is over.
    pub fn absorb(&mut self, answer: &Answer) -> bool
        requires { HasRoom self.old }
        ensures { (slot : _) → was_read result slot self.new ≡ reads.next slot (read_of slot self.old) answer.now.status (answered answer.now) }
    {
        match self.step {
            Reading::Down { gone } => self.go_down(gone),
            Reading::Searches { from } => self.find(from, answer.status, words_of(answer)),
            Reading::Record { slot } => {
                self.objects.push_reserved(item(slot, answer));
                self.step = Reading::Searches {
                    from: u64::from(slot) + 1,
                };
            }
            Reading::Looks { from } => return self.look(from, answer.status, words_of(answer)),
            Reading::Copies { page } => {
                self.pages.push_reserved(item(page, answer));
                self.step = Reading::Looks {
                    from: u64::from(page) + 1,
                };
            }
        }
        false
    }
}
