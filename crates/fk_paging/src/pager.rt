//! A pager as a machine: what it asks, and what it becomes by an answer.
ghost use Rattle.fk_model.specs.declared.statuses.status.TheConstants.{OK};
ghost use Rattle.std.specs.Prelude.{drop, ◌≡◌, ◌<◌, ◌≤◌, length, vec_len, vec_capacity, unwrap_or, slice_index, IfOk};
ghost use Rattle.std.specs.Option.{option_copied};
ghost use Rattle.laws_filled.specs.Pager as pagers;
ghost use Rattle.laws_filled.specs.Pager.{no_words, stage_of, words_of, first};
ghost use Rattle.fk_paging.specs.Pagers.{answered, backing_of, state_of, desk_of, asked_by, Hears, IsStill, MayHear};

use fk_model::status::{HELD, OK};
use fk_model::{Answer, Ask, NoMemory, Stage};
use std::alloc::Global;

/// A page of the list, if it is there, with its words.
#[derive(Clone, Copy)]
pub struct Page {
    pub words: [u64; 64],
    pub listed: bool,
}

/// What a pager asks next.
#[derive(Clone, Copy)]
pub enum Phase {
    /// Which page is the first, from this one on?
    Seeking { from: u64 },
    /// It takes the page.
    Taking { page: u64 },
    /// It waits for a fault.
    Waiting,
    /// Is the page home?
    Looking { page: u64 },
    /// It takes out the page that came in first, to give the other.
    Evicting { old: u64, page: u64 },
    /// It gives the page.
    Giving { page: u64 },
    /// It ends the fault.
    Ending { page: u64 },
}

/// A pager of the space in a slot, whose port is in a set.
#[derive(Drop)]
pub struct Pager {
    pub slot: u8,
    pub set: u8,
    pub room: u16,
    pub pages: Vec<Page>,
    pub inside: Vec<u64>,
    pub faults: u64,
    pub phase: Phase,
}

/// A word of an answer; 0 behind the last.
fn word(answer: &Answer, at: usize) -> u64
    requires { at < 64 }
    ensures { result ≡ slice_index (answered answer.now) at }
{
    if at < usize::from(answer.len) {
        return answer.words[at];
    }
    0
}

impl Pager {
    /// The words of a page of the list; zeros where it isn't there.
    fn given(&self, page: u64) -> [u64; 64]
        ensures { result ≡ unwrap_or (backing_of self.now.pages.items page) no_words }
    {
        let Some(there) = self.pages.as_slice().get(page as usize) else {
            return [0; 64];
        };
        if there.listed {
            let words = there.words;
            return words;
        }
        [0; 64]
    }

    /// The call that it makes next.
    pub fn stage(&self) -> Stage
        ensures { (nester : _) (port : _) → result ≡ stage_of (desk_of nester port self.now) (state_of self.now).phase }
    {
        match self.phase {
            Phase::Seeking { from } => Stage::PageNext {
                s: u64::from(self.slot),
                from,
            },
            Phase::Taking { page } => Stage::PageTake {
                s: u64::from(self.slot),
                page,
                addr: 0,
            },
            Phase::Waiting => Stage::Wait {
                set: u64::from(self.set),
            },
            Phase::Looking { page } => Stage::PageNext {
                s: u64::from(self.slot),
                from: page,
            },
            Phase::Evicting { old, .. } => Stage::PageTake {
                s: u64::from(self.slot),
                page: old,
                addr: 0,
            },
            Phase::Giving { page } => Stage::PageGive {
                s: u64::from(self.slot),
                page,
                addr: 0,
            },
            Phase::Ending { .. } => Stage::FaultDone,
        }
    }

    /// The words that it gives with it.
    fn words(&self) -> [u64; 64]
        ensures { result ≡ words_of (state_of self.now) (state_of self.now).phase }
    {
        match self.phase {
            Phase::Giving { page } => self.given(page),
            _ => [0; 64],
        }
    }

    /// The same words where they stand: those of the page that it gives. With any other call it gives none.
    pub fn gives(&self) -> Option<&[u64; 64]>
        ensures { unwrap_or (option_copied result) no_words ≡ words_of (state_of self.now) (state_of self.now).phase }
    {
        let Phase::Giving { page } = self.phase else {
            return None;
        };
        match self.pages.as_slice().get(page as usize) {
            Some(there) if there.listed => Some(&there.words),
            _ => None,
        }
    }

    /// What it asks next.
    pub fn next(&self) -> Ask
        ensures { (nester : _) (port : _) → result ≡ asked_by (desk_of nester port self.now) (state_of self.now) }
    {
        Ask::Call {
            stage: self.stage(),
            words: self.words(),
        }
    }

    /// The number of faults that it has ended.
    pub fn faults(&self) -> u64
        ensures { result ≡ (state_of self.now).faults }
    {
        self.faults
    }

    /// A page comes to the list.
    fn put(&mut self, page: u64, words: &[u64; 64])
        requires number { page < 256 }
        requires whole { length self.old.pages.items ≡ 256 }
        ensures whole { length self.new.pages.items ≡ 256 }
        ensures put { backing_of self.new.pages.items ≡ pagers.put page words.now (backing_of self.old.pages.items) }
        ensures slot { self.new.slot ≡ self.old.slot }
        ensures set { self.new.set ≡ self.old.set }
        ensures room { self.new.room ≡ self.old.room }
        ensures inside { self.new.inside ≡ self.old.inside }
        ensures faults { self.new.faults ≡ self.old.faults }
        ensures phase { self.new.phase ≡ self.old.phase }
    {
        self.pages[page as usize] = Page {
            words: *words,
            listed: true,
        };
    }

    /// It seeks on, or waits for faults.
    #[tactic(auto, unfolding(laws_filled::specs::Pager::next))]
    fn sought(&mut self, answer: &Answer)
        ensures next { (from : _) → Hears self.old (pagers.Seeking from) answer.now self.new }
        ensures still { IsStill self.old self.new }
    {
        self.phase = if answer.status == OK {
            Phase::Taking {
                page: word(answer, 0),
            }
        } else {
            Phase::Waiting
        };
    }

    /// It has a fault, or still waits.
    #[tactic(auto, unfolding(laws_filled::specs::Pager::next))]
    fn waited(&mut self, answer: &Answer)
        ensures next { Hears self.old pagers.Waiting answer.now self.new }
        ensures still { IsStill self.old self.new }
    {
        if answer.status == OK {
            self.phase = Phase::Looking {
                page: word(answer, 2),
            };
        }
    }

    /// The page is home, or there is room for it, or there has to be.
    #[tactic(auto, unfolding(laws_filled::specs::Pager::next))]
    fn looked(&mut self, page: u64, answer: &Answer)
        ensures next { Hears self.old (pagers.Looking page) answer.now self.new }
        ensures still { IsStill self.old self.new }
    {
        if answer.status == OK && word(answer, 0) == page {
            self.phase = Phase::Ending { page };
            return;
        }
        self.phase = match self.inside.as_slice().first() {
            Some(old) if usize::from(self.room) <= self.inside.len() => Phase::Evicting {
                old: *old,
                page,
            },
            _ => Phase::Giving { page },
        };
    }

    /// The fault has ended.
    #[tactic(auto, unfolding(laws_filled::specs::Pager::next))]
    fn ended(&mut self, answer: &Answer)
        ensures next { (page : _) → Hears self.old (pagers.Ending page) answer.now self.new }
        ensures still { IsStill self.old self.new }
    {
        if answer.status == OK {
            self.faults = self.faults.saturating_add(1);
        }
        self.phase = Phase::Waiting;
    }

    /// The page is given.
    #[tactic(auto, unfolding(laws_filled::specs::Pager::next))]
    fn gave(&mut self, page: u64, answer: &Answer)
        requires { vec_len self.old.inside < vec_capacity self.old.inside }
        ensures next { Hears self.old (pagers.Giving page) answer.now self.new }
        ensures still { IsStill self.old self.new }
    {
        if answer.status == HELD {
            return;
        }
        if answer.status == OK {
            self.inside.push_reserved(page);
        }
        self.phase = Phase::Ending { page };
    }

    /// The page that came in first is in no more.
    fn drop_first(&mut self)
        ensures inside { self.new.inside.items ≡ drop 1 self.old.inside.items }
        ensures room { vec_capacity self.new.inside ≡ vec_capacity self.old.inside }
        ensures slot { self.new.slot ≡ self.old.slot }
        ensures set { self.new.set ≡ self.old.set }
        ensures most { self.new.room ≡ self.old.room }
        ensures pages { self.new.pages ≡ self.old.pages }
        ensures faults { self.new.faults ≡ self.old.faults }
        ensures phase { self.new.phase ≡ self.old.phase }
    {
        if !self.inside.as_slice().is_empty() {
            self.inside.remove(0);
        }
    }

    /// A page is taken at the opening.
    #[tactic(auto, using(crate::proofs::Whole::whole), unfolding(laws_filled::specs::Pager::next))]
    fn took(&mut self, page: u64, answer: &Answer)
        requires number { page < 256 }
        requires whole { length self.old.pages.items ≡ 256 }
        requires full { answer.now.status ≡ OK → length (answered answer.now) ≡ 64 }
        ensures next { Hears self.old (pagers.Taking page) answer.now self.new }
        ensures whole { length self.new.pages.items ≡ 256 }
        ensures still { IsStill self.old self.new }
    {
        if answer.status == HELD {
            return;
        }
        if answer.status == OK {
            self.put(page, &answer.words);
        }
        self.phase = Phase::Seeking { from: page + 1 };
    }

    /// A page is taken out, or isn't there any more.
    #[tactic(auto, using(crate::proofs::Whole::whole), unfolding(laws_filled::specs::Pager::next))]
    fn evicted(&mut self, old: u64, page: u64, answer: &Answer)
        requires number { old < 256 }
        requires whole { length self.old.pages.items ≡ 256 }
        requires full { answer.now.status ≡ OK → length (answered answer.now) ≡ 64 }
        ensures next { Hears self.old (pagers.Evicting old page) answer.now self.new }
        ensures whole { length self.new.pages.items ≡ 256 }
        ensures still { IsStill self.old self.new }
    {
        if answer.status == HELD {
            return;
        }
        if answer.status == OK {
            self.put(old, &answer.words);
        }
        self.drop_first();
        self.phase = Phase::Giving { page };
    }

    /// It hears an answer.
    pub fn absorb(&mut self, answer: &Answer)
        requires may { MayHear self.old self.old.phase answer.now }
        requires whole { length self.old.pages.items ≡ 256 }
        ensures next { Hears self.old (state_of self.old).phase answer.now self.new }
        ensures still { IsStill self.old self.new }
    {
        match self.phase {
            Phase::Seeking { .. } => self.sought(answer),
            Phase::Taking { page } => self.took(page, answer),
            Phase::Waiting => self.waited(answer),
            Phase::Looking { page } => self.looked(page, answer),
            Phase::Evicting { old, page } => self.evicted(old, page, answer),
            Phase::Giving { page } => self.gave(page, answer),
            Phase::Ending { .. } => self.ended(answer),
        }
    }

    /// A pager that hasn't begun, with room for all that it may keep.
    ///
    /// # Errors
    ///
    /// There is no memory for what it may keep.
    #[tactic(auto, using(crate::proofs::Whole::blank), unfolding(laws_filled::specs::Pager::first))]
    pub fn new(alloc: Global, slot: u8, set: u8, room: u16) -> Result<Pager, NoMemory>
        ensures first { IfOk result (λ p. state_of p ≡ first) }
        ensures whole { IfOk result (λ p. length p.pages.items ≡ 256) }
        ensures spare { IfOk result (λ p. 256 ≤ vec_capacity p.inside) }
        ensures slot { IfOk result (λ p. p.slot ≡ slot) }
        ensures set { IfOk result (λ p. p.set ≡ set) }
        ensures room { IfOk result (λ p. p.room ≡ room) }
    {
        let mut pages = Vec::new(alloc);
        pages.resize(
            256,
            Page {
                words: [0; 64],
                listed: false,
            },
        )?;
        let inside = Vec::with_capacity(alloc, 256)?;
        Ok(Pager {
            slot,
            set,
            room,
            pages,
            inside,
            faults: 0,
            phase: Phase::Seeking { from: 0 },
        })
    }
}
