//! A copy of a thread and of some pages of its space, and instructions in it.
ghost use Rattle.std.specs.Prelude.{◌≡◌, ◌↔◌, ◌+◌, ◌/◌, ◌<◌, ◌^◌, None, Some, IsSome, IsTrue, IfSome, IfNone, length, slice_index_or, slice_set};
ghost use Rattle.std.specs.Prelude.{ℕ, is_some, [], true, false, if◌then◌else◌};
ghost use Rattle.std.specs.Bool.{OnTrue, OnFalse};
ghost use Rattle.std.specs.Option.{option_copied};
ghost use Rattle.fk_model.specs.Instructions.{IsAct};
ghost use Rattle.fk_model.specs.Valid.{IsPaged};
ghost use Rattle.fk_store.specs.Store.Paths.{path, place};
ghost use Rattle.fk_store.specs.Store.World.{world};
ghost use Rattle.laws_bursts.specs.Bursts.{acted, instructed, put, using, write};
ghost use Rattle.laws_bursts.specs.Laws.{HasPages};
ghost use Rattle.fk_burst.specs.Copies.Copies.{burst_of, begun, laid, IsSameAt};

use fk_model::limits::{PAGE_WORDS, PAGES};
use fk_model::{Act, Thread, Who};
use fk_store::Store;
use fk_user::asked;

/// The pages of a copy at most: that of the thread's counter and the three after it.
const NEAR: u64 = 4;

/// A thread's registers and counter, and pages of its space from `first` on: which of them are there, which have been used, and their words.
#[derive(Clone, Copy)]
pub struct Copied {
    pub registers: [u64; 16],
    pub counter: u64,
    first: u64,
    there: [bool; 4],
    used: [bool; 4],
    words: [[u64; 64]; 4],
}

/// The words of a page of a space, where there is such a page.
#[tactic(auto, using(crate::proofs::InCopies::Places::unpaged))]
fn near(store: &Store, space: u32, page: u64) -> Option<&[u64; 64]>
    requires { IsPaged (world store.now) }
    ensures { option_copied result ≡ (world store.now).page (path store.now space) page }
{
    if page < PAGES {
        store.page(space, page as u8)
    } else {
        None
    }
}

/// Lays a page at a place of four, and says whether there is such a page. Where there is none the place stays as it was.
#[inline(always)]
fn lay(words: &mut [[u64; 64]; 4], k: usize, page: Option<&[u64; 64]>) -> bool
    requires { k < 4 }
    ensures there { result ≡ is_some (option_copied page.entry) }
    ensures words { words.new ≡ laid k (option_copied page.entry) words.old }
{
    match page {
        Some(now) => {
            words[k] = *now;
            true
        }
        None => false,
    }
}

/// Whether two lists of words are the same.
#[tactic(auto, using(crate::proofs::InCopies::Equal::same_words))]
fn is_same(one: &[u64; 64], other: &[u64; 64]) -> bool
    ensures { IsTrue result ↔ (one.now ≡ other.now) }
{
    *one == *other
}

/// Whether the registers of a thread are these.
#[tactic(auto, using(crate::proofs::InCopies::Equal::same_words))]
fn has_registers(thread: &Thread, registers: &[u64; 16]) -> bool
    ensures { IsTrue result ↔ (thread.now.regs ≡ registers.now) }
{
    thread.regs == *registers
}

/// Whether a page is as it was copied.
#[tactic(auto, using(crate::proofs::InCopies::Equal::copied_same, crate::proofs::InCopies::Equal::copied_gone, crate::proofs::InCopies::Equal::copied_none))]
fn is_copied(page: Option<&[u64; 64]>, there: bool, words: &[u64; 64]) -> bool
    ensures { IsTrue result ↔ (option_copied page.entry ≡ (if there then Some words.now else None)) }
{
    match page {
        Some(now) => { if there { is_same(now, words) } else { false } }
        None => !there,
    }
}

impl Copied {
    /// A copy of nobody, in which no instruction can be made.
    pub fn blank() -> Copied
        ensures first { result.first ≡ result.counter / 64 }
        ensures unused { (page : ℕ) → (burst_of result).used page ≡ false }
        ensures idle { instructed (burst_of result) ≡ None }
    {
        Copied {
            registers: [0; 16],
            counter: 0,
            first: 0,
            there: [false; 4],
            used: [false; 4],
            words: [[0; 64]; 4],
        }
    }

    /// Becomes a copy of a thread in a space, of which nothing is used. It is filled in place, since it is large.
    #[inline(always)]
    pub fn fill(&mut self, store: &Store, space: u32, thread: &Thread)
        requires { IsPaged (world store.now) }
        ensures first { self.new.first ≡ self.new.counter / 64 }
        ensures begun { burst_of self.new ≡ begun (world store.now) (path store.now space) thread.now.regs thread.now.pc }
    {
        let first = thread.pc / PAGE_WORDS;
        self.registers = thread.regs;
        self.counter = thread.pc;
        self.first = first;
        self.used = [false; 4];
        self.there = [
            lay(&mut self.words, 0, near(store, space, first)),
            lay(&mut self.words, 1, near(store, space, first + 1)),
            lay(&mut self.words, 2, near(store, space, first + 2)),
            lay(&mut self.words, 3, near(store, space, first + 3)),
        ];
    }

    /// A copy has four places. Nothing is done: by this call what its type keeps of them is had above.
    pub fn places(&self)
        ensures { length self.now.used ≡ 4 }
    {
        let _used = self.used;
    }

    /// Whether a thread has the registers and the counter of this copy.
    #[tactic(auto, using(crate::proofs::InCopies::Equal::has_both, crate::proofs::InCopies::Equal::has_other))]
    pub fn has_words(&self, thread: &Thread) -> bool
        ensures { IsTrue result ↔ ((thread.now.regs ≡ self.now.registers) × (thread.now.pc ≡ self.now.counter)) }
    {
        if thread.pc == self.counter {
            has_registers(thread, &self.registers)
        } else {
            false
        }
    }

    /// Whether the page at a place, if this copy has used it, is in a space as another copy has it, which begins with the same page.
    #[tactic(auto, using(crate::proofs::InCopies::Places::same_at, crate::proofs::InCopies::Places::unused_at))]
    fn is_same_at(&self, taken: &Copied, store: &Store, space: u32, k: usize) -> bool
        requires place { k < 4 }
        requires low { self.now.first < 2 ^ 60 }
        requires first { self.now.first ≡ taken.now.first }
        requires paged { IsPaged (world store.now) }
        ensures { IsTrue result ↔ IsSameAt (world store.now) (path store.now space) self.now taken.now k }
    {
        if self.used[k] {
            let page = near(store, space, self.first + k as u64);
            is_copied(page, taken.there[k], &taken.words[k])
        } else {
            true
        }
    }

    /// Whether the pages that this copy has used are in the space of a thread as another copy has them, which begins with the same page.
    pub fn has_pages(&self, taken: &Copied, store: &Store, thread: Who) -> bool
        requires paged { IsPaged (world store.now) }
        requires first { self.now.first ≡ taken.now.first }
        requires begins { taken.now.first ≡ taken.now.counter / 64 }
        ensures same { OnTrue result (HasPages (world store.now) (place (path store.now) thread) (burst_of self.now) (burst_of taken.now)) }
        ensures other { OnFalse result (HasPages (world store.now) (place (path store.now) thread) (burst_of self.now) (burst_of taken.now) → ⊥) }
    {
        // The number of a page that begins a copy is that of a word of 64 bits.
        let _counter = taken.counter;
        self.places();
        for k in 0..4usize {
            if !self.is_same_at(taken, store, thread.space, k) {
                return false;
            }
        }
        true
    }

    /// The number and the words of the page at a place, if it has been used. Such a page is one of a space.
    #[inline(always)]
    pub fn used_at(&self, k: usize) -> Option<(u8, &[u64; 64])>
        requires place { k < 4 }
        requires low { slice_index_or self.now.used k false ≡ true → self.now.first + k < 256 }
        ensures used { IfSome result (λ page. slice_index_or self.now.used k false ≡ true) }
        ensures page { IfSome result (λ page. page.0 ≡ self.now.first + k) }
        ensures words { IfSome result (λ page. page.1.now ≡ slice_index_or self.now.words k []) }
        ensures none { IfNone result (slice_index_or self.now.used k false ≡ false) }
    {
        if self.used[k] {
            Some(((self.first + k as u64) as u8, &self.words[k]))
        } else {
            None
        }
    }

    /// Whether a page behind the first two places has been used.
    pub fn goes_far(&self) -> bool
        ensures near { OnFalse result ((slice_index_or self.now.used 2 false ≡ false) × (slice_index_or self.now.used 3 false ≡ false)) }
    {
        if self.used[2] { true } else { self.used[3] }
    }

    /// A place of the four, where its page is there.
    #[tactic(auto, using(crate::proofs::InCopies::Places::none_there))]
    #[inline(always)]
    fn held(&self, k: u64) -> Option<usize>
        ensures place { IfSome result (λ at. (at ≡ k) × (at < 4)) }
        ensures there { IfSome result (λ at. slice_index_or self.now.there at false ≡ true) }
        ensures none { IfNone result (slice_index_or self.now.there k false ≡ false) }
    {
        let there = self.there;
        if k >= NEAR {
            None
        } else if there[k as usize] {
            Some(k as usize)
        } else {
            None
        }
    }

    /// The place of a page among those that are there.
    #[tactic(auto, using(crate::proofs::InCopies::Places::none_below, crate::proofs::InCopies::Places::none_behind, crate::proofs::InCopies::Places::there_at))]
    #[inline(always)]
    fn place(&self, page: u64) -> Option<usize>
        ensures place { IfSome result (λ k. (k < 4) × (self.now.first + k ≡ page)) }
        ensures there { IfSome result (λ k. (burst_of self.now).page page ≡ Some (slice_index_or self.now.words k [])) }
        ensures none { IfNone result ((burst_of self.now).page page ≡ None) }
    {
        if page < self.first {
            None
        } else {
            match self.held(page - self.first) {
                Some(k) => Some(k),
                None => None,
            }
        }
    }

    /// The page at a place is used.
    #[inline(always)]
    fn mark(&mut self, k: usize)
        requires { k < 4 }
        ensures burst { burst_of self.new ≡ using (self.old.first + k) (burst_of self.old) }
        ensures first { self.new.first ≡ self.old.first }
        ensures words { self.new.words ≡ self.old.words }
    {
        self.used[k] = true;
    }

    /// A register gets a value, and the next instruction follows.
    #[inline(always)]
    fn put(&mut self, register: u8, value: u64)
        requires { register < 16 }
        ensures burst { burst_of self.new ≡ put register value (burst_of self.old) }
        ensures first { self.new.first ≡ self.old.first }
    {
        self.registers[register as usize] = value;
        self.counter = self.counter.wrapping_add(1);
    }

    /// The instruction at this counter follows.
    #[inline(always)]
    fn jump(&mut self, counter: u64)
        ensures burst { burst_of self.new ≡ record (burst_of self.old) { counter = counter } }
        ensures first { self.new.first ≡ self.old.first }
    {
        self.counter = counter;
    }

    /// A word of the page at a place, which is there, gets a value, and the next instruction follows.
    #[inline(always)]
    fn store(&mut self, k: usize, at: usize, value: u64)
        requires place { k < 4 }
        requires at { at < 64 }
        requires there { IsSome ((burst_of self.old).page (self.old.first + k)) }
        ensures burst { burst_of self.new ≡ write (self.old.first + k) (slice_set (slice_index_or self.old.words k []) at value) (burst_of self.old) }
        ensures first { self.new.first ≡ self.old.first }
    {
        self.words[k][at] = value;
        self.counter = self.counter.wrapping_add(1);
    }

    /// Does what an act asks for that was fetched from the page at a place, and answers whether it did: not where it halts, is a call, or
    /// needs a page that isn't there. Then all stays as it is.
    #[inline(always)]
    fn perform(&mut self, fetched: usize, act: Act) -> bool
        requires place { fetched < 4 }
        requires in_range { IsAct act }
        ensures made { OnTrue result (acted act (using (self.old.first + fetched) (burst_of self.old)) ≡ Some (burst_of self.new)) }
        ensures stopped { OnFalse result (acted act (using (self.old.first + fetched) (burst_of self.old)) ≡ None) }
        ensures same { OnFalse result (self.new ≡ self.old) }
        ensures first { self.new.first ≡ self.old.first }
    {
        match act {
            Act::Put { register, value } => {
                self.mark(fetched);
                self.put(register, value);
                true
            }
            Act::Jump { counter } => {
                self.mark(fetched);
                self.jump(counter);
                true
            }
            Act::Load { register, address } => match self.place(address / PAGE_WORDS) {
                Some(k) => {
                    let value = self.words[k][(address % PAGE_WORDS) as usize];
                    self.mark(fetched);
                    self.mark(k);
                    self.put(register, value);
                    true
                }
                None => false,
            },
            Act::Store { address, value } => match self.place(address / PAGE_WORDS) {
                Some(k) => {
                    self.mark(fetched);
                    self.mark(k);
                    self.store(k, (address % PAGE_WORDS) as usize, value);
                    true
                }
                None => false,
            },
            Act::Halt { .. } | Act::Call => false,
        }
    }

    /// Makes one instruction, and answers whether it did: not where it is a call, would halt, or needs a page that isn't there. Then all
    /// stays as it is.
    #[inline(always)]
    pub fn instruct(&mut self) -> bool
        ensures made { OnTrue result (instructed (burst_of self.old) ≡ Some (burst_of self.new)) }
        ensures stopped { OnFalse result (instructed (burst_of self.old) ≡ None) }
        ensures same { OnFalse result (self.new ≡ self.old) }
        ensures first { self.new.first ≡ self.old.first }
    {
        match self.place(self.counter / PAGE_WORDS) {
            Some(k) => {
                let word = self.words[k][(self.counter % PAGE_WORDS) as usize];
                let act = asked(word, &self.registers, self.counter);
                self.perform(k, act)
            }
            None => false,
        }
    }
}
