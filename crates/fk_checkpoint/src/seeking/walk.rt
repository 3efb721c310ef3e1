//! A walk over a held subtree: every object in preorder.
ghost use Rattle.std.specs.Prelude.{◌≡◌, ◌++◌, ◌∷◌, [], ◌<◌, drop, vec_len, vec_capacity, IfOk, OnOk};
ghost use Rattle.laws_jobs.specs.Machines.{no_words};
ghost use Rattle.laws_jobs.specs.Machines.Head.{Asks};
ghost use Rattle.laws_checkpoint.specs.Walk as walks;
ghost use Rattle.fk_checkpoint.specs.Seeking.Seeking.{step_of, walk_of, walked, HasRoom, HasRoomAt, mets_of, up};

use crate::seeking::descent::{space_of, way};
use crate::seeking::met::Met;
use fk_model::kind::SPACE;
use fk_model::limits::SLOTS;
use fk_model::status::OK;
use fk_model::{List, NoMemory, Stage};
use std::alloc::Global;
use std::mem;

/// What a walk does next.
#[derive(Clone, Copy)]
pub enum Step {
    /// It goes down to its space, and has made so many steps; there it will search from a slot on.
    Down { gone: usize, from: u64 },
    /// It searches its space from a slot on.
    Searches { from: u64 },
}

/// A walk over a held subtree.
#[derive(Drop)]
pub struct Walk {
    /// The slots from the subtree's root down to the space at which it is.
    path: Vec<u8>,
    /// The same, for an object that may be found.
    spare: Option<List<u8>>,
    step: Step,
    mets: Vec<Met>,
}

/// Goes on in a space, to which a walk comes from the root.
#[tactic(auto, using(crate::proofs::InSeeking::Ways::reach_down))]
fn reach(path: &[u8], from: u64) -> Step
    ensures { (slot : _) (mets : _) → step_of slot path.now mets result ≡ walks.reach slot (up path.now) from (mets_of mets) }
{
    if path.is_empty() {
        return Step::Searches { from };
    }
    Step::Down { gone: 0, from }
}

impl Walk {
    /// A walk that begins at the root.
    pub fn new(alloc: Global) -> Walk
        ensures { (slot : _) → walk_of slot result ≡ walks.begin }
    {
        Walk {
            path: Vec::new(alloc),
            spare: None,
            step: Step::Searches { from: 0 },
            mets: Vec::new(alloc),
        }
    }

    /// The next call of a walk over the subtree in a slot.
    pub fn next(&self, slot: u8) -> Stage
        ensures { walks.head slot (walk_of slot self.now) ≡ Asks result no_words }
    {
        match self.step {
            Step::Down { gone, .. } => way(slot, self.path.as_slice(), gone),
            Step::Searches { from } => Stage::Search {
                s: space_of(slot, self.path.as_slice()),
                from,
            },
        }
    }

    /// The objects that were met.
    pub fn mets(&self) -> &[Met]
        ensures { result.now ≡ self.now.mets.items }
    {
        self.mets.as_slice()
    }

    /// The path of the space, copied.
    fn spare(&self) -> Result<List<u8>, NoMemory>
        ensures { IfOk result (λ spare. spare ≡ self.now.path.items) }
    {
        let mut spare = Vec::new(*self.path.allocator());
        spare.extend_from_slice(self.path.as_slice())?;
        Ok(List::of(spare))
    }

    /// Makes room for one answer, and changes nothing else.
    ///
    /// # Errors
    ///
    /// There is no memory for one answer.
    pub fn reserve(&mut self) -> Result<(), NoMemory>
        ensures same { (slot : _) → walk_of slot self.new ≡ walk_of slot self.old }
        ensures room { OnOk result (HasRoom self.new) }
    {
        if let Step::Searches { .. } = self.step {
            self.path.reserve(1)?;
            self.mets.reserve(1)?;
            self.spare = Some(self.spare()?);
        }
        Ok(())
    }

    /// Goes back to the space above; or it is over.
    #[tactic(auto, using(crate::proofs::InSeeking::Ways::leaves_up))]
    fn leave(&mut self) -> bool
        ensures { (slot : _) → walked result slot self.new ≡ walks.leaves slot (up self.old.path.items) (mets_of self.old.mets.items) }
    {
        match self.path.pop() {
            None => true,
            Some(last) => {
                self.step = reach(self.path.as_slice(), u64::from(last) + 1);
                false
            }
        }
    }

    /// Goes down into a space of the one at which it is.
    fn enter(&mut self, slot: u8)
        requires { vec_len self.old.path < vec_capacity self.old.path }
        ensures { (root : _) → walk_of root self.new ≡ walks.enters root (up self.old.path.items) slot (mets_of self.old.mets.items) }
    {
        let gone = if self.path.is_empty() {
            0
        } else {
            self.path.len() + 1
        };
        self.path.push_reserved(slot);
        self.step = Step::Down { gone, from: 0 };
    }

    /// Keeps an object, and goes down into it, where it is a space, or on.
    fn keep(&mut self, slot: u8, kind: u64)
        requires { HasRoomAt self.old }
        ensures { (root : _) → walk_of root self.new
            ≡ walks.goes_on root (up self.old.path.items) slot kind (mets_of self.old.mets.items ++ record { path = slot ∷ up self.old.path.items; kind = kind } ∷ []) }
    {
        let place = mem::take(&mut self.spare).unwrap();
        self.mets.push_reserved(Met { place, slot, kind });
        if kind == SPACE {
            self.enter(slot);
        } else {
            self.step = Step::Searches {
                from: u64::from(slot) + 1,
            };
        }
    }

    /// What a search was answered.
    fn find(&mut self, from: u64, status: u8, words: &[u64]) -> bool
        requires { HasRoomAt self.old }
        ensures { (slot : _) → walked result slot self.new ≡ walks.found slot (up self.old.path.items) from (mets_of self.old.mets.items) status words.now }
    {
        match words {
            [slot, kind, ..] if status == OK && from <= *slot && *slot < SLOTS => {
                self.keep(*slot as u8, *kind);
                false
            }
            _ => self.leave(),
        }
    }

    /// Goes a step down, or has come to its space.
    #[tactic(auto, using(crate::proofs::InSeeking::Ways::next_way, crate::proofs::InSeeking::Ways::no_more))]
    fn go_down(&mut self, gone: usize, from: u64)
        ensures { (slot : _) → walk_of slot self.new ≡ walks.arrive (drop gone self.old.path.items) (up self.old.path.items) from (mets_of self.old.mets.items) }
    {
        self.step = if gone < self.path.len() {
            Step::Down {
                gone: gone + 1,
                from,
            }
        } else {
            Step::Searches { from }
        };
    }

    /// Takes an answer. That uses up its room. It answers whether it is over.
    pub fn absorb(&mut self, status: u8, words: &[u64]) -> bool
        requires { HasRoom self.old }
        ensures { (slot : _) → walked result slot self.new ≡ walks.next slot (walk_of slot self.old) status words.now }
    {
        match self.step {
            Step::Down { gone, from } => {
                self.go_down(gone, from);
                false
            }
            Step::Searches { from } => self.find(from, status, words),
        }
    }
}
