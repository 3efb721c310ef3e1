//! Spaces that may be held.
ghost use Rattle.std.specs.Prelude.{◌≡◌, ◌≢◌, ◌<◌, ℕ, [], false, None, IfSome, length, slice_index_or};
ghost use Rattle.fk_model.proofs.walks.Members.{IsIn};
ghost use Rattle.fk_store.specs.Holds.Held.{IsTold};

use std::alloc::Global;
use std::marker::Model;

/// The birth numbers of all spaces that are held, and perhaps of some that were.
#[derive(Drop)]
pub struct Held {
    births: Vec<u32>,
    /// There was no memory for one of them: any space may be held.
    lost: bool,
}

impl Model for Held {
    ghost use Rattle.std.specs.Prelude.{List, ℕ, Bool};

    ghost Value = { List ℕ × Bool };

    ghost view = { λ s. (s.births.items, s.lost) };
}

impl Held {
    /// No space is held.
    pub fn new(alloc: Global) -> Held
        ensures { result ≡ ([], false) }
    {
        Held {
            births: Vec::new(alloc),
            lost: false,
        }
    }

    /// A space may be held from now on.
    pub fn note(&mut self, space: u32)
        ensures here { IsTold self.new space }
        ensures others { (n : ℕ) → IsTold self.old n → IsTold self.new n }
    {
        if let Some(_at) = self.place_of(space) {
            return;
        }
        if self.births.push(space).is_err() {
            self.lost = true;
        }
    }

    /// A space isn't held.
    pub fn forget(&mut self, space: u32)
        ensures { (n : ℕ) → n ≢ space → IsTold self.old n → IsTold self.new n }
    {
        if let Some(at) = self.place_of(space) {
            self.births.swap_remove(at);
        }
    }

    /// All that are told of; nothing where any space may be held.
    pub fn all(&self) -> Option<&[u32]>
        ensures { IfSome result (λ births. (n : ℕ) → IsTold self.now n → IsIn n births.now) }
    {
        if self.lost {
            None
        } else {
            Some(self.births.as_slice())
        }
    }

    /// Where a space is among those that are told of.
    fn place_of(&self, space: u32) -> Option<usize>
        ensures some { IfSome result (λ at. (at < length self.now.0) × (slice_index_or self.now.0 at 0 ≡ space)) }
        ensures none { result ≡ None → IsIn space self.now.0 → ⊥ }
    {
        for at in 0..self.births.len() {
            if self.births[at] == space {
                return Some(at);
            }
        }
        None
    }
}
