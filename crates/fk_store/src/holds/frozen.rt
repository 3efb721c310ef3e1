//! Spaces that may be held, or lie beneath one that is.
ghost use Rattle.std.specs.Prelude.{◌≡◌, ◌≢◌, ◌<◌, ◌==◌, ℕ, [], true, false, if◌then◌else◌};
ghost use Rattle.fk_store.specs.Holds.Frozen.{mark_at, marked, unmarked};

use std::alloc::Global;
use std::marker::Model;

/// A mark for each birth number but the root's, which nobody holds.
#[derive(Drop)]
pub struct Frozen {
    marks: Vec<bool>,
}

impl Model for Frozen {
    ghost use Rattle.std.specs.Prelude.{List, Bool};

    ghost Value = { List Bool };

    ghost view = { λ s. s.marks.items };
}

impl Frozen {
    /// Nothing is told.
    pub fn new(alloc: Global) -> Frozen
        ensures { result ≡ [] }
    {
        Frozen {
            marks: Vec::new(alloc),
        }
    }

    /// The space may be held, or lie beneath one that is. False only if neither is so.
    #[inline]
    pub fn at(&self, space: u32) -> bool
        ensures { result ≡ mark_at self.now space }
    {
        if space == 0 {
            return false;
        }
        let at = space as usize - 1;
        if at < self.marks.len() {
            self.marks[at]
        } else {
            true
        }
    }

    /// Makes room for the marks up to a space's. For want of memory there may be less.
    pub fn room(&mut self, space: u32)
        ensures { (n : ℕ) → mark_at self.new n ≡ mark_at self.old n }
    {
        while self.marks.len() < space as usize {
            if self.marks.push(true).is_err() {
                return;
            }
        }
    }

    /// Marks a space; true if it wasn't marked.
    pub fn mark(&mut self, space: u32) -> bool
        requires { 0 < space }
        ensures marks { (n : ℕ) → mark_at self.new n ≡ (if n == space then true else mark_at self.old n) }
        ensures was { result ≡ true → mark_at self.old space ≡ false }
        ensures anew { result ≡ true → unmarked self.new < unmarked self.old }
        ensures same { result ≡ false → self.new ≡ self.old }
    {
        if self.at(space) {
            return false;
        }
        self.marks[space as usize - 1] = true;
        true
    }

    /// Takes the mark of a space away; true if it was marked, and had room for that.
    pub fn clear(&mut self, space: u32) -> bool
        requires { 0 < space }
        ensures others { (n : ℕ) → n ≢ space → mark_at self.new n ≡ mark_at self.old n }
        ensures less { mark_at self.new space ≡ true → mark_at self.old space ≡ true }
        ensures gone { result ≡ true → marked self.new < marked self.old }
        ensures same { result ≡ false → self.new ≡ self.old }
    {
        let at = space as usize - 1;
        if at >= self.marks.len() || !self.marks[at] {
            return false;
        }
        self.marks[at] = false;
        true
    }
}
