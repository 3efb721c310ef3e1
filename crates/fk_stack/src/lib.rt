//! A stack that contracts see as a list, the next item first.
//!
//! It stands on `fk_model` for want of memory, and promises that what is put is what is taken next.
#![tactic(auto)]

ghost use Rattle.std.specs.Prelude.{◌≡◌, ◌∷◌, [], OnOk};
ghost use Rattle.fk_stack.specs.Pops.{Pops};

use fk_model::NoMemory;
use std::alloc::Global;
use std::marker::Model;

/// Items, of which the one that was put last is taken first.
#[derive(Drop)]
pub struct Stack<T> {
    items: Vec<T>,
}

impl<T> Model for Stack<T> {
    ghost use Rattle.std.specs.Prelude as words;

    ghost Value = { words.List T };

    ghost view = { λ s. words.reverse s.items.items };
}

impl<T> Stack<T> {
    /// No item.
    pub fn new(alloc: Global) -> Stack<T>
        ensures { result ≡ [] }
    {
        Stack {
            items: Vec::new(alloc),
        }
    }

    /// Takes the next item away.
    pub fn pop(&mut self) -> Option<T>
        ensures { Pops result self.old self.new }
    {
        self.items.pop()
    }
}

impl<T: Drop> Stack<T> {
    /// Puts an item before the others.
    ///
    /// # Errors
    ///
    /// There is no memory for it.
    pub fn push(&mut self, item: T) -> Result<(), NoMemory>
        ensures { OnOk result (self.new ≡ item ∷ self.old) }
    {
        match self.items.push(item) {
            Ok(()) => Ok(()),
            Err(_) => Err(NoMemory),
        }
    }
}
