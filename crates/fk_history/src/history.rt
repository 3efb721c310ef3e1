//! Histories.
ghost use Rattle.std.specs.Prelude.{◌≡◌, ◌+◌, ◌<◌, ◌≤◌, ◌++◌, ◌∷◌, [], length, replicate, IfOk};

use crate::repeats::{Repeat, put, write, write_all};
use fk_model::{List as Items, Move, NoMemory, Who};
use std::alloc::Global;
use std::marker::Model;

/// Moves in their order, with room for so many. The last one, and how often it was made, stand by themselves, so that adding the same again
/// writes no line of the list.
#[derive(Drop)]
pub struct History {
    repeats: Vec<Repeat>,
    last: Move,
    times: u64,
    len: u64,
}

impl Model for History {
    ghost use Rattle.std.specs.Prelude.{◌≡◌, ◌+◌, ◌≤◌, ◌++◌, length, replicate, vec_capacity};
    ghost use Rattle.fk_history.specs.Repeats.{Kept, kept_code, moves_in};

    ghost Value = { Kept };

    ghost coded = { kept_code };

    ghost view = { λ h. record { moves = moves_in h.repeats.items ++ replicate h.times h.last; room = vec_capacity h.repeats } };

    ghost invariant = { λ h. (h.len ≡ length (moves_in h.repeats.items ++ replicate h.times h.last)) × (length h.repeats.items + h.times ≤ h.len) };
}

impl History {
    /// None yet, with room for so many.
    ///
    /// # Errors
    ///
    /// There is no memory for these.
    pub fn with_room(alloc: Global, most: u64) -> Result<History, NoMemory>
        ensures moves { IfOk result (λ history. history.moves ≡ []) }
        ensures room { IfOk result (λ history. most ≤ history.room) }
    {
        let repeats = Vec::with_capacity(alloc, most as usize)?;
        Ok(History {
            repeats,
            last: Move {
                who: Who { space: 0, slot: 0 },
                pick: None,
            },
            times: 0,
            len: 0,
        })
    }

    /// How many moves there are.
    pub fn len(&self) -> u64
        ensures { result ≡ length self.now.moves }
    {
        self.len
    }

    /// Adds a move.
    pub fn push(&mut self, m: Move)
        requires { length self.old.moves < self.old.room }
        ensures moves { self.new.moves ≡ self.old.moves ++ m ∷ [] }
        ensures room { self.new.room ≡ self.old.room }
    {
        self.add(m, 1);
    }

    /// Adds a move so many times.
    #[tactic(auto, using(crate::proofs::Repeating::other_more))]
    pub fn add(&mut self, m: Move, times: u64)
        requires { length self.old.moves + times ≤ self.old.room }
        ensures moves { self.new.moves ≡ self.old.moves ++ replicate times m }
        ensures room { self.new.room ≡ self.old.room }
    {
        // What it has room for is a count of this machine.
        let _room = self.repeats.capacity();
        self.len += times;
        if self.last == m {
            self.times += times;
            return;
        }
        put(&mut self.repeats, self.last, self.times);
        self.last = m;
        self.times = times;
    }

    /// All of them, to which none is added any more.
    pub fn into_moves(self) -> Moves
        ensures { result ≡ self.moves }
    {
        Moves { history: self }
    }

    /// All of them, written out.
    fn list(&self, alloc: Global) -> Result<Items<Move>, NoMemory>
        ensures { IfOk result (λ all. all ≡ self.now.moves) }
    {
        let mut all = Vec::with_capacity(alloc, self.len as usize)?;
        write_all(&mut all, self.repeats.as_slice())?;
        write(&mut all, self.last, self.times)?;
        Ok(Items::of(all))
    }
}

/// The moves of a history. Contracts see their list.
#[derive(Drop)]
pub struct Moves {
    history: History,
}

impl Model for Moves {
    ghost use Rattle.std.specs.Prelude.{List};
    ghost use Rattle.fk_model.specs.declared.moves.Move.{Move};

    ghost Value = { List Move };

    ghost view = { λ s. s.history.moves };
}

impl Moves {
    /// How many there are.
    pub fn len(&self) -> u64
        ensures { result ≡ length self.now }
    {
        self.history.len()
    }

    /// The list of them, written out.
    ///
    /// # Errors
    ///
    /// There is no memory for it.
    pub fn list(&self, alloc: Global) -> Result<Items<Move>, NoMemory>
        ensures { IfOk result (λ all. all ≡ self.now) }
    {
        self.history.list(alloc)
    }
}
