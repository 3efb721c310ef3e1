//! The pieces of an image that have come, each in its place.
ghost use Rattle.std.specs.Prelude.{◌≡◌, ◌++◌, ◌<◌, ◌≤◌, ◌∷◌, [], ℕ, List, length, replicate, None, Some, IfOk, OnErr};
ghost use Rattle.std.specs.List.{slice_set};
ghost use Rattle.fk_sides.specs.Blocks.{bytes_at, piece_of, Begins, Comes, IsIn, IsOpen};
ghost use Rattle.laws_handover.specs.Pieces.{Piece};

use crate::blocks::{Block, first_open, is_open, read_blocks};
use fk_finish::ValidImage;
use fk_model::NoMemory;
use std::alloc::Global;

/// A place for each piece, and the first open one.
#[derive(Drop)]
pub struct Table {
    blocks: Vec<Option<Block>>,
    first: usize,
    ghost within: { first ≤ length blocks.items },
    ghost filled: { (n : ℕ) → n < first → bytes_at blocks.items n ≡ None → ⊥ },
    ghost open_at: { bytes_at blocks.items first ≡ None },
}

/// The pieces that have come. The first one says how many there are.
#[derive(Drop)]
pub struct Came {
    alloc: Global,
    table: Option<Table>,
}

/// So many open places.
fn open_places(alloc: Global, total: u64) -> Result<Vec<Option<Block>>, NoMemory>
    ensures { IfOk result (λ blocks. blocks.items ≡ replicate total None) }
{
    let mut blocks = Vec::new(alloc);
    for _k in 0..total {
        blocks.push(None)?;
    }
    Ok(blocks)
}

impl Table {
    /// A table of so many pieces, none of which has come.
    fn new(alloc: Global, total: u64) -> Result<Table, NoMemory>
        ensures blocks { IfOk result (λ table. table.blocks.items ≡ replicate total None) }
        ensures first { IfOk result (λ table. table.first ≡ 0) }
    {
        Ok(Table {
            blocks: open_places(alloc, total)?,
            first: 0,
        })
    }

    /// Puts a block in an open place.
    fn put(&mut self, at: usize, block: Block)
        requires { IsOpen self.old.blocks.items at }
        ensures { self.new.blocks.items ≡ slice_set self.old.blocks.items at (Some block) }
    {
        self.blocks[at] = Some(block);
        self.first = first_open(self.blocks.as_slice(), self.first);
    }

    /// Puts a block in an open place: gives the image that all spell together, once they do. For want of memory all is as before.
    fn fill(
        &mut self,
        alloc: Global,
        at: usize,
        block: Block,
    ) -> Result<Option<ValidImage>, NoMemory>
        requires { IsOpen self.old.blocks.items at }
        ensures comes { IfOk result (λ image. (got : List Piece) (total : ℕ) → IsIn self.old.blocks.items got
            → Begins got total (length self.old.blocks.items) → Comes image self.new.blocks.items (got ++ piece_of at total block ∷ [])) }
        ensures lacking { OnErr result (self.new.blocks.items ≡ self.old.blocks.items) }
    {
        let before = self.first;
        self.put(at, block);
        let first = self.first;
        let many = self.blocks.len();
        if first < many {
            return Ok(None);
        }
        match read_blocks(alloc, self.blocks.as_slice()) {
            Ok(image) => Ok(image),
            Err(lacking) => {
                self.blocks[at] = None;
                self.first = before;
                Err(lacking)
            }
        }
    }

    /// Takes the block of the piece with a number: gives the image that all spell together, once they do. For want of memory all is as before.
    fn take(
        &mut self,
        alloc: Global,
        number: u64,
        block: Block,
    ) -> Result<Option<ValidImage>, NoMemory>
        ensures comes { IfOk result (λ image. (got : List Piece) (total : ℕ) → IsIn self.old.blocks.items got
            → Begins got total (length self.old.blocks.items) → Comes image self.new.blocks.items (got ++ piece_of number total block ∷ [])) }
        ensures lacking { OnErr result (self.new.blocks.items ≡ self.old.blocks.items) }
    {
        let at = number as usize;
        if is_open(self.blocks.as_slice(), at) {
            self.fill(alloc, at, block)
        } else {
            Ok(None)
        }
    }
}

impl Came {
    ghost use Rattle.fk_sides.specs.Cames.{ComesTo, IsCome};

    /// None has come.
    pub fn new(alloc: Global) -> Came
        ensures { IsCome result [] }
    {
        Came { alloc, table: None }
    }

    /// Takes a piece: gives the image that all spell together, once they do. What comes again changes nothing.
    ///
    /// # Errors
    ///
    /// There is no memory for the piece, or for the image.
    pub fn take(
        &mut self,
        number: u64,
        total: u64,
        block: Block,
    ) -> Result<Option<ValidImage>, NoMemory>
        ensures comes { IfOk result (λ image. (got : List Piece) → IsCome self.old got → ComesTo image self.new.table (got ++ piece_of number total block ∷ [])) }
        ensures lacking { OnErr result ((got : List Piece) → IsCome self.old got → IsCome self.new got) }
    {
        match &mut self.table {
            Some(table) => {
                let image = table.take(self.alloc, number, block)?;
                Ok(image)
            }
            None => {
                let mut table = Table::new(self.alloc, total)?;
                let image = table.take(self.alloc, number, block)?;
                self.table = Some(table);
                Ok(image)
            }
        }
    }
}
