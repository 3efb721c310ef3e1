//! Blocks of bytes, and the image that they spell together.
ghost use Rattle.std.specs.Prelude.{◌≡◌, ◌++◌, is_some, IfOk, OnOk};
ghost use Rattle.fk_sides.specs.Blocks.{bytes_at, bytes_of, shown, spelled, IsFilled, IsFilledTo, IsIdle, IsOpen};
ghost use Rattle.std.specs.Bool.{OnFalse, OnTrue};
ghost use Rattle.laws_migrate.specs.Images.{read_bytes};

use fk_codec::{ReadFail, read};
use fk_finish::ValidImage;
use fk_model::NoMemory;
use std::alloc::Global;

/// The bytes of a piece, of which the first so many count.
#[derive(Clone, Copy)]
pub struct Block {
    pub bytes: [u8; 512],
    pub len: u16,
}

/// Whether a place is there, and open.
pub(crate) fn is_open(blocks: &[Option<Block>], at: usize) -> bool
    ensures yes { OnTrue result (IsOpen blocks.now at) }
    ensures no { OnFalse result (IsIdle blocks.now at) }
{
    match blocks.get(at) {
        Some(block) => block.is_none(),
        None => false,
    }
}

/// Whether a block has come to a place.
fn has_come(blocks: &[Option<Block>], at: usize) -> bool
    ensures { result ≡ is_some (bytes_at blocks.now at) }
{
    match blocks.get(at) {
        Some(block) => block.is_some(),
        None => false,
    }
}

/// The first place, from one on, to which none has come.
pub(crate) fn first_open(blocks: &[Option<Block>], from: usize) -> usize
    requires { IsFilledTo blocks.now from }
    ensures { IsFilled blocks.now result }
{
    let mut first = from;
    while has_come(blocks, first) {
        first += 1;
    }
    first
}

/// The bytes of a block that count.
fn counted(block: &Block) -> &[u8]
    ensures { result.now ≡ bytes_of block.now }
{
    let len = usize::from(block.len).min(block.bytes.len());
    &block.bytes[..len]
}

/// Adds the bytes of a block that count.
fn add_block(out: &mut Vec<u8>, block: &Option<Block>) -> Result<(), NoMemory>
    ensures { OnOk result (out.new.items ≡ out.old.items ++ shown block.now) }
{
    match block {
        Some(block) => {
            out.extend_from_slice(counted(block))?;
            Ok(())
        }
        None => Ok(()),
    }
}

/// The bytes of all blocks, one after the other.
fn join(alloc: Global, blocks: &[Option<Block>]) -> Result<Vec<u8>, NoMemory>
    ensures { IfOk result (λ bytes. bytes.items ≡ spelled blocks.now) }
{
    let mut out = Vec::new(alloc);
    for block in blocks {
        add_block(&mut out, block)?;
    }
    Ok(out)
}

/// The image that bytes spell, if they spell one.
fn read_image(alloc: Global, bytes: &[u8]) -> Result<Option<ValidImage>, NoMemory>
    ensures { IfOk result (λ image. image ≡ read_bytes bytes.now) }
{
    match read(alloc, bytes) {
        Ok(image) => Ok(Some(ValidImage::new(alloc, image)?)),
        Err(ReadFail::NoMemory) => Err(NoMemory),
        Err(ReadFail::Image(_)) => Ok(None),
    }
}

/// The image that blocks spell together, if they spell one.
pub(crate) fn read_blocks(
    alloc: Global,
    blocks: &[Option<Block>],
) -> Result<Option<ValidImage>, NoMemory>
    ensures { IfOk result (λ image. image ≡ read_bytes (spelled blocks.now)) }
{
    let bytes = join(alloc, blocks)?;
    read_image(alloc, bytes.as_slice())
}
