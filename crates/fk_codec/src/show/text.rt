//! What `show` writes of an image.
ghost use Rattle.std.specs.Prelude.{◌≡◌, ◌+◌, IfOk, length, string_bytes, get_or, false};
ghost use Rattle.fk_codec.specs.Show.Shown as words;

use fk_image::{Image, SpaceRec};
use fk_model::NoMemory;
use std::alloc::{AllocError, Global};

/// How many objects the spaces have. More than a number can count don't fit in memory.
fn object_count(spaces: &[SpaceRec]) -> Result<usize, NoMemory>
    ensures { IfOk result (λ count. count ≡ words.object_count spaces.now) }
{
    let mut count = 0usize;
    for space in spaces {
        count = plus(count, space.objects.len())?;
    }
    Ok(count)
}

/// How many pages the spaces have. More than a number can count don't fit in memory.
fn page_count(spaces: &[SpaceRec]) -> Result<usize, NoMemory>
    ensures { IfOk result (λ count. count ≡ words.page_count spaces.now) }
{
    let mut count = 0usize;
    for space in spaces {
        count = plus(count, space.pages.len())?;
    }
    Ok(count)
}

fn plus(count: usize, more: usize) -> Result<usize, NoMemory>
    ensures { IfOk result (λ sum. sum ≡ count + more) }
{
    match count.checked_add(more) {
        Some(sum) => Ok(sum),
        None => Err(NoMemory),
    }
}

/// A slot after a space, where it is used.
fn slot_if(alloc: Global, used: bool, slot: u8) -> Result<String, AllocError>
    ensures { IfOk result (λ text. string_bytes text ≡ words.slot_if used slot) }
{
    if used {
        format!(in alloc; " {slot}")
    } else {
        Ok(String::new(alloc))
    }
}

fn outs_line(alloc: Global, used: &[bool; 240]) -> Result<String, AllocError>
    ensures { IfOk result (λ text. string_bytes text ≡ words.outs_line (λ slot. get_or used.now slot false)) }
{
    let mut text = String::from_str(alloc, "outs")?;
    for slot in 0..240u8 {
        text.push_str(slot_if(alloc, used[slot as usize], slot)?.as_str())?;
    }
    text.push_str("\n")?;
    Ok(text)
}

fn outs_text(alloc: Global, image: &Image) -> Result<String, AllocError>
    ensures { IfOk result (λ text. string_bytes text ≡ words.outs_line (words.uses image.now)) }
{
    outs_line(alloc, &image.outs())
}

fn count_lines(
    alloc: Global,
    version: u8,
    spaces: usize,
    objects: usize,
    pages: usize,
) -> Result<String, AllocError>
    ensures { IfOk result (λ text. string_bytes text ≡ words.count_lines version spaces objects pages) }
{
    format!(in alloc; "version {version}\nspaces {spaces}\nobjects {objects}\npages {pages}\n")
}

/// The version of an image, its numbers of spaces, of other objects and of pages, and the slots of the
/// nester whose ports it leads to, rising.
///
/// # Errors
///
/// There is no memory for the text.
pub fn show_text(alloc: Global, image: &Image) -> Result<String, NoMemory>
    ensures { IfOk result (λ text. string_bytes text ≡ words.shown image.now) }
{
    let spaces = image.spaces.as_slice();
    let objects = object_count(spaces)?;
    let pages = page_count(spaces)?;
    let mut text = count_lines(alloc, image.version(), spaces.len(), objects, pages)?;
    text.push_str(outs_text(alloc, image)?.as_str())?;
    Ok(text)
}
