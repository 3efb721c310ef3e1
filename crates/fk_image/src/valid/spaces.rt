//! Whether spaces fit, and images are valid.
ghost use Rattle.std.specs.Prelude.{◌≡◌, length, take, IfOk};
ghost use Rattle.std.specs.Bool.{OnTrue};
ghost use Rattle.fk_image.specs.Image.Links.{all_lead};
ghost use Rattle.fk_image.specs.Image.Preorder.{path_after};
ghost use Rattle.fk_image.specs.Image.Preorder as preorder;
ghost use Rattle.fk_image.specs.Image.Valid as words;

use crate::image::{Image, Link, Open, SpaceRec, enter, kind_in_space, room_under};
use crate::pointers::{PointerFail, check_links};
use crate::valid::objects::{fits_link, fits_objects, fits_pages};
use fk_model::NoMemory;
use fk_stack::Stack;
use std::alloc::Global;

fn is_first(space: &SpaceRec) -> bool
    ensures { result ≡ words.is_first space.now }
{
    space.parent == u32::MAX && space.slot == 0 && matches!(space.holder, Link::Null)
}

/// Whether a space may follow others. The path then begins at its parent.
fn is_next(done: &[SpaceRec], path: &mut Stack<Open>, space: &SpaceRec) -> Result<bool, NoMemory>
    ensures next { IfOk result (λ next. next ≡ words.is_next done.now path.old space.now) }
    ensures path { IfOk result (λ next. path.new ≡ preorder.from space.now.parent path.old) }
{
    let room = match room_under(path, space.parent)? {
        Some(floor) => u16::from(space.slot) >= floor,
        None => false,
    };
    Ok(
        space.slot < 240
            && room
            && kind_in_space(done, space.parent, space.slot).is_none()
            && fits_link(space.holder),
    )
}

/// Whether a space stands where it may, behind as many others as its number says.
fn stands_in_order(
    done: &[SpaceRec],
    number: u32,
    path: &mut Stack<Open>,
    space: &SpaceRec,
) -> Result<bool, NoMemory>
    requires { number ≡ length done.now }
    ensures placed { IfOk result (λ placed. placed ≡ words.stands_in_order done.now path.old space.now) }
    ensures path { IfOk result (λ placed. path.new ≡ path_after done.now space.now path.old) }
{
    match done {
        [] => Ok(is_first(space)),
        [_, ..] => {
            let placed = is_next(done, path, space)?;
            enter(path, number, space.slot)?;
            Ok(placed)
        }
    }
}

fn fits_space(
    done: &[SpaceRec],
    number: u32,
    path: &mut Stack<Open>,
    space: &SpaceRec,
) -> Result<bool, NoMemory>
    requires { number ≡ length done.now }
    ensures fits { IfOk result (λ fits. fits ≡ words.fits_space (done.now, path.old) space.now) }
    ensures path { IfOk result (λ fits. path.new ≡ path_after done.now space.now path.old) }
{
    let placed = stands_in_order(done, number, path, space)?;
    Ok(placed && fits_objects(space.objects.as_slice()) && fits_pages(space.pages.as_slice()))
}

fn fits_spaces(alloc: Global, spaces: &[SpaceRec]) -> Result<bool, NoMemory>
    ensures { IfOk result (λ fits. fits ≡ words.fits_spaces spaces.now) }
{
    let Ok(count) = u32::try_from(spaces.len()) else {
        return Ok(false);
    };
    let mut path = Stack::new(alloc);
    path.push(Open { space: 0, floor: 0 })?;
    for number in 0..count {
        let at = number as usize;
        if !fits_space(&spaces[..at], number, &mut path, &spaces[at])? {
            return Ok(false);
        }
    }
    Ok(count > 0)
}

fn leads(alloc: Global, spaces: &[SpaceRec]) -> Result<bool, NoMemory>
    ensures { IfOk result (λ lead. lead ≡ all_lead spaces.now) }
{
    match check_links(alloc, spaces) {
        Ok(()) => Ok(true),
        Err(PointerFail::Wrong(_)) => Ok(false),
        Err(PointerFail::NoMemory) => Err(NoMemory),
    }
}

/// Whether an image is valid: it has a spelling, and its pointers lead to what their fields may hold.
///
/// # Errors
///
/// There is no memory for what the look keeps.
#[tactic(auto, unfolding(crate::specs::Image::Valid::is_valid))]
pub fn is_valid(alloc: Global, image: &Image) -> Result<bool, NoMemory>
    ensures { IfOk result (λ valid. valid ≡ words.is_valid image.now) }
{
    let spaces = image.spaces.as_slice();
    Ok(fits_spaces(alloc, spaces)? && leads(alloc, spaces)?)
}
