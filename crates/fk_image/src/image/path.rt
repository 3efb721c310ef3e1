//! The open path: where the next space may stand. It is a stack of the last space and those above it, the last one
//! first. Each space that it leaves is closed for good, so all steps on it are at most two for each space of an image.
ghost use Rattle.std.specs.Prelude.{◌≡◌, ◌∷◌, [], OnOk};
ghost use Rattle.fk_image.specs.Image.Preorder as preorder;
ghost use Rattle.fk_image.specs.Image.Paths as paths;

use crate::image::open::Open;
use fk_model::NoMemory;
use fk_stack::Stack;

/// The lowest slot of a space in which a space may follow. None where it isn't on the path. The path then
/// begins at that space.
///
/// # Errors
///
/// There is no memory for the path.
#[tactic(auto, unfolding(crate::specs::Image::Preorder::from))]
pub fn room_under(path: &mut Stack<Open>, space: u32) -> Result<Option<u16>, NoMemory>
    ensures { paths.Rooms result path.old path.new space }
{
    while let Some(one) = path.pop() {
        if one.space == space {
            path.push(one)?;
            return Ok(Some(one.floor));
        }
    }
    Ok(None)
}

/// Enters a space with this number in a slot of the path's last space.
///
/// # Errors
///
/// There is no memory for the path.
pub fn enter(path: &mut Stack<Open>, number: u32, slot: u8) -> Result<(), NoMemory>
    ensures { OnOk result (path.new ≡ preorder.after_entering number slot path.old) }
{
    if let Some(one) = path.pop() {
        path.push(Open {
            space: one.space,
            floor: u16::from(slot) + 1,
        })?;
        path.push(Open {
            space: number,
            floor: 0,
        })?;
    }
    Ok(())
}
