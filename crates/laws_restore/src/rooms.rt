//! The rooms of an image, and that each valid image can be built: laws without code, each the contract of a function that does
//! nothing.
//!
//! An image's rooms are its spaces in its own order, each with its objects and pages as the image's picture has them. For a valid
//! image they list its picture as a restorer asks for it, so whatever the laws of restores say holds of every valid image.
//!
//! It stands on `laws_restore` for rooms and restores, and on `laws_pictures` for images and their pictures.

ghost use Rattle.laws_restore.specs.Rooms.Rooms.{ValidIsRoomed};
ghost use Rattle.laws_restore.specs.Rooms.Restoring.{ImageIsRestored, ImageRestoreEndsSo, ImageRestoreIsOwed, ImageRestoreIsBounded};

/// The rooms of a valid image list its picture, such as a restorer asks for: each valid image can be built.
pub fn valid_images_are_roomed()
    ensures { ValidIsRoomed }
{}

/// The restore of a valid image in a user's slot, its ports bound to users' slots: done, it leaves a plain subtree that is the
/// image's picture with its ports bound.
pub fn images_are_restored()
    ensures { ImageIsRestored }
{}

/// It ends so: the subtree stands unheld where nothing stood; its slot was taken and nothing was done; or a port was missing.
pub fn image_restores_end_so()
    ensures { ImageRestoreEndsSo }
{}

/// Each of its calls is owed to the world in which it is made.
pub fn image_restores_calls_are_owed()
    ensures { ImageRestoreIsOwed }
{}

/// With n bodies and pages, none deeper than d, it makes at most 40 (n + 1) (d + 1) calls, however it ends.
pub fn image_restores_are_bounded()
    ensures { ImageRestoreIsBounded }
{}
