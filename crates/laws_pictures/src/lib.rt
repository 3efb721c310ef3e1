//! Images and what they stand for, by paths: laws without code, each the contract of a function that does nothing.
//!
//! The spaces of a valid image are a tree, in which a space has one number and one path; its picture is a world such as a subtree
//! that is seen alone. And back: a subtree of a whole and savable world, closed and without a porter, is the picture of a valid image.
//!
//! It stands on `fk_model` and `fk_image`, whose definitions the laws are about, on `laws_moves::machine`, `laws_subtrees::cut` and `laws_subtrees::further`.
//! Checkpoints rest on the way back, restores on the way from an image.
#![tactic(auto)]

ghost use Rattle.laws_pictures.specs.Imaged.{PictureOfImage, ImageLeads, ImageIsValid};
ghost use Rattle.laws_pictures.specs.Pictured.{PictureIsCutWorld};
ghost use Rattle.laws_pictures.specs.Saved.{SubtreeIsSound, SubtreeHasImage, PicturesHaveWords};
ghost use Rattle.laws_pictures.specs.Tree.{ValidIsTree, NumbersArePaths};

/// A valid image's spaces are a tree: each lies in an earlier one, no two in one slot, and none where an
/// object is.
pub fn valid_images_are_trees()
    ensures { ValidIsTree }
{}

/// In a tree the numbers and the paths of spaces are inverse.
pub fn numbers_are_paths()
    ensures { NumbersArePaths }
{}

/// The picture of a valid image is a world as a subtree that is seen alone is.
pub fn pictures_are_cut_worlds()
    ensures { PictureIsCutWorld }
{}

/// The image of a subtree that is seen alone has that subtree as its picture.
pub fn images_are_pictured()
    ensures { PictureOfImage }
{}

/// The pointers of such an image lead to what their fields may hold.
pub fn images_lead()
    ensures { ImageLeads }
{}

/// Such an image is valid, where the subtree's numbers are in range and a thread serves once.
pub fn images_are_valid()
    ensures { ImageIsValid }
{}

/// A plain subtree of a whole and savable world, without porters and scratch, is such as an image needs.
pub fn subtrees_are_sound()
    ensures { SubtreeIsSound }
{}

/// Where its numbers are in range it has a valid image, whose picture is the subtree seen alone.
pub fn subtrees_have_images()
    ensures { SubtreeHasImage }
{}

/// That its numbers are in range is needed: no valid image's picture has a register that is no word.
pub fn pictures_have_words()
    ensures { PicturesHaveWords }
{}
