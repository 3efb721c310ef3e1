//! Which images are valid, and the first fault of bytes that are none, by the form of an image alone: each law is the
//! contract of a function that does nothing.
//!
//! It stands on `fk_image`: on its form of records (`specs/Form`), its test of validity, and its `format`, whose readings
//! tell the fault. `specs/Forms.antt` says what it is that bytes hold fields of a form up to a place and for what reason no
//! further, `specs/Images.antt` has the form of an image. No reader and no open path is in either.
#![tactic(auto)]

ghost use Rattle.laws_image_faults.specs.Faults.{FaultsAreFirst, BreaksAreTold, FirstsAreTold};
ghost use Rattle.laws_image_faults.specs.Formed.{SizesAreLengths, ValidIsFormed, WrongIsFirst};

/// Whatever fault is told of bytes, it is their first: the bytes before its offset are fields of an image,
/// each of which holds what it may, and at it stands none that comes next, which is refused for the reason that is told; or
/// they are the whole form, and the first pointer that is wrong stands there, or bytes are left.
pub fn faults_are_first()
    ensures { FaultsAreFirst }
{}

/// Where bytes break the form of an image, that offset is told, and the reason for which they break it.
pub fn breaks_are_told()
    ensures { BreaksAreTold }
{}

/// An image is valid exactly where it has the form that its records show: each number is in its range,
/// objects and pages rise, each space may come right behind those before it, and no pointer is wrong.
pub fn valid_is_formed()
    ensures { ValidIsFormed }
{}

/// The walk over the pointers of spaces that stand in order finds exactly the first place where one is
/// wrong, by what each field may hold and by the sizes of records, and none where none is.
pub fn wrong_is_first()
    ensures { WrongIsFirst }
{}

/// Where a fault is the first of bytes, by their form and by that of their records, it is told.
pub fn firsts_are_told()
    ensures { FirstsAreTold }
{}

/// The sizes by which an offset is reckoned are those of the bytes.
pub fn sizes_are_lengths()
    ensures { SizesAreLengths }
{}
