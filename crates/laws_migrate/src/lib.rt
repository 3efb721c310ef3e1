//! The migration of a subtree from a slot of one kernel's root to the same slot of another's. Each law is the contract of a function that
//! does nothing.
//!
//! It stands on `laws_handover` for the protocol, on `laws_checkpoint` and `laws_restore` for both porters' jobs, on `laws_jobs` for their
//! calls among others' moves, on `laws_subtrees` for why a space isn't replaced, and on `fk_image` for images and their bytes. It promises,
//! over every list of ready events of two kernels, with packets lost, repeated and in any order, that the subtree and its copy never live
//! both unheld, that it is what it was wherever it is let go, and why it is kept.
//!
//! It doesn't say that one of them is let go in the end: where the near one is gone and the last packet is lost, the copy stays held.
#![tactic(auto)]

ghost use Rattle.laws_migrate.specs.Births.{SpentStays};
ghost use Rattle.laws_migrate.specs.Gathered.{GatheredImageIsSubtree, SavedIsHeld};
ghost use Rattle.laws_migrate.specs.Built.{UnboundIsSame, BuiltIsCopy, MadeIsHeld};
ghost use Rattle.laws_migrate.specs.Images.{ImagesAreRead};
ghost use Rattle.laws_migrate.specs.Laws.{NeverBothFree, MovedIsSame, KeptIsSame, KeptIsAlone, ForeignIsSame};
ghost use Rattle.laws_migrate.specs.Laws.{FailedSaysWhy, RefusedSaysWhy, CancelledSaysWhy};
ghost use Rattle.laws_migrate.specs.Places.{CallsHavePlaces};
ghost use Rattle.laws_migrate.specs.Starts.{SoundStartsMayMigrate};
ghost use Rattle.laws_migrate.specs.Fits.{CallsAreFit};
ghost use Rattle.laws_migrate.specs.Readies.{FirstIsReady, MigrationIsReady};
ghost use Rattle.laws_migrate.specs.Porters.{RootKeepsPorter, MigrationGoesOn};
ghost use Rattle.laws_migrate.specs.Bounded.{NearIsBounded, FarIsBounded, BothAreBounded};
ghost use Rattle.laws_migrate.specs.Clearing.{SubtreeIsDestroyed, ClearingIsReady};

/// A birth number that was given and that no space has is never given again.
pub fn a_number_comes_once()
    ensures { SpentStays }
{}

/// Whatever others do between its stages, a porter that destroys the subtree that it holds leaves nothing of it.
pub fn a_subtree_is_destroyed()
    ensures { SubtreeIsDestroyed }
{}

/// Its next stage is ready wherever nothing outside is held.
pub fn its_next_stage_is_ready()
    ensures { ClearingIsReady }
{}

/// Where only the release is left of a checkpoint that will be done, its image is valid and is the picture of the subtree at
/// the hold, which is closed, as it was, held, and such as its porter can destroy.
pub fn a_gathered_image_is_its_subtree()
    ensures { GatheredImageIsSubtree }
{}

/// While a checkpoint has a call to make its porter holds the very space that stood in the slot.
pub fn a_subtree_is_held_while_it_is_saved()
    ensures { SavedIsHeld }
{}

/// A subtree whose ports are bound to themselves is that subtree.
pub fn what_is_unbound_is_the_same()
    ensures { UnboundIsSame }
{}

/// Where only the release is left of a restore its copy stands, held, and such as its porter can destroy.
pub fn a_built_copy_stands()
    ensures { BuiltIsCopy }
{}

/// While a restore has a call to make its porter holds what stands in the slot.
pub fn a_copy_is_held_while_it_is_made()
    ensures { MadeIsHeld }
{}

/// A valid image is read from the pieces of its bytes once all have come, in any order and again, and from fewer nothing; what is read
/// is valid.
pub fn images_are_read()
    ensures { ImagesAreRead }
{}

/// Over every list of ready events, with packets lost, repeated and in any order: the space that stood in the slot at the hold, and
/// the one that the far restore has made, never live both where neither is held by its porter.
pub fn never_both_are_free<P>()
    ensures { NeverBothFree P }
{}

/// Where the copy is released its cut is what the near one's was at the hold, and that one is gone.
pub fn what_is_moved_is_the_same<P>()
    ensures { MovedIsSame P }
{}

/// Where the near one is released after it was cancelled its cut is what it was at the hold.
pub fn what_is_kept_is_the_same<P>()
    ensures { KeptIsSame P }
{}

/// Each call for which a porter asks is fit.
pub fn calls_are_fit<P>()
    ensures { CallsAreFit P }
{}

/// A restore's first call is ready wherever its porter stands and nothing outside its slot is held.
pub fn a_first_call_is_ready()
    ensures { FirstIsReady }
{}

/// From the hold on, until it is over, a porter's call is ready wherever every packet that was sent has come and nothing outside the
/// two subtrees is held.
pub fn a_migration_is_ready<P>()
    ensures { MigrationIsReady P }
{}

/// No move of a user or a native server takes the root's porter away.
pub fn a_root_keeps_its_porter()
    ensures { RootKeepsPorter }
{}

/// A porter's call is ready wherever the far root had its porter at the beginning, whatever was done before the copy is made.
pub fn a_migration_goes_on<P>()
    ensures { MigrationGoesOn P }
{}

/// Ended or not, the near porter makes at most 101 (n + 1) (d + 1) calls, where the subtree had n bodies and pages at the hold, none
/// deeper than d.
pub fn the_near_porter_is_bounded<P>()
    ensures { NearIsBounded P }
{}

/// Where the subtree isn't closed its cut after the release is what it was at the hold, and the first place says why.
pub fn what_is_foreign_is_the_same<P>()
    ensures { ForeignIsSame P }
{}

/// A checkpoint that has failed says why, as it was at the hold.
pub fn what_has_failed_says_why<P>()
    ensures { FailedSaysWhy P }
{}

/// Once the near one is kept, whatever comes after it, no copy that the far restore has made is ever free.
pub fn what_is_kept_is_alone<P>()
    ensures { KeptIsAlone P }
{}

/// One that was cancelled was given up; or the far restore has ended without a copy, for the reason that it says.
pub fn what_is_cancelled_says_why<P>()
    ensures { CancelledSaysWhy P }
{}

/// A far restore that has ended without a copy says why: its slot was taken, or there was no port in a slot to which the image leads out.
pub fn what_is_refused_says_why<P>()
    ensures { RefusedSaysWhy P }
{}

/// The near world at the hold, and the far one at the make, are those before the first call of a porter among its kernel's moves.
pub fn calls_have_places<P>()
    ensures { CallsHavePlaces P }
{}

/// Ended or not, the far porter makes at most 41 (n + 1) (d + 1) calls.
pub fn the_far_porter_is_bounded<P>()
    ensures { FarIsBounded P }
{}

/// Both porters together make at most 142 (n + 1) (d + 1) calls.
pub fn both_porters_are_bounded<P>()
    ensures { BothAreBounded P }
{}

/// Between two sound starts a subtree may move in which no nester and no server lies.
pub fn sound_starts_may_migrate()
    ensures { SoundStartsMayMigrate }
{}
