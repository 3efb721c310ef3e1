//! What the lists of a cut determine: the cut itself, where threads are well shaped. The law is the contract of a function
//! that does nothing, and so is the example of what it needs.
//!
//! It stands on `fk_cut`, whose lists these are, and on `laws_moves::machine` and `fk_model`.

ghost use Rattle.std.specs.Prelude.{◌≡◌, [], ◌∷◌};
ghost use Rattle.fk_model.specs.Whole.{IsSavable};
ghost use Rattle.fk_model.specs.Cut.{cut};
ghost use Rattle.fk_cut.specs.Cuts.Shown.{IsShown};
ghost use Rattle.fk_cut.specs.Shown.Determined.{EqualListsAreEqualCuts};
ghost use Rattle.fk_cut.specs.Shown.Unshaped.{alone, lists};

/// Where two subtrees of worlds that can be saved are shown as the same lists, their cuts are the same:
/// no thread is cut into stages otherwise, and nothing is left out.
pub fn equal_lists_are_equal_cuts()
    ensures { EqualListsAreEqualCuts }
{}

/// Without the shapes of threads the lists don't determine the cut: the same lists show two threads that
/// are in a call but at none of its stages, and differ.
pub fn what_isnt_shaped_isnt_determined()
    ensures first { IsShown (cut (alone 0) [] 1) lists }
    ensures second { IsShown (cut (alone 7) [] 1) lists }
    ensures apart { cut (alone 0) [] 1 ≡ cut (alone 7) [] 1 → ⊥ }
    ensures unshaped { IsSavable (alone 0) → ⊥ }
{}
