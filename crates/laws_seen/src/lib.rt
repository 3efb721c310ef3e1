//! Whatever a move does, a subtree sees it in one of three ways. The law is the contract of a function that does nothing.
//!
//! It stands on `fk_model`, whose definition of how a subtree sees a move it is about. `laws_runs` says the same of a history's moves.
#![tactic(auto)]

ghost use Rattle.laws_seen.specs.Ways.{WhatIsntOtherIsOnwardOrUnseen};

/// A move that isn't seen as something else is seen as a step onward, or isn't seen. Where no row of the
/// table fits, that rests on bodies that can be compared: a cut that can't differ is the same.
pub fn what_isnt_other_is_onward_or_unseen()
    ensures { WhatIsntOtherIsOnwardOrUnseen }
{}
