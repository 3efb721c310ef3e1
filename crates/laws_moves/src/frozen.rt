//! What stays of a subtree while another decides over it, and what users can touch at all. Each law is the contract of a
//! function that does nothing.
//!
//! It stands on `fk_model`, whose definitions the laws are about, on `rows` for what moves list, and on `machine`.

ghost use Rattle.laws_moves.specs.Frozen.Frozen.{FrozenSubtreeStays, FrozenCutStays};
ghost use Rattle.laws_moves.specs.Frozen.Users.{UsersNameLow};
ghost use Rattle.laws_moves.specs.Frozen.Holding.{OthersKeepHold};
ghost use Rattle.laws_moves.specs.Frozen.Once.{UsersTouchOnce};
ghost use Rattle.laws_moves.specs.Frozen.Slots.{UsersKeepSlots};

/// A ready move of one who doesn't decide over a held subtree leaves its bodies, its pages, and the
/// kinds of what its pointers lead to.
#[tactic(auto, using(crate::proofs::InFrozen::FrozenLaws::frozen_subtree_stays))]
pub fn a_frozen_subtree_stays()
    ensures { FrozenSubtreeStays }
{}

/// It leaves the subtree's cut.
#[tactic(auto, using(crate::proofs::InFrozen::FrozenLaws::frozen_cut_stays))]
pub fn a_frozen_cut_stays()
    ensures { FrozenCutStays }
{}

/// Users and native servers name no slot above 239, make no porter, and hold no space above one that
/// a porter holds.
#[tactic(auto, using(crate::proofs::InFrozen::Users::users_name_low))]
pub fn users_name_low()
    ensures { UsersNameLow }
{}

/// No move of a user or a native server changes what a porter at work stands on: its hold, its mode,
/// its scratch, and that nobody decides above it.
pub fn others_keep_a_porters_hold()
    ensures { OthersKeepHold }
{}

/// Of the changes of a move of a user or a native server at most one makes, destroys or renames an
/// object, or sets a pointer. What it makes is new.
pub fn users_touch_pointers_once()
    ensures { UsersTouchOnce }
{}

/// After a move of a user or a native server porters stand in last slots alone, references alone in
/// those of scratch, and no porter elsewhere, if it was so before.
pub fn users_keep_slots()
    ensures { UsersKeepSlots }
{}
