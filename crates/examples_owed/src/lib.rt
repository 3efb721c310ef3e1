//! Worked examples: what a porter's call owes, so that a world stays savable, and that without it one doesn't. Each example
//! is the contract of a function that does nothing, proved by computing both sides.
#![tactic(auto)]

ghost use Rattle.fk_model.specs.Runs.{after};
ghost use Rattle.fk_model.specs.Whole.{IsWhole, IsSavable};
ghost use Rattle.laws_moves.specs.Whole.Runnable.{IsProper};
ghost use Rattle.examples_moves.specs.Worked.{IsReadyTo};
ghost use Rattle.laws_moves.specs.Savable.Savable.{Owes};
ghost use Rattle.examples_owed.specs.Owed.{leads_within, leads_outside, unheld, scratched, scratched_unheld, scratched_deeper, with_register, with_counter};
ghost use Rattle.examples_owed.specs.Owed.{with_moved, with_missing, with_word, gives_hold, makes_in, makes_within, releases, makes_held_in, destroys_in};
ghost use Rattle.examples_owed.specs.Owed.{renames_from};

/// A whole and savable world in which a porter makes proper calls, and gives what they owe: it
/// holds by itself, makes references in its scratch and users' objects elsewhere, and destroys these.
/// It is ready to set the hold, and the world can be saved afterwards.
pub fn a_porter_gives_what_it_owes()
    ensures whole { IsWhole leads_outside }
    ensures savable { IsSavable leads_outside }
    ensures proper { IsProper leads_outside gives_hold }
    ensures hold { Owes leads_outside gives_hold }
    ensures mutex { Owes leads_outside (makes_in 3 1) }
    ensures reference { Owes leads_outside (makes_in 241 9) }
    ensures space { Owes leads_outside (makes_held_in 3) }
    ensures within { Owes leads_outside (makes_within 240 9) }
    ensures releases { Owes leads_outside releases }
    ensures clears { Owes leads_outside (destroys_in 240) }
    ensures destroys { Owes leads_outside (destroys_in 1) }
    ensures renames { Owes leads_outside (renames_from 8) }
    ensures ready { IsReadyTo leads_outside gives_hold }
    ensures after { IsSavable (after leads_outside gives_hold) }
    ensures made_within { IsSavable (after leads_outside (makes_within 240 9)) }
{}

/// Scratch may stand in a space that the porter beside it holds; not in one that nobody holds, in one
/// further in whose holder is no porter, or where the hold is given up.
pub fn scratch_is_a_porters()
    ensures held { IsSavable scratched }
    ensures unheld { IsSavable scratched_unheld → ⊥ }
    ensures deeper { IsSavable scratched_deeper → ⊥ }
    ensures makes_owes { Owes unheld (makes_within 240 9) → ⊥ }
    ensures makes { IsSavable (after unheld (makes_within 240 9)) → ⊥ }
    ensures releases_owes { Owes scratched releases → ⊥ }
    ensures releases { IsSavable (after scratched releases) → ⊥ }
{}

/// The greatest numbers that an image holds can be saved, and no greater ones: of a register, a counter,
/// a word of a page, the words moved in a turn, and the page of a fault.
pub fn numbers_that_an_image_holds()
    ensures register { IsSavable (with_register 0xffff_ffff_ffff_ffff) }
    ensures register_above { IsSavable (with_register 0x1_0000_0000_0000_0000) → ⊥ }
    ensures counter { IsSavable (with_counter 0xffff_ffff_ffff_ffff) }
    ensures counter_above { IsSavable (with_counter 0x1_0000_0000_0000_0000) → ⊥ }
    ensures word { IsSavable (with_word 0xffff_ffff_ffff_ffff) }
    ensures word_above { IsSavable (with_word 0x1_0000_0000_0000_0000) → ⊥ }
    ensures moved { IsSavable (with_moved 65535) }
    ensures moved_above { IsSavable (with_moved 65536) → ⊥ }
    ensures missing { IsSavable (with_missing 255) }
    ensures missing_above { IsSavable (with_missing 256) → ⊥ }
{}

/// A holder that lives within isn't owed, and with it the world can't be saved, though it could before.
pub fn a_holder_that_lives_within()
    ensures whole { IsWhole leads_within }
    ensures savable { IsSavable leads_within }
    ensures proper { IsProper leads_within gives_hold }
    ensures owes { Owes leads_within gives_hold → ⊥ }
    ensures after { IsSavable (after leads_within gives_hold) → ⊥ }
{}

/// A world can't be saved with a mutex or a space in a slot of scratch, without the porter at whose port a talk is parked, or with the scratch in a
/// slot of a user's and the porter there.
pub fn what_a_porter_may_not_leave()
    ensures mutex_owes { Owes leads_outside (makes_in 241 1) → ⊥ }
    ensures mutex { IsSavable (after leads_outside (makes_in 241 1)) → ⊥ }
    ensures space_owes { Owes leads_outside (makes_held_in 241) → ⊥ }
    ensures space { IsSavable (after leads_outside (makes_held_in 241)) → ⊥ }
    ensures porter_owes { Owes leads_outside (destroys_in 255) → ⊥ }
    ensures porter { IsSavable (after leads_outside (destroys_in 255)) → ⊥ }
    ensures renamed_owes { Owes leads_outside (renames_from 255) → ⊥ }
    ensures renamed { IsSavable (after leads_outside (renames_from 255)) → ⊥ }
{}
