//! The restorer's script, and what it makes over every interleaving with others' moves: laws without code, each the contract of
//! a function that does nothing.
//!
//! A subtree that is seen alone is listed by its *rooms*, its spaces with what stands in each. The script makes the spaces, fills
//! them, leads their pointers, those that lead out by rising slots of the nester, ties talks and faults, and gives spaces inside
//! their holders; then it drops its scratch. Worlds between its passes are given by *masks*, which say which pointers are led.
//!
//! It stands on `sites`, which says what orders make of a site whatever others do between them.

ghost use Rattle.laws_restore.specs.Restore.Laws.{ScriptMakes, RestoresPicture, NeverLost};
ghost use Rattle.laws_restore.specs.Restore.Example.{SmallIsRoomed, OneScript};
ghost use Rattle.laws_restore.specs.Restore.Ends.{RestoreEndsSo, RestoreIsOwed, RestoreMeetsContract, RestoreIsCounted, RestoreRestores};
ghost use Rattle.laws_restore.specs.Restore.Exact.{RestoreIsReady, NoPortIsExact};
ghost use Rattle.laws_restore.specs.Restore.Rest.{RestoreLeavesFar, LastCallIsKnown, OccupiedIsExact};
ghost use Rattle.laws_restore.specs.Restore.Bounded.{ScriptIsBounded, RestoreIsBounded};

/// The script of a subtree may be given to a new space order by order, and makes that subtree with its ports bound.
pub fn a_script_makes_the_subtree()
    ensures { ScriptMakes }
{}

/// Whatever others do between its calls, a restorer that comes to its end has made the subtree, and left no scratch.
pub fn a_restorer_makes_the_subtree()
    ensures { RestoresPicture }
{}

/// It never gets an answer for which it has no end.
pub fn a_restorer_is_never_lost()
    ensures { NeverLost }
{}

/// A restore ends so: its slot was empty and the subtree stands there unheld; or it was empty, a port was missing and nothing
/// stands there again; or it was taken and nothing was done.
pub fn a_restore_ends_so()
    ensures { RestoreEndsSo }
{}

/// Each call of a restore is owed: fit, of a porter's words, and such as leaves a world that can be saved.
pub fn a_restores_calls_are_owed()
    ensures { RestoreIsOwed }
{}

/// A restore meets a job's contract: its calls are owed, its porter stays while it has one to make, and no scratch is left at its end.
pub fn a_restore_meets_the_contract()
    ensures { RestoreMeetsContract }
{}

/// Its next call is ready wherever its porter is free and no space outside the new one is held.
pub fn a_restores_next_call_is_ready()
    ensures { RestoreIsReady }
{}

/// It ends for want of a port exactly where it leads to a slot of the nester in which none stands, and tells the lowest slot of
/// the image that is bound there.
pub fn a_missing_port_is_told_exactly()
    ensures { NoPortIsExact }
{}

/// It is told that its slot is taken exactly where it was.
pub fn a_taken_slot_is_told_exactly()
    ensures { OccupiedIsExact }
{}

/// Its last call is the release, a stage of destroying its new space, or its first call itself.
pub fn a_restores_last_call_is_known()
    ensures { LastCallIsKnown }
{}

/// Each of its calls leaves all that is neither in its new space nor its nester's scratch, those that destroy the new space again too.
pub fn a_restore_leaves_the_rest()
    ensures { RestoreLeavesFar }
{}

/// What a run wants of a restore that is done: a plain subtree, which is the picture with its ports bound.
pub fn a_restore_restores()
    ensures { RestoreRestores }
{}

/// A small subtree with a talk, a fault, a hold, a page and pointers of each sort is such as the laws suppose.
pub fn a_small_subtree_is_roomed()
    ensures { SmallIsRoomed }
{}

/// The script of a space with one reference out, order by order.
pub fn the_script_of_one_reference()
    ensures { OneScript }
{}

/// A restore makes no more calls than its script has orders, and as many more as it takes to clear.
pub fn a_restores_calls_are_counted()
    ensures { RestoreIsCounted }
{}

/// The script of n bodies and pages, none deeper than d, has at most 30 (n + 1) (d + 1) orders.
pub fn a_script_is_bounded()
    ensures { ScriptIsBounded }
{}

/// Its restore makes at most 40 (n + 1) (d + 1) calls, however it ends.
pub fn a_restore_is_bounded()
    ensures { RestoreIsBounded }
{}
