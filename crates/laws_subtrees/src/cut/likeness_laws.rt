//! The laws of likeness, each the contract of a function that does nothing.
ghost use Rattle.laws_subtrees.specs.Cut.LikenessLaws.{CutIsLikeness, CutIsServedAlike, LikenessIsCutWorld, RebindingIsLikeness, LikenessReadsAlike, LikenessHoldsAlike};
ghost use Rattle.laws_subtrees.specs.Cut.LikenessLaws.{LikenessServesAlike, LockActsAlike, LikenessStays, CutChangesAlike, PlainStays};

/// A subtree that leads nowhere but inside and to its nester's ports, seen alone, is a likeness of its world: the same
/// objects and pages, with paths from its root and its outward ports by their slots. In a valid world servers are found
/// alike in it.
pub fn cut_is_likeness()
    ensures like { CutIsLikeness }
    ensures served { CutIsServedAlike }
{}

/// What a subtree that is seen alone is like, every likeness is like: it is its own likeness.
pub fn likeness_is_cut_world()
    ensures { LikenessIsCutWorld }
{}

/// A subtree that is seen alone, with other outward ports, is a likeness of what it was.
pub fn rebinding_is_likeness()
    ensures { RebindingIsLikeness }
{}

/// Objects, handles, places, pages, threads, talks and faults are read alike in a likeness, and what lies in and beneath
/// its spaces is found alike.
pub fn likeness_reads_alike()
    ensures { LikenessReadsAlike }
{}

/// Where nothing at or above its root is held, who is held, free, or a candidate of a wait is so in a likeness.
pub fn likeness_holds_alike()
    ensures { LikenessHoldsAlike }
{}

/// The client of a server, and the thread whose fault it has taken, are found alike in a likeness, and so is the talk in
/// which a thread acts on either side.
pub fn likeness_serves_alike()
    ensures { LikenessServesAlike }
{}

/// A lock that is refused is refused alike in a likeness, and one that goes locks the same mutex.
pub fn lock_acts_alike()
    ensures { LockActsAlike }
{}

/// A likeness stays one where each of its changes stands for the change of its world.
pub fn likeness_stays()
    ensures { LikenessStays }
{}

/// What changes in a plain subtree changes alike in the subtree seen alone, and the subtree stays plain, if no thread in it
/// comes to serve one outside.
pub fn cut_changes_alike()
    ensures changes { CutChangesAlike }
    ensures plain { PlainStays }
{}
