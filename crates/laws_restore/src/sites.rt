//! What a restorer builds, over every interleaving: laws without code, each the contract of a function that does nothing.
//!
//! A restorer knows its calls from its image. What it has made so far is a *site*: the subtree seen alone, to what its scratch
//! references lead, and its pin in the new space. Each of its *orders* asks for one call and makes of a site another; what others do
//! between the calls leaves the site. So whoever gives orders that a site may take has built, at their end, what the orders make of
//! the site, and a port is missed exactly where none stands in its slot.
//!
//! It stands on `laws_jobs`, whose machines and interleavings it speaks of, and on `laws_subtrees::cut` for how a subtree is seen.
//! `laws_restore` gives the orders that make an image's picture.

ghost use Rattle.laws_restore.specs.Sites.Fit.{ServesNobody};
ghost use Rattle.laws_restore.specs.Sites.Begun.{Begins};
ghost use Rattle.laws_restore.specs.Sites.Looking.{TakesKeepLooks, PinsTell, OthersKeepLooks, ChecksTell};
ghost use Rattle.laws_restore.specs.Sites.Ready.{NextIsReady, Releases, ReleasesPlain};
ghost use Rattle.laws_restore.specs.Sites.Near.{OwnCallsAreNear, NewSpaceIsUnled, OthersKeepNewUnled, NearCallsKeepUnled};
ghost use Rattle.laws_restore.specs.Sites.Owed.{OrdersAreOwed};
ghost use Rattle.laws_restore.specs.Sites.Laws.{BuiltIsCut, RestoresBuilt, NeverLost, PlacesAreNamed, CallsBounded, OthersKeepSites};

/// A restorer makes no more calls than it has orders.
pub fn calls_are_bounded()
    ensures { CallsBounded }
{}

/// Others keep the site at which a restorer stands.
pub fn others_keep_a_site()
    ensures { OthersKeepSites }
{}

/// A place that a site names is named so in the world.
pub fn places_are_named()
    ensures { PlacesAreNamed }
{}

/// Whatever others do between its calls, a restorer that comes to its end has built what its orders say.
pub fn a_restore_builds_its_orders()
    ensures { RestoresBuilt }
{}

/// It never gets an answer for which it has no end.
pub fn a_restore_is_never_lost()
    ensures { NeverLost }
{}

/// Without a pin, what a site has built is the subtree seen alone.
pub fn what_is_built_is_the_cut()
    ensures { BuiltIsCut }
{}

/// Its first call makes an empty space in a free slot, or is told that the slot is taken and changes nothing.
pub fn a_restore_begins()
    ensures { Begins }
{}

/// Led to a slot of the nester, the pin leads to a port there exactly where one stands there.
pub fn a_pin_tells()
    ensures { PinsTell }
{}

/// Others keep that.
pub fn others_keep_what_a_pin_tells()
    ensures { OthersKeepLooks }
{}

/// The call that leads scratch to a slot keeps what the pin there tells.
pub fn scratch_keeps_what_a_pin_tells()
    ensures { TakesKeepLooks }
{}

/// The look is answered so.
pub fn a_look_tells_what_the_pin_tells()
    ensures { ChecksTell }
{}

/// Its next call is ready wherever its porter is free and no space outside its subtree is held.
pub fn the_next_call_is_ready()
    ensures { NextIsReady }
{}

/// Its release leaves what was built, with its root unheld.
pub fn a_restore_is_released()
    ensures { Releases }
{}

/// A thread inside serves nobody in the whole world, where nobody inside is seen to be served by it.
pub fn a_thread_inside_serves_nobody()
    ensures { ServesNobody }
{}

/// A restorer's calls change its new subtree and its scratch, and nothing else but what led to an object that they destroy.
pub fn own_calls_change_what_is_near()
    ensures { OwnCallsAreNear }
{}

/// Nobody outside leads into a space that was just made.
pub fn nobody_leads_into_a_new_space()
    ensures { NewSpaceIsUnled }
{}

/// Nobody outside comes to lead in while others move.
pub fn others_come_not_to_lead_in()
    ensures { OthersKeepNewUnled }
{}

/// Nobody outside comes to lead in by the restorer's own calls.
pub fn own_calls_lead_nobody_in()
    ensures { NearCallsKeepUnled }
{}

/// Where nobody leads in, the call of each order that suits is owed: fit, with words such as a porter gives, and leaving the world
/// such as can be saved.
pub fn orders_are_owed()
    ensures { OrdersAreOwed }
{}

/// Where nobody leads in, what a restorer releases is plain.
pub fn a_released_subtree_is_plain()
    ensures { ReleasesPlain }
{}
