//! A pager is unseen. It takes the pages of a space into a list of its own and gives one back where a thread misses it. What users and native servers do
//! meanwhile is what they do in the filled world, in which every page of the list is home and nobody waits for one.
//!
//! It stands on `fk_model`, whose definitions the laws are about. What a pager's code does is here by its answers alone.
//!
//! - a move that neither peeks at pages nor raises a fault of the pager's comes to the same in the filled world; one that raises such a fault leaves it;
//! - so a run of a pager and of others, without the pager's moves and these faults, is a run of the filled world, from the first world on;
//! - the opening takes every page that was home, in two calls a page and one; a fault ends with its page home, after at most five calls.
#![tactic(auto)]

ghost use Rattle.laws_filled.specs.Heard.{ServersHearAlike};
ghost use Rattle.laws_filled.specs.Pager.{CallsAreFew, FaultsEndAtHome, NoFaultIsLeft, OpeningIsShort, OpeningTakesAll};
ghost use Rattle.laws_filled.specs.Pager.{PagersTakeOne, PagersAreHidden, PagersAreUnseen};
ghost use Rattle.laws_filled.specs.Laws.{FilledMovesAlike, NamesLeadAlike, PagingStays, PortsAreServedAlike, RaisesAreUnseen, TalksEndAlike, UnseenEndsNoTalk};

/// A ready move that neither peeks nor raises a fault of the pager's is a ready move of the filled world.
pub fn filled_moves_alike()
    ensures { FilledMovesAlike }
{}

/// One that raises such a fault leaves the filled world.
pub fn raises_are_unseen()
    ensures { RaisesAreUnseen }
{}

/// A move that doesn't peek leaves what a pager asks of the world, and which pages are home.
pub fn paging_stays()
    ensures { PagingStays }
{}

/// The moves of others among those of a pager are a run of their own in the filled world.
pub fn pagers_are_unseen()
    ensures { PagersAreUnseen }
{}

/// From a world in which nobody has a fault these are a run of that very world, and few pages are home.
pub fn pagers_are_hidden()
    ensures { PagersAreHidden }
{}

/// The opening takes every page that was home, and no other.
pub fn opening_takes_all()
    ensures { OpeningTakesAll }
{}

/// Names lead to the same in the filled world, ports are served alike, and native servers lose their clients by the same moves; what leaves the filled world
/// leaves each its client.
#[tactic(auto, using(crate::proofs::Servers::names_lead_alike_lem, crate::proofs::Servers::ports_are_served_alike_lem, crate::proofs::Servers::talks_end_alike_lem, crate::proofs::Servers::unseen_ends_no_talk_lem))]
pub fn servers_see_alike()
    ensures names { NamesLeadAlike }
    ensures ports { PortsAreServedAlike }
    ensures talks { TalksEndAlike }
    ensures unseen { UnseenEndsNoTalk }
{}

/// Along a pager's run native servers hear what they hear along the run without it in the filled world.
pub fn servers_hear_alike()
    ensures { ServersHearAlike }
{}

/// A pager has taken no fault while it waits, and one at most while it works on one.
pub fn pagers_take_one()
    ensures { PagersTakeOne }
{}

/// Where none of its moves is ready, and nothing is held, a pager waits, and no fault of its own is left.
pub fn no_fault_is_left()
    ensures { NoFaultIsLeft }
{}

/// A pager makes at most five calls for each fault that it takes, besides those that are refused HELD.
pub fn calls_are_few()
    ensures { CallsAreFew }
{}

/// As a pager ends a fault the page of that fault is home.
pub fn faults_end_at_home()
    ensures { FaultsEndAtHome }
{}

/// The opening makes two calls for each page that was home, and one, besides those that are refused HELD.
pub fn opening_is_short()
    ensures { OpeningIsShort }
{}
