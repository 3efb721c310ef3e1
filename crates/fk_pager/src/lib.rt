//! A pager at work: a host whose root porter keeps pages of a subtree back, and gives each where a thread misses it.
//!
//! It stands on `fk_paging` for what a pager asks and becomes, on `fk_host` for a kernel with its native servers, on `laws_filled` for why nobody sees it, on
//! `fk_boot` for what a scenario begins with, and on `fk_report` for the lines of consoles and threads. But for scenarios it is generic in its servers.
//!
//! It promises that a run of it is one of `specs/Runs.antt`, in which the pager picks faults of its own alone, how the run ends (`specs/Ends.antt`), and that
//! what users and native servers do up to the first move that peeks is a run of the world in which every page is home (`specs/Unseen.antt`). `run_paged` is
//! the whole of it in one call (`specs/Paged.antt`). `page_scenario` is that of a scenario: nothing exactly where it has jobs or the subtree may not be paged,
//! else a run from its first world, with its servers and its budget, and the text that tells it (`specs/Pages.antt`).
#![tactic(auto)]

ghost use Rattle.fk_pager.specs.Alike.{RunsEndAlike};
ghost use Rattle.fk_pager.specs.Bounds.{CallsAreBounded};
ghost use Rattle.fk_pager.specs.Counted.{FaultsAreCounted};
ghost use Rattle.fk_pager.specs.Unseen.{DesksAreFirst, OpeningsTakeAll, PagersAreHidden};
ghost use Rattle.fk_pager.specs.Left.{RunsLeaveNone};

mod desks;
mod driver;
mod faults;
mod page;
mod paged;
mod text;

pub use desks::{Desk, desk_at, is_pageable};
pub use driver::{PagedRun, Turn};
pub use page::{Page, page_scenario};
pub use paged::run_paged;

/// Where a subtree may be paged and nobody has a fault, its pager may begin.
pub fn desks_are_first()
    ensures { DesksAreFirst }
{}

/// Up to the first move that peeks, what others do beside a pager is a run of the first world, in which every page is home.
pub fn pagers_are_hidden()
    ensures { PagersAreHidden }
{}

/// A pager counts the faults that it has ended.
pub fn faults_are_counted()
    ensures { FaultsAreCounted }
{}

/// When the opening is done every page that was home is in the pager's list, and none is home.
pub fn openings_take_all()
    ensures { OpeningsTakeAll }
{}

/// Where the pager has no call to make at the end of a run that nobody peeks in, and nothing is held, no fault of its own is left.
pub fn runs_leave_none()
    ensures { RunsLeaveNone }
{}

/// Where no move is ready at its end, none of a user and a native server is in the filled world, in which the same threads have halted.
pub fn runs_end_alike()
    ensures { RunsEndAlike }
{}

/// Whatever peeks: as long as its port is neither destroyed nor renamed the pager makes at most ten calls, besides those refused HELD, for each page that was
/// home, for each fault that is raised at its port, and for the run.
pub fn calls_are_bounded()
    ensures { CallsAreBounded }
{}
