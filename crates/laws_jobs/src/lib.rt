//! Jobs: a job is a machine over the answers to its calls. Here stands what it does among the moves of users and native
//! servers, in any order, and what a run wants of it. Each law is the contract of a function that does nothing.
//!
//! It stands on `laws_moves::savable`, and on what that stands on. It names no core, no run and no image; the laws of the single
//! jobs and those of runs stand above it.
#![tactic(auto)]

ghost use Rattle.laws_jobs.specs.Machines.{GoesOnByOthers, GoesOnByOwn, NowIsSound};
ghost use Rattle.laws_jobs.specs.Nesters.{UsersFillLow, NesterStays};
ghost use Rattle.laws_jobs.specs.Calls.{CallIsItsRow, UnheldCallIsReady};
ghost use Rattle.laws_jobs.specs.Holds.{HoldComesTo, ReleaseComesTo};
ghost use Rattle.laws_jobs.specs.Leads.{OthersKeepLeads, OthersKeepUnled, OthersKeepOpenPlace, OwnKeepOpenPlace, HoldKeepsOpenPlace, CountsTell};
ghost use Rattle.laws_jobs.specs.Leads.{ReferenceGoesAlone};

/// A job at work goes on with each move of another and with its own next call, where the world after
/// it is sound, and so is each world to which it comes.
pub fn a_job_goes_on<S, A>()
    ensures others { GoesOnByOthers S A }
    ensures own { GoesOnByOwn S A }
    ensures sound { NowIsSound S A }
{}

/// What stands in a slot above 239 after a move of a user or a native server stood there before.
pub fn users_fill_no_high_slot()
    ensures { UsersFillLow }
{}

/// No move of a user or a native server moves or replaces a space that has a porter after it.
pub fn a_nester_stays()
    ensures { NesterStays }
{}

/// Whether somebody outside leads to an object of a held subtree stays with every move of another.
pub fn others_keep_what_leads_in()
    ensures { OthersKeepLeads }
{}

/// No move of another comes to lead in where nobody did.
pub fn others_lead_nothing_in()
    ensures { OthersKeepUnled }
{}

/// Where a held subtree isn't closed, and whether it is, stays with every move of another.
pub fn others_keep_the_open_place()
    ensures { OthersKeepOpenPlace }
{}

/// A count above 0 is a pointer from outside.
pub fn a_count_tells()
    ensures { CountsTell }
{}

/// A porter that makes, leads or destroys a scratch reference keeps the place where its subtree
/// isn't closed.
pub fn own_changes_keep_the_open_place()
    ensures { OwnKeepOpenPlace }
{}

/// A porter's hold of a subtree keeps the place where that isn't closed.
pub fn a_hold_keeps_the_open_place()
    ensures { HoldKeepsOpenPlace }
{}

/// A ready call of a porter makes the changes that its row lists, and tells what its row tells.
pub fn a_call_is_its_row()
    ensures { CallIsItsRow }
{}

/// A call that comes to something is ready where nothing outside the porter's subtree is held.
pub fn an_unheld_call_is_ready()
    ensures { UnheldCallIsReady }
{}

/// A ready hold of a porter without scratch is done exactly where a space stands in the slot; the
/// subtree's cut, and where it isn't closed, stay. Else all is as before.
pub fn a_hold_begins()
    ensures { HoldComesTo }
{}

/// A release of what the porter holds is done, and leaves the cut.
pub fn a_hold_ends()
    ensures { ReleaseComesTo }
{}

/// Nothing leads to a reference, so one that is destroyed takes nothing with it.
pub fn a_reference_goes_alone()
    ensures { ReferenceGoesAlone }
{}
