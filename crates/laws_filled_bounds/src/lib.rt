//! How many faults a pager takes and how many calls it makes, whoever else moves, and whatever peeks.
//!
//! It stands on `laws_filled` for the pager as a machine, on `laws_moves::rows` for what a move lists, and on `fk_model`. From a world without faults on a
//! porter takes at most as many faults as are raised, a move raises one at most, and a pager makes at most ten calls for each page and each fault.
#![tactic(auto)]

ghost use Rattle.laws_filled_bounds.specs.Driven.{CallsAreBounded, MovesRaiseOnce};
ghost use Rattle.laws_filled_bounds.specs.Gentle.{RowsAreGentle};
ghost use Rattle.laws_filled_bounds.specs.Taken.{TakenAreRaised};

/// Every row takes only faults that are open, makes threads without a fault, and renames to empty slots.
pub fn rows_are_gentle()
    ensures { RowsAreGentle }
{}

/// From a world without faults on, whoever moves, a porter takes at most as many faults at a port as are raised there.
pub fn taken_are_raised()
    ensures { TakenAreRaised }
{}

/// A move raises one fault at a port at most.
pub fn moves_raise_once()
    ensures { MovesRaiseOnce }
{}

/// A pager makes at most ten calls for each page that was home, for each fault that is raised at its port, and for the run, besides those refused HELD.
pub fn calls_are_bounded()
    ensures { CallsAreBounded }
{}
