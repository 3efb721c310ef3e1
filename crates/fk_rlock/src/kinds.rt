//! The kinds of step that the table knows, each with what it tells of the seat that takes it.
ghost use Rattle.std.specs.Prelude.{Some, None, ◌+◌, ◌-◌, max};
ghost use Rattle.fk_rlock.specs.Rule.{Orderly, idle, both};
ghost use Rattle.fk_rlock.specs.Plays.{drew, looked, learned, took, raised, gave, passed};

use crate::counted::Counted;
use crate::view::{About, View};
use atomic_table::{Join, Play, Split, TableRule};

/// The rule of the lock.
pub struct Order;

impl<T: Counted> TableRule<T, View<T::Boot>, About<T>> for Order {
    ghost holds = { λ k. Orderly T.boot T.counted (T.boot k.first.value) k.seats };

    ghost first = { λ k. idle (T.counted k.first.value) k.seats (Some (T.boot k.first.value)) };
}

/// Draws a ticket: the number of those drawn before.
pub struct Draw;

impl<T: Counted> Play<T, View<T::Boot>> for Draw {
    ghost then = { drew };
}

/// Looks who is served: its turn has come where that is its own ticket.
pub struct Look;

impl<T: Counted> Play<T, View<T::Boot>> for Look {
    ghost then = { looked };
}

/// Reads the front, in its turn: what it has seen is the front then.
pub struct Learn;

impl<T: Counted> Play<T, View<T::Boot>> for Learn {
    ghost then = { learned };
}

/// Takes the value out of the slot.
pub struct Take;

impl<T: Counted> Play<T, View<T::Boot>> for Take {
    ghost then = { took T.boot T.counted };
}

/// Raises the front to a count not below it, with the value out.
pub struct Raise;

impl<T: Counted> Play<T, View<T::Boot>> for Raise {
    ghost then = { raised };
}

/// Gives the value back, which counts what the front says.
pub struct Give;

impl<T: Counted> Play<T, View<T::Boot>> for Give {
    ghost then = { gave };
}

/// Ends its turn: the next ticket is served.
pub struct PassOn;

impl<T: Counted> Play<T, View<T::Boot>> for PassOn {
    ghost then = { passed };
}

/// One part goes to a new seat.
pub struct Part;

impl<B> Split<View<B>> for Part {
    ghost left = { λ v. idle v.seen (v.parts - 1) v.boot };

    ghost right = { λ v. idle v.seen 1 v.boot };
}

/// A seat takes in another, which is spent.
pub struct Merge;

impl<B> Join<View<B>> for Merge {
    ghost both = { both };

    ghost spent = { idle 0 0 None };
}
