//! Places in the script of an image's restore, as numbers: which order stands there, and which place is next.
//!
//! The script of `laws_restore` is a list of orders by paths. A `Position` is a place in it by numbers of spaces, objects and parts of
//! these, so it takes no memory. From a position on the orders are the script's rest (`specs/Positions/Positions.antt`), and one step goes to the
//! next place with what stands at it: none, or one order.
//!
//! Its code tells the call at a position (`stage_at`) and the next position (`next_of`).
//!
//! It stands on `laws_restore::rooms` for the rooms of an image and on `laws_restore` for the script.

mod binding;
mod fills;
mod next;
mod parts;
mod passes;
mod position;
mod stages;
mod walks;

ghost use Rattle.fk_restore.specs.Positions.Laws.{PositionsAreThePlaces, ScriptFromTheFirst};

pub use binding::bound;
pub use next::{next_item, next_of};
pub use passes::{
    are_within, fault_of, is_out, leads_out, leads_out_any, leads_within, link_of, talk_of,
    ties_inside,
};
pub use position::{Pass, Position, Spot, Walk};
pub use stages::stage_at;

/// From a position on the script has the order that stands there, and then what it has from the next position on.
pub fn a_step_takes_one_order()
    ensures { PositionsAreThePlaces }
{}

/// From the first position on it is the whole script.
pub fn the_first_position_has_all()
    ensures { ScriptFromTheFirst }
{}
