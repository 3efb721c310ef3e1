//! Values by a space's birth number and the slot, or the page, of the space: each one step away.
//!
//! It stands on nothing. A caller sees rows, one a space, each a list of cells: `cell` tells what is
//! there, and `map_of_rows` makes the finite map of it under names of the caller's. A row takes
//! memory when its space first needs it, and from then on has room for all of its 256 slots; so a
//! value that is lifted can be laid into any slot of its space, and takes no memory.

mod row;
mod rows;

pub use row::Row;
pub use rows::{clear_row, has_room, lay_value, next_taken, put_value, take_value, value_at};
