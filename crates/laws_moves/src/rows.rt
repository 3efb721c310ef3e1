//! What each move of the machine lists. A row of the machine is a chain of checks, and then a list of changes. Here the rows of all 44 stages, instructions and
//! acts of native servers are walked once. Each list to which they come is a constructor, with what the row read and checked before it.
//!
//! So a law about what one move does walks no row: it is a function by these constructors. They are a means of proofs: no clause of another crate names
//! them. It stands on `fk_model` alone.

ghost use Rattle.laws_moves.specs.Rows.Moves.{MovesAreListed};

/// Whatever moves, what its move comes to is one of the lists.
pub fn moves_are_listed()
    ensures { MovesAreListed }
{}
