//! What no move makes: a pointer that stands in cuts alone, a porter, a served port, a space in the place of another. Each law is the contract of a
//! function that does nothing.
//!
//! It stands on `further` for the definition, on `laws_moves::rows` for what moves list, and on `laws_moves::machine` for what readers say of a world.

ghost use Rattle.laws_subtrees.specs.Uncut.Placed.{PortersStood, ServedStood, PortersSpaceStays, SpacesAreNotReplaced};
ghost use Rattle.laws_subtrees.specs.Uncut.Uncut.{MovesKeepUncut};

/// Whatever move is made, a world whose pointers lead somewhere in it or nowhere is such a world after it.
pub fn moves_keep_a_world_uncut()
    ensures { MovesKeepUncut }
{}

/// Who is a porter in the last slot of a space after a move was one before it, and what is a served port was one.
pub fn no_move_makes_a_server()
    ensures porters { PortersStood }
    ensures ports { ServedStood }
{}

/// A space that has a porter after a fit move of a valid world is the one that was there.
pub fn a_porters_space_stays()
    ensures { PortersSpaceStays }
{}

/// A space that stands after a fit move of a valid world where one stood before it is that one.
pub fn a_space_isnt_replaced()
    ensures { SpacesAreNotReplaced }
{}
