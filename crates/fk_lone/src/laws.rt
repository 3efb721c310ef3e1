//! What the machine of `exec` has to do with the abstract machine.
ghost use Rattle.fk_lone.specs.LoneLaws.{LoneMoveStaysAlone, LoneMoveIsInstruction, MachineMovesLone};

/// Where no registers name a call, an instruction of a thread that stands alone, by the abstract
/// machine's row, is one of the machine of `exec`, and leaves it alone. Where its own registers name
/// none and it is free, this is its move in the abstract machine.
pub fn a_lone_move_is_an_instruction()
    ensures alone { LoneMoveStaysAlone }
    ensures instruction { LoneMoveIsInstruction }
    ensures machine { MachineMovesLone }
{}
