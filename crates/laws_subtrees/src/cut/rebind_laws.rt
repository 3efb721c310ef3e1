//! The law of rebinding, each kind of move the contract of a function that does nothing: a subtree that is seen alone does,
//! with other outward ports, what it did, also where two of them get one name.
ghost use Rattle.laws_subtrees.specs.Cut.CutLaws.{IsClientOver, IsClientSend, IsDestroy, IsDisconnect, IsFaultDone, IsForPorters, IsPageGive, IsPageTake, IsPlainStage};
ghost use Rattle.laws_subtrees.specs.Cut.CutLaws.{IsRename, IsServerEnd, IsServerOver, IsServerReceive, IsServerSend, IsSignal, IsWait};
ghost use Rattle.laws_subtrees.specs.Cut.RebindLaws.{InstructionRebinds, MoveRebinds, RunRebinds, StageRebinds, TouchRebinds};

/// A thread of the subtree that makes an instruction does so with other outward ports, and the outside hears of a fault at these.
pub fn an_instruction_rebinds()
    ensures { InstructionRebinds }
{}

/// A thread of the subtree at a stage of which nothing is seen from outside does the same with other outward ports, and the outside
/// hears the same at these.
pub fn a_plain_stage_rebinds()
    ensures { StageRebinds IsPlainStage }
{}

/// A thread of the subtree that is denied a call is denied it with other outward ports.
pub fn a_denied_stage_rebinds()
    ensures { StageRebinds IsForPorters }
{}

/// A thread of the subtree that takes a page does so with other outward ports, and the outside hears the same at these.
pub fn a_taken_page_rebinds()
    ensures { StageRebinds IsPageTake }
{}

/// A thread of the subtree that gives a space a page does so with other outward ports, and the outside hears the same at these.
pub fn a_given_page_rebinds()
    ensures { StageRebinds IsPageGive }
{}

/// A thread of the subtree that signals a condition wakes the same thread with other outward ports.
pub fn a_signal_rebinds()
    ensures { StageRebinds IsSignal }
{}

/// A thread of the subtree that ends the fault that it has taken does so with other outward ports.
pub fn an_end_of_a_fault_rebinds()
    ensures { StageRebinds IsFaultDone }
{}

/// A thread of the subtree that gives an object another slot does so with other outward ports, and the outside hears the same
/// at these.
pub fn a_new_name_rebinds()
    ensures { StageRebinds IsRename }
{}

/// A server of the subtree that receives does the same with other outward ports, and the outside hears the same at these.
pub fn a_receive_of_a_server_rebinds()
    ensures { StageRebinds IsServerReceive }
{}

/// A server of the subtree that sends words to its client does so with other outward ports, and the outside hears the same at
/// these.
pub fn words_of_a_server_rebind()
    ensures { StageRebinds IsServerSend }
{}

/// A server of the subtree that hands its client the turn does so with other outward ports, and the outside hears the same at
/// these.
pub fn a_turn_of_a_server_rebinds()
    ensures { StageRebinds IsServerOver }
{}

/// A client of the subtree that sends words, inside or to a peer outside, does so with other outward ports, and the outside hears
/// the same words at these.
pub fn words_of_a_client_rebind()
    ensures { StageRebinds IsClientSend }
{}

/// A client of the subtree that hands its peer the turn, inside or outside, does so with other outward ports, and the outside
/// hears of it at these.
pub fn a_turn_of_a_client_rebinds()
    ensures { StageRebinds IsClientOver }
{}

/// A client of the subtree that ends its talk does so with other outward ports, and the outside hears of it at these.
pub fn an_end_by_a_client_rebinds()
    ensures { StageRebinds IsDisconnect }
{}

/// A server of the subtree that ends the talk of its client does so with other outward ports, and the outside hears the same at
/// these.
pub fn an_end_by_a_server_rebinds()
    ensures { StageRebinds IsServerEnd }
{}

/// Whatever the outside does to a subtree it does with other outward ports, and the subtree goes on as it did: it takes a thread at
/// its Connect, gives words or finds no room, hands the turn, ends a talk, takes a fault or ends it, gives a page or takes one.
pub fn what_the_outside_does_rebinds()
    ensures { TouchRebinds }
{}

/// A thread of the subtree that destroys an object does so with other outward ports, and the outside hears at these of the talks that
/// end.
pub fn a_death_rebinds()
    ensures { StageRebinds IsDestroy }
{}

/// A thread of the subtree that waits at a port set, and takes a client, a fault or a parked talk, does so with other outward
/// ports, and the outside hears the same at these.
pub fn a_wait_rebinds()
    ensures { StageRebinds IsWait }
{}

/// Every move that a subtree makes or that the outside does to it, in one law: with other outward ports it is ready exactly where it
/// was, tells the same at these, and leaves the same.
pub fn every_move_rebinds()
    ensures { MoveRebinds }
{}

/// The further runs of a subtree that is seen alone are, with other outward ports, the same runs: each list of moves is one exactly
/// where it was one, tells the same at these, and leaves the same.
pub fn every_run_rebinds()
    ensures { RunRebinds }
{}
