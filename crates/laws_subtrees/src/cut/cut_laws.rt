//! The law of the cut, each kind of move the contract of a function that does nothing: what a move of the world does to a
//! subtree is what the subtree, seen alone, does by the move as which it is seen.
ghost use Rattle.laws_subtrees.specs.Cut.CutLaws.{AcceptKeepsCut, CallKeepsCut, EventKeepsCut, GiveKeepsCut, InsideKeepsCut, InstructionKeepsCut, IsClientOver};
ghost use Rattle.laws_subtrees.specs.Cut.CutLaws.{IsClientSend, IsDestroy, IsDisconnect, IsFaultDone, IsForPorters, IsForUsers, IsPageGive, IsPageTake, IsPlainStage};
ghost use Rattle.laws_subtrees.specs.Cut.CutLaws.{IsRename, IsServerEnd, IsServerNamed, IsServerOver, IsServerReceive, IsServerSend, IsServerless, IsSignal, IsWait};
ghost use Rattle.laws_subtrees.specs.Cut.CutLaws.{OverKeepsCut, RunKeepsCut, StageInsideKeepsCut, StageKeepsCut, StageOutsideKeepsCut};

/// A thread that makes an instruction, also one that stores through a mapping: inside, the subtree does so by itself;
/// outside, it sees nothing of it, or no law speaks of it.
pub fn an_instruction_keeps_the_cut()
    ensures { InstructionKeepsCut }
{}

/// A thread at a stage of which nothing is seen from outside: inside, the subtree does so by itself; outside, it sees nothing of
/// it, or no law speaks of it.
pub fn a_plain_stage_keeps_the_cut()
    ensures { StageKeepsCut IsPlainStage }
{}

/// A thread that takes a page: inside, the subtree does so by itself; outside, the subtree sees that a page of it is taken, or
/// sees nothing of it, or no law speaks of it.
pub fn a_taken_page_keeps_the_cut()
    ensures { StageKeepsCut IsPageTake }
{}

/// A thread that gives a space a page: inside, the subtree does so by itself; outside, the subtree sees that a space of it is given
/// a page, or sees nothing of it, or no law speaks of it.
pub fn a_given_page_keeps_the_cut()
    ensures { StageKeepsCut IsPageGive }
{}

/// A porter that gives a space a page: the subtree sees that a space of it is given a page, or sees nothing of it, or no law speaks
/// of it.
pub fn a_page_given_by_a_porter_keeps_the_cut()
    ensures { CallKeepsCut IsPageGive }
{}

/// A thread that signals a condition, whomever it wakes: inside, the subtree does so by itself; outside, it sees nothing of it, or
/// no law speaks of it.
pub fn a_signal_keeps_the_cut()
    ensures { StageKeepsCut IsSignal }
{}

/// A thread that ends the fault that it has taken: inside, the subtree does so by itself; outside, the subtree sees that its fault is
/// done, or sees nothing of it, or no law speaks of it.
pub fn an_end_of_a_fault_keeps_the_cut()
    ensures { StageKeepsCut IsFaultDone }
{}

/// A porter that ends the fault that it has taken: the subtree sees that its fault is done, or sees nothing of it, or no law speaks
/// of it.
pub fn an_end_of_a_fault_by_a_porter_keeps_the_cut()
    ensures { CallKeepsCut IsFaultDone }
{}

/// A thread inside that gives an object another slot does so in the subtree by itself.
pub fn a_new_name_inside_keeps_the_cut()
    ensures { StageInsideKeepsCut IsRename }
{}

/// A thread outside that destroys an object: the subtree sees nothing of it and stays plain, or no law speaks of it.
pub fn a_death_outside_keeps_the_cut()
    ensures { StageOutsideKeepsCut IsDestroy }
{}

/// A thread outside that gives an object another slot: the subtree sees nothing of it and stays plain, or no law speaks of it.
pub fn a_new_name_outside_keeps_the_cut()
    ensures { StageOutsideKeepsCut IsRename }
{}

/// A native server that accepts a thread: the subtree sees that its thread is taken at its Connect, or sees nothing of it, or no
/// law speaks of it.
pub fn an_accept_keeps_the_cut()
    ensures { AcceptKeepsCut }
{}

/// A client that sends words: inside, to a peer inside or outside, the subtree does so by itself, and how many words a peer
/// outside takes is seen with the move; outside, it sees nothing of it, or no law speaks of it.
pub fn words_of_a_client_keep_the_cut()
    ensures { StageKeepsCut IsClientSend }
{}

/// A client that hands its peer the turn: inside, the subtree does so by itself; outside, it sees nothing of it, or no law
/// speaks of it.
pub fn a_turn_of_a_client_keeps_the_cut()
    ensures { StageKeepsCut IsClientOver }
{}

/// A server that sends words to its client: inside, the subtree does so by itself; outside, the subtree sees that words are given
/// to its thread, or that it has no room for them, or sees nothing of it, or no law speaks of it.
pub fn words_of_a_server_keep_the_cut()
    ensures { StageKeepsCut IsServerSend }
{}

/// A native server that gives words to its client: the subtree sees that they are given to its thread, or that it has no room for
/// them, or sees nothing of it, or no law speaks of it.
pub fn words_of_a_native_server_keep_the_cut()
    ensures { GiveKeepsCut }
{}

/// A native server that hands its client the turn: the subtree sees that its thread is handed the turn, or sees nothing of it, or
/// no law speaks of it.
pub fn a_turn_of_a_native_server_keeps_the_cut()
    ensures { OverKeepsCut }
{}

/// A client that ends its talk, with a peer inside or outside: inside, the subtree does so by itself; outside, it sees nothing of
/// it, or no law speaks of it.
pub fn an_end_by_a_client_keeps_the_cut()
    ensures { StageKeepsCut IsDisconnect }
{}

/// A server inside that ends the talk of its client does so in the subtree by itself.
pub fn an_end_by_a_server_inside_keeps_the_cut()
    ensures { StageInsideKeepsCut IsServerEnd }
{}

/// A server outside that ends the talk of its client: the subtree sees that its thread is left, or sees nothing of it, or no law
/// speaks of it.
pub fn an_end_by_a_server_outside_keeps_the_cut()
    ensures { StageOutsideKeepsCut IsServerEnd }
{}

/// A server that hands its client the turn: inside, the subtree does so by itself; outside, the subtree sees that its thread is
/// handed the turn, or sees nothing of it, or no law speaks of it.
pub fn a_turn_of_a_server_keeps_the_cut()
    ensures { StageKeepsCut IsServerOver }
{}

/// A thread inside that destroys an object, itself, a port with clients or a thread with talks among them, does so in the subtree by
/// itself; the ends of talks outside aren't seen.
pub fn a_death_inside_keeps_the_cut()
    ensures { StageInsideKeepsCut IsDestroy }
{}

/// A thread inside that waits at a port set and picks nobody outside, whatever it comes to: it takes a client at its Connect, a
/// fault or a parked talk. The subtree does so by itself.
pub fn a_wait_inside_keeps_the_cut()
    ensures { StageInsideKeepsCut IsWait }
{}

/// A thread outside that waits at a port set: the subtree sees that its thread is taken at its Connect, or that a fault of it is
/// taken, or sees nothing of it, or no law speaks of it.
pub fn a_wait_outside_keeps_the_cut()
    ensures { StageOutsideKeepsCut IsWait }
{}

/// A server that receives: inside, its stage is refused, or raises a fault, or waits in the subtree as in the world; outside, the
/// subtree sees nothing of it.
pub fn a_receive_of_a_server_keeps_the_cut()
    ensures { StageKeepsCut IsServerReceive }
{}

/// A porter at a stage of which nothing is seen from outside: the subtree sees nothing of it, or no law speaks of it.
pub fn a_plain_call_of_a_porter_keeps_the_cut()
    ensures { CallKeepsCut IsPlainStage }
{}

/// A porter that counts pointers, makes a talk or a fault that waits, sets a holder or makes a space: the subtree sees nothing of
/// it, or no law speaks of it.
pub fn an_own_call_of_a_porter_keeps_the_cut()
    ensures { CallKeepsCut IsServerless }
{}

/// A porter that makes a talk or a fault again with its server: the subtree sees nothing of it, where nobody inside comes to serve
/// the outside, or no law speaks of it.
pub fn a_talk_made_by_a_porter_keeps_the_cut()
    ensures { CallKeepsCut IsServerNamed }
{}

/// A porter that takes a page: the subtree sees that a page of it is taken, or sees nothing of it, or no law speaks of it.
pub fn a_page_taken_by_a_porter_keeps_the_cut()
    ensures { CallKeepsCut IsPageTake }
{}

/// A porter that gives an object another slot: the subtree sees nothing of it and stays plain, or no law speaks of it.
pub fn a_new_name_by_a_porter_keeps_the_cut()
    ensures { CallKeepsCut IsRename }
{}

/// A porter that destroys an object: the subtree sees nothing of it and stays plain, or no law speaks of it.
pub fn a_death_by_a_porter_keeps_the_cut()
    ensures { CallKeepsCut IsDestroy }
{}

/// A porter that is denied a call: the subtree sees nothing of it.
pub fn a_denied_call_of_a_porter_keeps_the_cut()
    ensures { CallKeepsCut IsForUsers }
{}

/// A thread that is denied a call: inside, its call ends in the subtree as in the world; outside, nothing of it is seen.
pub fn a_denied_stage_keeps_the_cut()
    ensures { StageKeepsCut IsForPorters }
{}

/// A porter that waits at a port set: the subtree sees that its thread is taken at its Connect, or that a fault of it is taken, or
/// sees nothing of it, or no law speaks of it.
pub fn a_wait_of_a_porter_keeps_the_cut()
    ensures { CallKeepsCut IsWait }
{}

/// Whatever is done by whoever stands inside, in one law: the subtree does it by itself, or no law speaks of it.
pub fn what_is_done_inside_keeps_the_cut()
    ensures { InsideKeepsCut }
{}

/// Whatever move the world makes, in one law: unless no law speaks of it, the subtree stays plain, and its cut afterwards is what the
/// further move gives as which it is seen, or the same.
pub fn every_move_keeps_the_cut()
    ensures { EventKeepsCut }
{}

/// Whatever the world does, move after move, where no move is seen as other: the subtree stays plain, and its cut does the moves as
/// which these are seen, one after the other, and ends where the world's does.
pub fn every_run_keeps_the_cut()
    ensures { RunKeepsCut }
{}
