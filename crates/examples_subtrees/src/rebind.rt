//! Subtrees that go on under other ports.
#![tactic(auto, unfolding(crate::specs::Rebind::rebound_worlds))]

ghost use Rattle.std.specs.Prelude.{◌≡◌, [], ◌∷◌, Some, None, true, false, replicate};
ghost use Rattle.fk_model.specs.declared.thread.Turn.TheVariants as turns;
ghost use Rattle.fk_model.specs.Places.Ptr.{At, Out, Outside};
ghost use Rattle.fk_model.specs.Objects.Peer.{Server};
ghost use Rattle.fk_model.specs.Objects.Body.{Region, Reference};
ghost use Rattle.fk_model.specs.Rebind.{rebound, rebound_told, rebound_move};
ghost use Rattle.fk_model.specs.Further.Onward.{ByOthers};
ghost use Rattle.fk_model.specs.Further.Touch.{Handed, HandedWith};
ghost use Rattle.fk_model.specs.Further.Told.{ToldWords, ToldOver, ToldEnd, ToldFault};
ghost use Rattle.examples_moves.specs.Worked.{calling, filled_to, with_talk};
ghost use Rattle.examples_subtrees.specs.Cuts.{talk_out, still_sending};
ghost use Rattle.examples_subtrees.specs.Further.{is_ready, heard, own_move_taking};
ghost use Rattle.examples_subtrees.specs.Rebind.{from_9_to_10, after_a_block, three_ports};

/// In the midst of a message port 9 becomes port 10: the talk and the reference are at port 10, and
/// the rest of the message is told there. Nothing else of the subtree changes.
pub fn a_subtree_goes_on_at_another_port()
    ensures client { (rebound from_9_to_10 after_a_block).body (0 ∷ []) ≡
        Some (with_talk (talk_out (Out 10) (Server Outside) 64) (still_sending 192 6)) }
    ensures reference { (rebound from_9_to_10 after_a_block).body (1 ∷ []) ≡ Some (Reference (Out 10)) }
    ensures page { (rebound from_9_to_10 after_a_block).page [] 3 ≡ Some (filled_to 64 (7 ∷ [])) }
    ensures ready { is_ready (rebound from_9_to_10 after_a_block) (own_move_taking 6) ≡ true }
    ensures more { is_ready (rebound from_9_to_10 after_a_block) (own_move_taking 7) ≡ false }
    ensures heard { heard (rebound from_9_to_10 after_a_block) (own_move_taking 6) ≡
        ToldWords (0 ∷ []) (Out 10) (7 ∷ replicate 5 0) ∷ [] }
    ensures heard_before { heard after_a_block (own_move_taking 6) ≡ ToldWords (0 ∷ []) (Out 9) (7 ∷ replicate 5 0) ∷ [] }
{}

/// Two ports become one; a port that isn't named keeps its name, and so does what is inside.
pub fn two_ports_become_one()
    ensures talk { (rebound from_9_to_10 three_ports).body (0 ∷ []) ≡
        Some (with_talk (talk_out (Out 10) (Server Outside) 0) (calling 20 (38 ∷ []))) }
    ensures reference { (rebound from_9_to_10 three_ports).body (1 ∷ []) ≡ Some (Reference (Out 10)) }
    ensures within { (rebound from_9_to_10 three_ports).body (2 ∷ []) ≡ Some (Reference (At (4 ∷ []))) }
    ensures keeper { (rebound from_9_to_10 three_ports).body (5 ∷ []) ≡
        Some (Region (record { first = 8; count = 8; write = true; keeper = Out 11 })) }
    ensures heard { heard (rebound from_9_to_10 three_ports) (own_move_taking 0) ≡ ToldOver (0 ∷ []) (Out 10) None ∷ [] }
{}

/// What is told names the port by its new name.
pub fn what_is_told_is_rebound()
    ensures words { rebound_told from_9_to_10 (ToldWords (0 ∷ []) (Out 9) (7 ∷ [])) ≡ ToldWords (0 ∷ []) (Out 10) (7 ∷ []) }
    ensures over { rebound_told from_9_to_10 (ToldOver (0 ∷ []) (Out 9) None) ≡ ToldOver (0 ∷ []) (Out 10) None }
    ensures end { rebound_told from_9_to_10 (ToldEnd (0 ∷ []) (Out 9)) ≡ ToldEnd (0 ∷ []) (Out 10) }
    ensures fault { rebound_told from_9_to_10 (ToldFault (0 ∷ []) (Out 9) 3 true) ≡ ToldFault (0 ∷ []) (Out 10) 3 true }
    ensures carried { rebound_told from_9_to_10 (ToldOver (0 ∷ []) (Out 11) (Some (Out 9))) ≡ ToldOver (0 ∷ []) (Out 11) (Some (Out 10)) }
    ensures carried_within { rebound_told from_9_to_10 (ToldOver (0 ∷ []) (Out 9) (Some (At (4 ∷ [])))) ≡
        ToldOver (0 ∷ []) (Out 10) (Some (At (4 ∷ []))) }
    ensures other { rebound_told from_9_to_10 (ToldOver (0 ∷ []) (Out 11) None) ≡ ToldOver (0 ∷ []) (Out 11) None }
{}

/// A move names a port only where a pointer comes with the turn: that is named by its new name.
pub fn a_pointer_that_comes_is_rebound()
    ensures port { rebound_move from_9_to_10 (ByOthers (HandedWith (0 ∷ []) (Out 9))) ≡ ByOthers (HandedWith (0 ∷ []) (Out 10)) }
    ensures other { rebound_move from_9_to_10 (ByOthers (HandedWith (0 ∷ []) (Out 11))) ≡ ByOthers (HandedWith (0 ∷ []) (Out 11)) }
    ensures within { rebound_move from_9_to_10 (ByOthers (HandedWith (0 ∷ []) (At (4 ∷ [])))) ≡ ByOthers (HandedWith (0 ∷ []) (At (4 ∷ []))) }
    ensures turn { rebound_move from_9_to_10 (ByOthers (Handed (0 ∷ []))) ≡ ByOthers (Handed (0 ∷ [])) }
    ensures own { rebound_move from_9_to_10 (own_move_taking 6) ≡ own_move_taking 6 }
{}
