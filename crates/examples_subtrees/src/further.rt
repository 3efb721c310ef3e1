//! Further runs of subtrees that are seen alone.
#![tactic(auto, unfolding(crate::specs::Further::further_worlds))]

ghost use Rattle.std.specs.Prelude.{◌≡◌, [], ◌∷◌, Some, None, true, false, replicate};
ghost use Rattle.fk_model.specs.declared.thread.Turn.TheVariants as turns;
ghost use Rattle.fk_model.specs.Places.Ptr.{Null, Dead, At, Out, Outside, Far};
ghost use Rattle.fk_model.specs.Objects.Body.{Port, Space, Reference};
ghost use Rattle.fk_model.specs.Further.Onward.{ByOthers};
ghost use Rattle.fk_model.specs.Further.Touch.{Taken, Given, Filled, Handed, HandedWith, Left, FaultTaken, FaultDone, PageGiven, PageTaken};
ghost use Rattle.fk_model.specs.Further.Told.{ToldWords, ToldOver, ToldEnd, ToldFault};
ghost use Rattle.examples_moves.specs.Worked.{numbers_from, running, calling, stopped, with_talk};
ghost use Rattle.examples_subtrees.specs.Further.{is_ready, later, heard, own_move_taking, outward, talking_out, sending_out, kept_out, connecting, connects};
ghost use Rattle.examples_subtrees.specs.Further.{in_2, held_within, awaiting, handing_out, by_5, receiving_through, destroying, inner_talk};

/// A peer outside takes at least one word of a Send and at most what lies before the page's end, the
/// count and 64; both sides are then that much further.
pub fn a_peer_outside_takes_some_words()
    ensures all { is_ready (sending_out 128 70) (own_move_taking 64) ≡ true }
    ensures one { is_ready (sending_out 128 70) (own_move_taking 1) ≡ true }
    ensures more { is_ready (sending_out 128 70) (own_move_taking 65) ≡ false }
    ensures none { is_ready (sending_out 128 70) (own_move_taking 0) ≡ false }
    ensures to_page_end { is_ready (sending_out 188 70) (own_move_taking 4) ≡ true }
    ensures past_page_end { is_ready (sending_out 188 70) (own_move_taking 5) ≡ false }
    ensures heard { heard (sending_out 188 70) (own_move_taking 2) ≡ ToldWords (0 ∷ []) (Out 9) (1188 ∷ 1189 ∷ []) ∷ [] }
    ensures client { (later (sending_out 188 70) (own_move_taking 2)).body (0 ∷ []) ≡
        Some (with_talk (outward turns.Client 2) (calling 20 (37 ∷ 0 ∷ 190 ∷ 68 ∷ []))) }
    ensures page { (later (sending_out 188 70) (own_move_taking 2)).page [] 2 ≡ Some (numbers_from 1128 64) }
    ensures last { (later (sending_out 128 3) (own_move_taking 3)).body (0 ∷ []) ≡
        Some (with_talk (outward turns.Client 3) (running 21 (0 ∷ 0 ∷ 131 ∷ 0 ∷ []))) }
{}

/// With a Send of no words, one that is refused or one that raises a fault, and with every other
/// move, a peer outside takes none: such a move is ready with a count of 0 alone.
pub fn other_moves_take_no_words()
    ensures nothing { is_ready (sending_out 128 0) (own_move_taking 0) ≡ true }
    ensures nothing_counted { is_ready (sending_out 128 0) (own_move_taking 1) ≡ false }
    ensures refused { is_ready (talking_out turns.Server 0 (37 ∷ 0 ∷ 128 ∷ 70 ∷ [])) (own_move_taking 0) ≡ true }
    ensures refused_counted { is_ready (talking_out turns.Server 0 (37 ∷ 0 ∷ 128 ∷ 70 ∷ [])) (own_move_taking 3) ≡ false }
    ensures unreachable { is_ready (sending_out 0 70) (own_move_taking 0) ≡ true }
    ensures unreachable_counted { is_ready (sending_out 0 70) (own_move_taking 64) ≡ false }
    ensures fault { heard (kept_out (37 ∷ 0 ∷ 512 ∷ 70 ∷ [])) (own_move_taking 0) ≡ ToldFault (0 ∷ []) (Out 9) 8 false ∷ [] }
    ensures fault_counted { is_ready (kept_out (37 ∷ 0 ∷ 512 ∷ 70 ∷ [])) (own_move_taking 64) ≡ false }
    ensures over { heard (talking_out turns.Client 5 (38 ∷ [])) (own_move_taking 0) ≡ ToldOver (0 ∷ []) (Out 9) None ∷ [] }
    ensures over_counted { is_ready (talking_out turns.Client 5 (38 ∷ [])) (own_move_taking 5) ≡ false }
    ensures end { heard (talking_out turns.Client 5 (39 ∷ [])) (own_move_taking 0) ≡ ToldEnd (0 ∷ []) (Out 9) ∷ [] }
    ensures end_counted { is_ready (talking_out turns.Client 5 (39 ∷ [])) (own_move_taking 5) ≡ false }
    ensures lock { is_ready (talking_out turns.Client 5 (21 ∷ 1 ∷ [])) (own_move_taking 0) ≡ true }
    ensures lock_counted { is_ready (talking_out turns.Client 5 (21 ∷ 1 ∷ [])) (own_move_taking 1) ≡ false }
{}

/// The outside takes a free thread at its Connect to a port there: none that is stopped, whose port
/// is inside or nowhere, that has a talk, or that is at another call.
pub fn the_outside_takes_a_free_thread()
    ensures ready { is_ready (connecting (Out 9) connects) (ByOthers (Taken (0 ∷ []))) ≡ true }
    ensures talk { (later (connecting (Out 9) connects) (ByOthers (Taken (0 ∷ [])))).body (0 ∷ []) ≡
        Some (with_talk (outward turns.Client 0) (running 21 (0 ∷ 1 ∷ []))) }
    ensures stopped { is_ready (connecting (Out 9) (stopped 1 connects)) (ByOthers (Taken (0 ∷ []))) ≡ false }
    ensures inside { is_ready (connecting (At (4 ∷ [])) connects) (ByOthers (Taken (0 ∷ []))) ≡ false }
    ensures nowhere { is_ready (connecting Null connects) (ByOthers (Taken (0 ∷ []))) ≡ false }
    ensures far { is_ready (connecting Far connects) (ByOthers (Taken (0 ∷ []))) ≡ false }
    ensures linked { is_ready (connecting (Out 9) (with_talk (outward turns.Client 0) connects)) (ByOthers (Taken (0 ∷ []))) ≡ false }
    ensures other { is_ready (connecting (Out 9) (calling 20 (38 ∷ 1 ∷ []))) (ByOthers (Taken (0 ∷ []))) ≡ false }
{}

/// A hold inside bars no end of a talk and no page that is given or taken, since somebody outside may
/// decide above it. It bars all else that the outside does to a thread beneath it.
pub fn a_hold_inside_bars_no_end_and_no_page()
    ensures left { is_ready (held_within (Some (At (5 ∷ [])))) (ByOthers (Left (in_2 0))) ≡ true }
    ensures ended { (later (held_within (Some (At (5 ∷ [])))) (ByOthers (Left (in_2 0)))).body (in_2 0) ≡
        Some (running 21 (14 ∷ 0 ∷ 0 ∷ 0 ∷ 192 ∷ 4 ∷ [])) }
    ensures page_given { is_ready (held_within (Some (At (5 ∷ [])))) (ByOthers (PageGiven (2 ∷ []) 7 (replicate 64 0))) ≡ true }
    ensures page_taken { is_ready (held_within (Some (At (5 ∷ [])))) (ByOthers (PageTaken (2 ∷ []) 3)) ≡ true }
    ensures fault_taken { is_ready (held_within (Some (At (5 ∷ [])))) (ByOthers (FaultTaken (in_2 1))) ≡ false }
    ensures fault_done { is_ready (held_within (Some (At (5 ∷ [])))) (ByOthers (FaultDone (in_2 3))) ≡ false }
    ensures given { is_ready (held_within (Some (At (5 ∷ [])))) (ByOthers (Given (in_2 0) (7 ∷ []))) ≡ false }
    ensures handed { is_ready (held_within (Some (At (5 ∷ [])))) (ByOthers (Handed (in_2 0))) ≡ false }
{}

/// A pointer that comes with the turn may lead to nothing, to a port outside, or to what a reference
/// may lead to inside, and the reference that awaits it takes it. Without a pointer that stays.
pub fn the_outside_hands_over_a_pointer()
    ensures null { is_ready (awaiting (Out 9) None) (ByOthers (HandedWith (0 ∷ []) Null)) ≡ true }
    ensures dead { is_ready (awaiting (Out 9) None) (ByOthers (HandedWith (0 ∷ []) Dead)) ≡ true }
    ensures port { is_ready (awaiting Null None) (ByOthers (HandedWith (0 ∷ []) (Out 11))) ≡ true }
    ensures inside { is_ready (awaiting Null None) (ByOthers (HandedWith (0 ∷ []) (At (in_2 1)))) ≡ true }
    ensures root { is_ready (awaiting Null None) (ByOthers (HandedWith (0 ∷ []) (At []))) ≡ true }
    ensures no_reference_leads { is_ready (awaiting Null None) (ByOthers (HandedWith (0 ∷ []) (At (7 ∷ [])))) ≡ false }
    ensures nothing_there { is_ready (awaiting Null None) (ByOthers (HandedWith (0 ∷ []) (At (9 ∷ [])))) ≡ false }
    ensures far { is_ready (awaiting Null None) (ByOthers (HandedWith (0 ∷ []) Far)) ≡ false }
    ensures peer { is_ready (awaiting Null None) (ByOthers (HandedWith (0 ∷ []) Outside)) ≡ false }
    ensures taken { (later (awaiting Null None) (ByOthers (HandedWith (0 ∷ []) (Out 11)))).body (6 ∷ []) ≡ Some (Reference (Out 11)) }
    ensures client { (later (awaiting Null None) (ByOthers (HandedWith (0 ∷ []) (Out 11)))).body (0 ∷ []) ≡
        Some (with_talk (outward turns.Client 0) (running 21 (0 ∷ 1 ∷ 0 ∷ 0 ∷ 192 ∷ 4 ∷ 6 ∷ []))) }
    ensures none { (later (awaiting (Out 9) None) (ByOthers (Handed (0 ∷ [])))).body (0 ∷ []) ≡
        Some (with_talk (outward turns.Client 0) (running 21 (0 ∷ 0 ∷ 0 ∷ 0 ∷ 192 ∷ 4 ∷ 6 ∷ []))) }
    ensures kept { (later (awaiting (Out 9) None) (ByOthers (Handed (0 ∷ [])))).body (6 ∷ []) ≡ Some (Reference (Out 9)) }
    ensures unawaited { is_ready (held_within None) (ByOthers (HandedWith (in_2 0) Null)) ≡ false }
    ensures heard { heard (awaiting Null None) (ByOthers (HandedWith (0 ∷ []) (Out 11))) ≡ [] }
{}

/// Neither the pointer that comes nor the one that it replaces leads to what is held inside. Where
/// none comes nothing is asked of the one that stays.
pub fn no_pointer_comes_to_what_is_held_inside()
    ensures into { is_ready (awaiting Null by_5) (ByOthers (HandedWith (0 ∷ []) (At (in_2 1)))) ≡ false }
    ensures held { is_ready (awaiting Null by_5) (ByOthers (HandedWith (0 ∷ []) (At (2 ∷ [])))) ≡ false }
    ensures beside { is_ready (awaiting Null by_5) (ByOthers (HandedWith (0 ∷ []) (At (5 ∷ [])))) ≡ true }
    ensures replaced { is_ready (awaiting (At (in_2 1)) by_5) (ByOthers (HandedWith (0 ∷ []) Null)) ≡ false }
    ensures replaced_unheld { is_ready (awaiting (At (in_2 1)) None) (ByOthers (HandedWith (0 ∷ []) Null)) ≡ true }
    ensures stays { is_ready (awaiting (At (in_2 1)) by_5) (ByOthers (Handed (0 ∷ []))) ≡ true }
{}

/// The outside is told of the pointer that goes there with the turn, whatever that is, as the subtree
/// names it. One that leads to what is held inside doesn't go.
pub fn a_pointer_goes_out_with_the_turn()
    ensures port { heard (handing_out (Out 11) None) (own_move_taking 0) ≡ ToldOver (0 ∷ []) (Out 9) (Some (Out 11)) ∷ [] }
    ensures inside { heard (handing_out (At (in_2 1)) None) (own_move_taking 0) ≡ ToldOver (0 ∷ []) (Out 9) (Some (At (in_2 1))) ∷ [] }
    ensures null { heard (handing_out Null None) (own_move_taking 0) ≡ ToldOver (0 ∷ []) (Out 9) (Some Null) ∷ [] }
    ensures dead { heard (handing_out Dead None) (own_move_taking 0) ≡ ToldOver (0 ∷ []) (Out 9) (Some Dead) ∷ [] }
    ensures kept { (later (handing_out (Out 11) None) (own_move_taking 0)).body (6 ∷ []) ≡ Some (Reference (Out 11)) }
    ensures client { (later (handing_out (Out 11) None) (own_move_taking 0)).body (0 ∷ []) ≡
        Some (with_talk (outward turns.Server 0) (running 21 (0 ∷ 6 ∷ []))) }
    ensures held { is_ready (handing_out (At (in_2 1)) by_5) (own_move_taking 0) ≡ false }
    ensures beside { is_ready (handing_out (At (5 ∷ [])) by_5) (own_move_taking 0) ≡ true }
    ensures counted { is_ready (handing_out (Out 11) None) (own_move_taking 3) ≡ false }
    ensures no_reference { heard (talking_out turns.Client 5 (40 ∷ 1 ∷ [])) (own_move_taking 0) ≡ [] }
    ensures refused { is_ready (talking_out turns.Client 5 (40 ∷ 1 ∷ [])) (own_move_taking 0) ≡ true }
{}

/// Words that are given to a free thread go to no page of a space that is held inside, to which a mapping
/// leads. A page there is given and taken all the same.
pub fn words_go_to_no_page_that_is_held_inside()
    ensures held { is_ready (receiving_through (Some (At (5 ∷ [])))) (ByOthers (Given (in_2 0) (7 ∷ 8 ∷ []))) ≡ false }
    ensures unheld { is_ready (receiving_through None) (ByOthers (Given (in_2 0) (7 ∷ 8 ∷ []))) ≡ true }
    ensures page { (later (receiving_through None) (ByOthers (Given (in_2 0) (7 ∷ 8 ∷ [])))).page (3 ∷ []) 3 ≡ Some (7 ∷ 8 ∷ numbers_from 1194 62) }
    ensures page_given { is_ready (receiving_through (Some (At (5 ∷ [])))) (ByOthers (PageGiven (3 ∷ []) 7 (replicate 64 0))) ≡ true }
    ensures page_taken { is_ready (receiving_through (Some (At (5 ∷ [])))) (ByOthers (PageTaken (3 ∷ []) 3)) ≡ true }
{}

/// With no hold all of that is ready; words up to the room, and at least one.
pub fn with_no_hold_the_outside_does_all()
    ensures fault_taken { is_ready (held_within None) (ByOthers (FaultTaken (in_2 1))) ≡ true }
    ensures taken_twice { is_ready (held_within None) (ByOthers (FaultTaken (in_2 3))) ≡ false }
    ensures fault_done { is_ready (held_within None) (ByOthers (FaultDone (in_2 3))) ≡ true }
    ensures not_taken { is_ready (held_within None) (ByOthers (FaultDone (in_2 1))) ≡ false }
    ensures given { is_ready (held_within None) (ByOthers (Given (in_2 0) (7 ∷ 8 ∷ 9 ∷ 10 ∷ []))) ≡ true }
    ensures too_many { is_ready (held_within None) (ByOthers (Given (in_2 0) (7 ∷ 8 ∷ 9 ∷ 10 ∷ 11 ∷ []))) ≡ false }
    ensures none { is_ready (held_within None) (ByOthers (Given (in_2 0) [])) ≡ false }
    ensures filled { is_ready (held_within None) (ByOthers (Filled (in_2 0))) ≡ false }
    ensures handed { is_ready (held_within None) (ByOthers (Handed (in_2 0))) ≡ true }
    ensures page_there { is_ready (held_within None) (ByOthers (PageGiven (2 ∷ []) 3 (replicate 64 0))) ≡ false }
    ensures page_missing { is_ready (held_within None) (ByOthers (PageTaken (2 ∷ []) 7)) ≡ false }
{}

/// The outside is told of the end of a talk there also where its client dies, alone or in a space;
/// of no talk inside. What it does itself it isn't told.
pub fn the_outside_is_told_of_a_death()
    ensures client { heard (destroying ((3 ∷ [], with_talk (outward turns.Client 0) (running 0 [])) ∷ [])) (own_move_taking 0) ≡
        ToldEnd (3 ∷ []) (Out 9) ∷ [] }
    ensures deep { heard (destroying ((3 ∷ [], Space 0 None) ∷ (7 ∷ 3 ∷ [], with_talk (outward turns.Server 0) (running 0 [])) ∷ [])) (own_move_taking 0) ≡
        ToldEnd (7 ∷ 3 ∷ []) (Out 9) ∷ [] }
    ensures within { heard (destroying ((3 ∷ [], inner_talk (4 ∷ [])) ∷ [])) (own_move_taking 0) ≡ [] }
    ensures port { heard (destroying ((3 ∷ [], Port None false) ∷ (6 ∷ [], inner_talk (3 ∷ [])) ∷ [])) (own_move_taking 0) ≡ [] }
    ensures left { heard (held_within None) (ByOthers (Left (in_2 0))) ≡ [] }
    ensures handed { heard (held_within None) (ByOthers (Handed (in_2 0))) ≡ [] }
    ensures fault_taken { heard (held_within None) (ByOthers (FaultTaken (in_2 1))) ≡ [] }
{}
