//! Pages, mappings and regions.
#![tactic(auto, unfolding(crate::specs::Memory::memory_worlds))]

ghost use Rattle.std.specs.Prelude.{◌≡◌, [], ◌∷◌, ◌++◌, Some, None, true, false, replicate};
ghost use Rattle.fk_model.specs.Places.Ptr.{At, Null, Dead};
ghost use Rattle.fk_model.specs.Runs.{run, IsLegal};
ghost use Rattle.examples_moves.specs.Worked.{becomes, IsReadyTo, goes, running, halted, with_talk, numbers_from};
ghost use Rattle.examples_moves.specs.Memory.{thread, giving_and_taking, given_and_taken, two_pages, loader, sender, to_root, chain_to, loop, window};
ghost use Rattle.examples_moves.specs.Memory.{all_pages, thread_that_missed_5, missing, two_mappings, two_regions};

/// A page of zeros is given once. It is taken once: its words go to the caller's page. There is no
/// page 256 to give.
pub fn a_page_is_given_once_and_taken_once()
    ensures ready { IsLegal giving_and_taking (
        goes (thread 0) ∷ goes (thread 1) ∷ goes (thread 2) ∷ goes (thread 3) ∷ []) }
    ensures given { becomes giving_and_taking (thread 0) ≡
        Some (running 1 (0 ∷ 256 ∷ 5 ∷ 18446744073709551615 ∷ [])) }
    ensures zeros { (run giving_and_taking (goes (thread 0) ∷ [])).page (1 ∷ []) 5 ≡ Some (replicate 64 0) }
    ensures occupied { (run giving_and_taking (goes (thread 0) ∷ goes (thread 1) ∷ [])).body (thread 1) ≡
        Some (running 1 (4 ∷ 256 ∷ 5 ∷ 18446744073709551615 ∷ [])) }
    ensures taken { given_and_taken.body (thread 2) ≡ Some (running 1 (0 ∷ 256 ∷ 5 ∷ 64 ∷ [])) }
    ensures gone { given_and_taken.page (1 ∷ []) 5 ≡ None }
    ensures moved { given_and_taken.page (1 ∷ []) 1 ≡ Some (replicate 64 0) }
    ensures no_page { becomes giving_and_taking (thread 4) ≡ Some (running 1 (12 ∷ 256 ∷ 256 ∷ [])) }
    ensures none { becomes given_and_taken (thread 3) ≡ Some (running 1 (16 ∷ 256 ∷ 5 ∷ 64 ∷ [])) }
{}

/// A page that is read stays, and one that is given has the words of the caller's page, which stays
/// too.
pub fn pages_are_read_and_copied()
    ensures ready { IsLegal giving_and_taking (goes (thread 5) ∷ goes (thread 6) ∷ []) }
    ensures reader { becomes giving_and_taking (thread 5) ≡ Some (running 1 (0 ∷ 256 ∷ 1 ∷ 128 ∷ [])) }
    ensures read { (run giving_and_taking (goes (thread 5) ∷ [])).page (1 ∷ []) 2 ≡ Some (numbers_from 1064 64) }
    ensures stays { (run giving_and_taking (goes (thread 5) ∷ [])).page (1 ∷ []) 1 ≡ Some (numbers_from 1064 64) }
    ensures giver { becomes giving_and_taking (thread 6) ≡ Some (running 1 (0 ∷ 256 ∷ 7 ∷ 64 ∷ [])) }
    ensures given { (run giving_and_taking (goes (thread 6) ∷ [])).page (1 ∷ []) 7 ≡ Some (numbers_from 1064 64) }
    ensures kept { (run giving_and_taking (goes (thread 6) ∷ [])).page (1 ∷ []) 1 ≡ Some (numbers_from 1064 64) }
{}

/// The pages 0 and 3 are there: the first at or above 1 is 3, and above 3 there is none.
pub fn the_next_page_is_found()
    ensures ready { IsLegal two_pages (goes (thread 0) ∷ goes (thread 1) ∷ []) }
    ensures found { becomes two_pages (thread 0) ≡ Some (running 1 (0 ∷ 3 ∷ 1 ∷ [])) }
    ensures none { becomes two_pages (thread 1) ≡ Some (running 1 (16 ∷ 256 ∷ 4 ∷ [])) }
{}

/// A page is reached by 16 mappings: it is loaded from, and sent from. Not by 17, nor where it is
/// mapped to itself: a load halts with code 2, and a send ends BADADDRESS.
pub fn sixteen_mappings_are_followed_and_no_more()
    ensures ready { IsLegal (chain_to 17) (goes loader ∷ goes sender ∷ []) }
    ensures loads { becomes (chain_to 17) loader ≡ Some (running 1 (0 ∷ 5 ∷ [])) }
    ensures sends { becomes (chain_to 17) sender ≡ Some (with_talk (to_root 1) (running 1 (0 ∷ 0 ∷ 193 ∷ []))) }
    ensures arrives { (run (chain_to 17) (goes sender ∷ [])).page [] 1 ≡ Some (5 ∷ numbers_from 2065 63) }
    ensures ready_at_17 { IsLegal (chain_to 18) (goes loader ∷ goes sender ∷ []) }
    ensures halts_at_17 { becomes (chain_to 18) loader ≡ Some (halted 0 [] 2) }
    ensures ends_at_17 { becomes (chain_to 18) sender ≡
        Some (with_talk (to_root 0) (running 1 (12 ∷ 0 ∷ 192 ∷ 1 ∷ []))) }
    ensures ready_in_loop { IsLegal loop (goes loader ∷ goes sender ∷ []) }
    ensures halts_in_loop { becomes loop loader ≡ Some (halted 0 [] 2) }
    ensures ends_in_loop { becomes loop sender ≡ Some (with_talk (to_root 0) (running 1 (12 ∷ 0 ∷ 192 ∷ 1 ∷ []))) }
{}

/// A store to word 5 of page 12 goes through a window from page 10 on, at page 2 of a region from
/// page 20 on, to page 24. It halts with code 2 where the region is too short, or gives no right to
/// write.
pub fn a_store_goes_through_a_window()
    ensures ready { IsReadyTo (window 5 true 773) (goes (thread 0)) }
    ensures goes_on { becomes (window 5 true 773) (thread 0) ≡ Some (running 1 (0 ∷ 7 ∷ 773 ∷ [])) }
    ensures stored { (run (window 5 true 773) (goes (thread 0) ∷ [])).page (2 ∷ []) 24 ≡
        Some (numbers_from 3536 5 ++ (7 ∷ numbers_from 3542 58)) }
    ensures other { (run (window 5 true 773) (goes (thread 0) ∷ [])).page (2 ∷ []) 25 ≡
        Some (numbers_from 3600 64) }
    ensures too_short { becomes (window 4 true 773) (thread 0) ≡ Some (halted 0 (0 ∷ 7 ∷ 773 ∷ []) 2) }
    ensures no_right { becomes (window 5 false 773) (thread 0) ≡ Some (halted 0 (0 ∷ 7 ∷ 773 ∷ []) 2) }
{}

/// A load from a missing page raises a fault at its keeper and changes nothing else. Where nobody
/// keeps the page the thread halts with code 4, and past the last page with code 2.
pub fn a_load_from_a_missing_page()
    ensures ready { IsReadyTo (missing (all_pages (At (9 ∷ []))) 128) (goes (thread 0)) }
    ensures faults { becomes (missing (all_pages (At (9 ∷ []))) 128) (thread 0) ≡ Some thread_that_missed_5 }
    ensures not_covered { becomes (missing [] 128) (thread 0) ≡ Some (halted 0 (0 ∷ 0 ∷ 128 ∷ []) 4) }
    ensures no_keeper { becomes (missing (all_pages Null) 128) (thread 0) ≡ Some (halted 0 (0 ∷ 0 ∷ 128 ∷ []) 4) }
    ensures dead_keeper { becomes (missing (all_pages Dead) 128) (thread 0) ≡ Some (halted 0 (0 ∷ 0 ∷ 128 ∷ []) 4) }
    ensures past_the_end { becomes (missing (all_pages (At (9 ∷ []))) 16192) (thread 0) ≡
        Some (halted 0 (0 ∷ 0 ∷ 16192 ∷ []) 2) }
{}

/// Of two mappings that hold a missing page the one in the lowest slot is followed.
pub fn the_mapping_in_the_lowest_slot_is_followed()
    ensures ready { IsReadyTo (two_mappings 5 1 2) (goes (thread 0)) }
    ensures first { becomes (two_mappings 5 1 2) (thread 0) ≡ Some (running 1 (0 ∷ 3280 ∷ 128 ∷ [])) }
    ensures other_way { becomes (two_mappings 5 2 1) (thread 0) ≡ Some (running 1 (0 ∷ 3920 ∷ 128 ∷ [])) }
    ensures of_another_page { becomes (two_mappings 6 1 2) (thread 0) ≡ Some (running 1 (0 ∷ 3920 ∷ 128 ∷ [])) }
{}

/// Of two regions that hold a missing page the one in the lowest slot gives the keeper, also where
/// it has none.
pub fn the_region_in_the_lowest_slot_gives_the_keeper()
    ensures ready { IsReadyTo (two_regions 5 (At (9 ∷ [])) (At (10 ∷ []))) (goes (thread 0)) }
    ensures first { becomes (two_regions 5 (At (9 ∷ [])) (At (10 ∷ []))) (thread 0) ≡ Some thread_that_missed_5 }
    ensures other_none { becomes (two_regions 5 (At (9 ∷ [])) Null) (thread 0) ≡ Some thread_that_missed_5 }
    ensures no_keeper { becomes (two_regions 5 Null (At (9 ∷ []))) (thread 0) ≡
        Some (halted 0 (0 ∷ 0 ∷ 128 ∷ []) 4) }
    ensures of_another_page { becomes (two_regions 6 (At (10 ∷ [])) (At (9 ∷ []))) (thread 0) ≡
        Some thread_that_missed_5 }
{}
