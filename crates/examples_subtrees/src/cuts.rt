//! Subtrees seen alone, and whether they are closed.
#![tactic(auto, unfolding(crate::specs::Cuts::cut_worlds))]

ghost use Rattle.std.specs.Prelude.{◌≡◌, [], ◌∷◌, Some, None, false, replicate};
ghost use Rattle.fk_model.specs.declared.thread.Turn.TheVariants as turns;
ghost use Rattle.fk_model.specs.Places.Ptr.{Null, Dead, At, Out, Outside, Far};
ghost use Rattle.fk_model.specs.Objects.Peer.{Server, Service, Parked};
ghost use Rattle.fk_model.specs.Objects.Body.{Port, Space, Reference};
ghost use Rattle.fk_model.specs.Runs.{run};
ghost use Rattle.fk_model.specs.Cut.{cut};
ghost use Rattle.fk_model.specs.Closed.{open_place, IsClosed};
ghost use Rattle.fk_model.specs.Seen.{IsStranger};
ghost use Rattle.examples_moves.specs.Worked.{IsReadyTo, goes, running, with_talk, served_by, filled_to, numbers_from, root_port};
ghost use Rattle.examples_subtrees.specs.Cuts.{open_at, subtree, in_subtree, beside, clearer, led_into, talked_into, led_from_1_2, talk_out, still_sending};
ghost use Rattle.examples_subtrees.specs.Cuts.{sending_out, held_twice, with_scratch, memory_of, many, all_inside};

/// A subtree isn't closed while a reference from outside leads into it; once that is cleared it is.
/// Nor is it while a talk from outside does: it leads to the port and to its server, of which the
/// lower slot comes first.
pub fn a_pointer_from_outside_opens_a_subtree()
    ensures open { open_place led_into [] 1 ≡ open_at (4 ∷ 1 ∷ []) 15 }
    ensures ready { IsReadyTo led_into (goes clearer) }
    ensures closed { IsClosed (run led_into (goes clearer ∷ [])) [] 1 }
    ensures parked { open_place (talked_into Parked) [] 1 ≡ open_at (4 ∷ 1 ∷ []) 15 }
    ensures served { open_place (talked_into (Server (At (in_subtree 3)))) [] 1 ≡ open_at (3 ∷ 1 ∷ []) 15 }
{}

/// A reference may lead inside, to a port in a slot of the nester, or nowhere. What else is in a
/// slot there is far, as is the nester, and a port of the nester's own nester.
pub fn a_reference_leads_inside_or_to_the_nesters_ports()
    ensures far { open_place (led_from_1_2 (At root_port)) subtree 2 ≡ open_at (3 ∷ 2 ∷ []) 0 }
    ensures far_shown { (cut (led_from_1_2 (At root_port)) subtree 2).body (3 ∷ []) ≡ Some (Reference Far) }
    ensures port { IsClosed (led_from_1_2 (At (in_subtree 9))) subtree 2 }
    ensures port_shown { (cut (led_from_1_2 (At (in_subtree 9))) subtree 2).body (3 ∷ []) ≡ Some (Reference (Out 9)) }
    ensures other { open_place (led_from_1_2 (At (in_subtree 8))) subtree 2 ≡ open_at (3 ∷ 2 ∷ []) 0 }
    ensures nester { open_place (led_from_1_2 (At subtree)) subtree 2 ≡ open_at (3 ∷ 2 ∷ []) 0 }
    ensures own_root { IsClosed (led_from_1_2 (At (in_subtree 2))) subtree 2 }
    ensures root_shown { (cut (led_from_1_2 (At (in_subtree 2))) subtree 2).body (3 ∷ []) ≡ Some (Reference (At [])) }
    ensures dead { IsClosed (led_from_1_2 Dead) subtree 2 }
{}

/// A thread inside has sent a block of 64 words to a native server of the nester: its talk is at
/// that port's slot, with somebody outside, and in the midst of it the subtree is closed. Whether
/// the peer is native, a thread or none yet isn't seen.
pub fn a_cut_shows_what_leads_out_by_its_slot()
    ensures ready { IsReadyTo (sending_out Service) (goes (in_subtree 0)) }
    ensures thread { (cut (run (sending_out Service) (goes (in_subtree 0) ∷ [])) [] 1).body (0 ∷ []) ≡
        Some (with_talk (talk_out (Out 9) (Server Outside) 64) (still_sending 192 6)) }
    ensures reference { (cut (run (sending_out Service) (goes (in_subtree 0) ∷ [])) [] 1).body (1 ∷ []) ≡
        Some (Reference (Out 9)) }
    ensures sent_page { (cut (run (sending_out Service) (goes (in_subtree 0) ∷ [])) [] 1).page [] 2 ≡
        Some (replicate 64 0) }
    ensures next_page { (cut (run (sending_out Service) (goes (in_subtree 0) ∷ [])) [] 1).page [] 3 ≡
        Some (filled_to 64 (7 ∷ [])) }
    ensures closed { IsClosed (run (sending_out Service) (goes (in_subtree 0) ∷ [])) [] 1 }
    ensures parked { (cut (sending_out Parked) [] 1).body (0 ∷ []) ≡
        Some (with_talk (talk_out (Out 9) (Server Outside) 0) (still_sending 128 70)) }
    ensures by_thread { (cut (sending_out (Server (At (0 ∷ [])))) [] 1).body (0 ∷ []) ≡
        Some (with_talk (talk_out (Out 9) (Server Outside) 0) (still_sending 128 70)) }
{}

/// What is inside is shown by its path from the subtree's root, without birth numbers and unserved.
/// Pointers inside open nothing, one to the root of the subtree included.
pub fn a_cut_shows_what_is_inside_by_its_path()
    ensures root { (cut all_inside [] 1).body [] ≡ Some (Space 0 None) }
    ensures client { (cut all_inside [] 1).body (0 ∷ []) ≡
        Some (with_talk (served_by (4 ∷ []) (5 ∷ []) turns.Server 3) (running 0 [])) }
    ensures port { (cut all_inside [] 1).body (4 ∷ []) ≡ Some (Port (Some 6) false) }
    ensures space { (cut all_inside [] 1).body (2 ∷ []) ≡ Some (Space 0 (Some (At (5 ∷ [])))) }
    ensures deep { (cut all_inside [] 1).body (7 ∷ 2 ∷ []) ≡ Some (Reference (At [])) }
    ensures nothing { (cut all_inside [] 1).body (9 ∷ []) ≡ None }
    ensures root_page { (cut all_inside [] 1).page [] 3 ≡ Some (numbers_from 1192 64) }
    ensures deep_page { (cut all_inside [] 1).page (2 ∷ []) 3 ≡ Some (numbers_from 2192 64) }
    ensures next { (cut all_inside [] 1).next ≡ 0 }
    ensures closed { IsClosed all_inside [] 1 }
{}

/// Who holds the subtree's root is no part of it. Who holds a space in it is, and lives inside.
pub fn the_holder_of_the_root_is_left_out()
    ensures root { (cut (held_twice (Some (At (0 ∷ []))) None) [] 1).body [] ≡ Some (Space 0 None) }
    ensures closed { IsClosed (held_twice (Some (At (0 ∷ []))) None) [] 1 }
    ensures within { IsClosed (held_twice None (Some (At (in_subtree 3)))) [] 1 }
    ensures shown { (cut (held_twice None (Some (At (in_subtree 3)))) [] 1).body (5 ∷ []) ≡
        Some (Space 0 (Some (At (3 ∷ [])))) }
    ensures outside { open_place (held_twice None (Some (At (0 ∷ [])))) [] 1 ≡ open_at (5 ∷ 1 ∷ []) 0 }
    ensures both { open_place (held_twice (Some (At (0 ∷ []))) (Some (At (0 ∷ [])))) [] 1 ≡ open_at (5 ∷ 1 ∷ []) 0 }
    ensures at_port { open_place (held_twice None (Some (At root_port))) [] 1 ≡ open_at (5 ∷ 1 ∷ []) 0 }
{}

/// The scratch of who holds the subtree may lead into it: slots 240 to 254 of the holder's space,
/// and no others.
pub fn the_holders_scratch_may_lead_into_what_is_held()
    ensures lowest { IsClosed (with_scratch (Some (At (255 ∷ []))) (240 ∷ [])) [] 1 }
    ensures highest { IsClosed (with_scratch (Some (At (255 ∷ []))) (254 ∷ [])) [] 1 }
    ensures below { open_place (with_scratch (Some (At (255 ∷ []))) (239 ∷ [])) [] 1 ≡ open_at (4 ∷ 1 ∷ []) 15 }
    ensures unheld { open_place (with_scratch None (240 ∷ [])) [] 1 ≡ open_at (4 ∷ 1 ∷ []) 15 }
    ensures others { open_place (with_scratch (Some (At (255 ∷ []))) (beside 240)) [] 1 ≡ open_at (4 ∷ 1 ∷ []) 15 }
    ensures of_other { open_place (with_scratch (Some (At (beside 255))) (240 ∷ [])) [] 1 ≡ open_at (4 ∷ 1 ∷ []) 15 }
{}

/// A mapping leads inside or nowhere, never to anything of the nester's. A region may be kept at a
/// port of the nester.
pub fn a_mapping_leads_inside_and_a_keeper_may_be_the_nesters()
    ensures kept_out { IsClosed (memory_of (At (in_subtree 5)) (At root_port)) [] 1 }
    ensures cleared { IsClosed (memory_of Null Dead) [] 1 }
    ensures region_out { open_place (memory_of (At (6 ∷ [])) (At root_port)) [] 1 ≡ open_at (3 ∷ 1 ∷ []) 0 }
    ensures port_out { open_place (memory_of (At root_port) (At root_port)) [] 1 ≡ open_at (3 ∷ 1 ∷ []) 0 }
    ensures kept_far { open_place (memory_of (At (in_subtree 5)) (At (beside 7))) [] 1 ≡ open_at (5 ∷ 1 ∷ []) 0 }
{}

/// Of several places the first counts: an object before what lies in it, that before what is in
/// higher slots, and of one object the lower field.
pub fn the_first_place_counts()
    ensures root { open_place (many (At (beside 7)) (At (beside 7)) (At (beside 7)) (At subtree)) [] 1 ≡ open_at (1 ∷ []) 15 }
    ensures talk { open_place (many (At (beside 7)) (At (beside 7)) (At (beside 7)) Null) [] 1 ≡ open_at (0 ∷ 1 ∷ []) 0 }
    ensures fault { open_place (many (At root_port) (At (beside 7)) (At (beside 7)) Null) [] 1 ≡ open_at (0 ∷ 1 ∷ []) 2 }
    ensures deep { open_place (many (At root_port) (At root_port) (At (beside 7)) Null) [] 1 ≡ open_at (7 ∷ 2 ∷ 1 ∷ []) 0 }
    ensures deep_led_to { open_place (many (At root_port) (At root_port) Null (At (7 ∷ in_subtree 2))) [] 1 ≡ open_at (7 ∷ 2 ∷ 1 ∷ []) 15 }
    ensures last { open_place (many (At root_port) (At root_port) Null Null) [] 1 ≡ open_at (4 ∷ 1 ∷ []) 0 }
    ensures lower_field { open_place (many (At root_port) (At root_port) Null (At (in_subtree 4))) [] 1 ≡ open_at (4 ∷ 1 ∷ []) 0 }
    ensures out_shown { (cut (many (At root_port) (At root_port) Null Null) [] 1).body (4 ∷ []) ≡ Some (Reference Far) }
{}

/// A thread of a space beside a subtree is a stranger to it once no reference of its space leads there.
/// One with a talk at a port inside isn't, nor is a thread of a space above it or one inside.
pub fn a_stranger_has_nothing_that_leads_near()
    ensures pointer { IsStranger led_into [] 1 clearer → ⊥ }
    ensures stranger { IsStranger (run led_into (goes clearer ∷ [])) [] 1 clearer }
    ensures talk { IsStranger (talked_into Parked) [] 1 (beside 0) → ⊥ }
    ensures above { IsStranger (held_twice None None) [] 1 (0 ∷ []) → ⊥ }
    ensures inside { IsStranger (held_twice None None) [] 1 (in_subtree 3) → ⊥ }
{}
