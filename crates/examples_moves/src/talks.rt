//! Talks, and messages in them.
#![tactic(auto, unfolding(crate::specs::Talks::talk_worlds))]

ghost use Rattle.std.specs.Prelude.{◌≡◌, [], ◌∷◌, ◌++◌, Some, None, true, false, map, replicate};
ghost use Rattle.fk_model.specs.declared.thread.Turn.TheVariants as turns;
ghost use Rattle.fk_model.specs.Places.Ptr.{Null, Dead, At};
ghost use Rattle.fk_model.specs.Objects.Body.{Reference};
ghost use Rattle.fk_model.specs.Objects.Peer.{Server};
ghost use Rattle.fk_model.specs.Runs.{run, IsLegal};
ghost use Rattle.examples_moves.specs.Worked.{becomes, scene, after_each, IsReadyTo, with_fault, goes, picks, times, running, calling, stopped, with_talk};
ghost use Rattle.examples_moves.specs.Worked.{registers_from, numbers_from, client, server};
ghost use Rattle.examples_moves.specs.Talks.{port, clients_turn, servers_turn, sending, asking_to_receive, message, sent, ends_at, left, sent_all, both_ends};
ghost use Rattle.examples_moves.specs.Talks.{sent_to_few, linked_in, unlinked_in, handing, handed, taking_in, handing_back, handed_back, taking_back_in, handing_beside};
ghost use Rattle.examples_moves.specs.Talks.{into_held, to_held, handing_within, reader, second_reader, watched, sent_and_read, keeper_thread, kept, sent_5};
ghost use Rattle.examples_moves.specs.Talks.{received_5, write_missed_5, arrives, misses, keeper_parts, talkers_and_keeper, until_mended, meeting, replying};
ghost use Rattle.examples_moves.specs.Talks.{ending, waiting, waited_for, receives_10, taken_fault, picked, still_serving};

/// A message of 130 words goes in five moves: none moves more words than a page, of either side,
/// has left from the address on. Both sides' registers say at any time what is left, as if they had
/// called with it; the talk counts the words.
pub fn a_message_moves_block_by_block()
    ensures ready { IsLegal (message 182 130 315 200) (times 5 (goes client)) }
    ensures start { ends_at (message 182 130 315 200) ≡ left 182 130 315 200 }
    ensures moves { map ends_at (after_each (message 182 130 315 200) (replicate 4 (goes client ∷ []))) ≡
        left 187 125 320 195 ∷ left 192 120 325 190 ∷ left 251 61 384 131 ∷ left 256 56 389 126 ∷ [] }
    ensures sent { ends_at (sent 5) ≡ (registers_from sent_all, registers_from (asking_to_receive 445 70)) }
    ensures between { scene both_ends (sent 3) ≡
        Some (with_talk (clients_turn 69) (calling 20 (sending 251 61)))
        ∷ Some (calling 30 (asking_to_receive 384 131)) ∷ [] }
    ensures all_sent { (sent 5).body client ≡ Some (with_talk (clients_turn 130) (calling 20 sent_all)) }
{}

/// The words of a message arrive in their order, and no other word of a page changes.
pub fn the_words_of_a_message_arrive()
    ensures first { (sent 5).page (2 ∷ []) 4 ≡ Some (numbers_from 2256 59 ++ numbers_from 1182 5) }
    ensures second { (sent 5).page (2 ∷ []) 5 ≡ Some (numbers_from 1187 64) }
    ensures third { (sent 5).page (2 ∷ []) 6 ≡ Some (numbers_from 1251 61 ++ numbers_from 2445 3) }
    ensures sender { (sent 5).page (1 ∷ []) 5 ≡ Some (numbers_from 1320 64) }
    ensures missing { (sent 5).page (2 ∷ []) 2 ≡ None }
{}

/// The sender's Over ends the other side's receive and passes the turn to it.
pub fn over_ends_the_receive_and_passes_the_turn()
    ensures ready { IsReadyTo (sent 5) (goes client) }
    ensures both { scene both_ends (sent 6) ≡
        Some (with_talk (servers_turn 0) (calling 20 (36 ∷ 9 ∷ 312 ∷ 0 ∷ 448 ∷ 10 ∷ [])))
        ∷ Some (running 31 (0 ∷ 8 ∷ 7 ∷ 6 ∷ 445 ∷ 70 ∷ [])) ∷ [] }
    ensures waits { ¬ IsReadyTo (sent 6) (goes client) }
{}

/// A receiver without room left is ended with FULL, and the sender stays where it is, with the
/// rest.
pub fn a_full_receiver_is_ended_and_the_sender_stays()
    ensures ready { IsLegal (message 256 130 320 40) (times 2 (goes client)) }
    ensures first { ends_at (sent_to_few 1) ≡ left 296 90 360 0 }
    ensures ended { scene both_ends (sent_to_few 2) ≡
        Some (with_talk (clients_turn 40) (calling 20 (sending 296 90)))
        ∷ Some (running 31 (15 ∷ 8 ∷ 7 ∷ 6 ∷ 360 ∷ 0 ∷ [])) ∷ [] }
    ensures waits { ¬ IsReadyTo (sent_to_few 2) (goes client) }
{}

/// Without a talk Over is refused NOTLINKED; at the client's own turn its Receive is refused
/// WRONGTURN; and a client with a talk is refused LINKED where it connects once more. Without a
/// taken fault its end is refused NOTLINKED too.
pub fn a_clients_calls_ask_for_its_talk()
    ensures ready { IsReadyTo (unlinked_in (38 ∷ [])) (goes client) }
    ensures no_talk { becomes (unlinked_in (38 ∷ [])) client ≡ Some (running 21 (10 ∷ [])) }
    ensures own_turn { becomes (linked_in (36 ∷ [])) client ≡
        Some (with_talk (clients_turn 0) (running 21 (18 ∷ []))) }
    ensures linked { becomes (linked_in (32 ∷ 4 ∷ [])) client ≡
        Some (with_talk (clients_turn 0) (running 21 (11 ∷ 4 ∷ []))) }
    ensures no_fault { becomes (unlinked_in (56 ∷ [])) client ≡ Some (running 21 (10 ∷ [])) }
    ensures waits { ¬ IsReadyTo (unlinked_in (32 ∷ 4 ∷ [])) (goes client) }
{}

/// With call 40 the pointer of a reference goes with the turn: the server's reference takes it, and
/// r1 says so. A server that takes no pointer, at 50, is given none; one that is given none, by call
/// 38, answers 0; and a pointer that leads nowhere goes like any other.
pub fn a_pointer_goes_with_the_turn()
    ensures ready { IsReadyTo (handing (At port) (40 ∷ 4 ∷ []) (taking_in 5)) (goes client) }
    ensures handed { handed (handing (At port) (40 ∷ 4 ∷ []) (taking_in 5)) ≡
        Some (with_talk (servers_turn 0) (running 21 (0 ∷ 4 ∷ [])))
        ∷ Some (running 31 (0 ∷ 1 ∷ 7 ∷ 6 ∷ 320 ∷ 40 ∷ 5 ∷ [])) ∷ Some (Reference (At port)) ∷ [] }
    ensures no_taker { handed (handing (At port) (40 ∷ 4 ∷ []) (asking_to_receive 320 40)) ≡
        Some (with_talk (servers_turn 0) (running 21 (0 ∷ 4 ∷ [])))
        ∷ Some (running 31 (0 ∷ 8 ∷ 7 ∷ 6 ∷ 320 ∷ 40 ∷ [])) ∷ Some (Reference Null) ∷ [] }
    ensures nothing { handed (handing (At port) (38 ∷ []) (taking_in 5)) ≡
        Some (with_talk (servers_turn 0) (running 21 []))
        ∷ Some (running 31 (0 ∷ 0 ∷ 7 ∷ 6 ∷ 320 ∷ 40 ∷ 5 ∷ [])) ∷ Some (Reference Null) ∷ [] }
    ensures nowhere { handed (handing Dead (40 ∷ 4 ∷ []) (taking_in 5)) ≡
        Some (with_talk (servers_turn 0) (running 21 (0 ∷ 4 ∷ [])))
        ∷ Some (running 31 (0 ∷ 1 ∷ 7 ∷ 6 ∷ 320 ∷ 40 ∷ 5 ∷ [])) ∷ Some (Reference Dead) ∷ [] }
{}

/// An empty slot is refused BADHANDLE and what is no reference WRONGKIND, before the talk is looked at,
/// on either side; a client waits for a server that is refused.
pub fn a_slot_without_a_reference_is_refused()
    ensures empty { becomes (handing (At port) (40 ∷ 9 ∷ []) (taking_in 5)) client ≡
        Some (with_talk (clients_turn 7) (running 21 (2 ∷ 9 ∷ []))) }
    ensures no_reference { becomes (handing (At port) (40 ∷ 0 ∷ []) (taking_in 5)) client ≡
        Some (with_talk (clients_turn 7) (running 21 (3 ∷ 0 ∷ []))) }
    ensures no_talk { becomes (unlinked_in (40 ∷ 9 ∷ [])) client ≡ Some (running 21 (2 ∷ 9 ∷ [])) }
    ensures talk { becomes (unlinked_in (40 ∷ 4 ∷ [])) client ≡ Some (running 21 (10 ∷ 4 ∷ [])) }
    ensures waits { ¬ IsReadyTo (handing (At port) (40 ∷ 4 ∷ []) (taking_in 6)) (goes client) }
    ensures server { becomes (handing (At port) (40 ∷ 4 ∷ []) (taking_in 6)) server ≡
        Some (running 31 (2 ∷ 8 ∷ 7 ∷ 6 ∷ 320 ∷ 40 ∷ 6 ∷ [])) }
    ensures server_waits { ¬ IsReadyTo (handing (At port) (40 ∷ 4 ∷ []) (taking_in 5)) (goes server) }
{}

/// On the other side it is the same: with call 57 the pointer of the server's reference goes to a client
/// at 41. Where words that were sent find no room, or the other side leaves, r1 says nothing of a pointer.
pub fn a_pointer_comes_back_with_the_turn()
    ensures ready { IsReadyTo (handing_back (At port) (taking_back_in 4) (57 ∷ 5 ∷ [])) (goes server) }
    ensures handed { handed_back (handing_back (At port) (taking_back_in 4) (57 ∷ 5 ∷ [])) ≡
        Some (with_talk (clients_turn 0) (running 21 (0 ∷ 1 ∷ 7 ∷ 6 ∷ 448 ∷ 40 ∷ 4 ∷ [])))
        ∷ Some (running 31 (0 ∷ 5 ∷ [])) ∷ Some (Reference (At port)) ∷ [] }
    ensures no_taker { handed_back (handing_back (At port) (36 ∷ 8 ∷ 7 ∷ 6 ∷ 448 ∷ 40 ∷ []) (57 ∷ 5 ∷ [])) ≡
        Some (with_talk (clients_turn 0) (running 21 (0 ∷ 8 ∷ 7 ∷ 6 ∷ 448 ∷ 40 ∷ [])))
        ∷ Some (running 31 (0 ∷ 5 ∷ [])) ∷ Some (Reference Null) ∷ [] }
    ensures nothing { handed_back (handing_back (At port) (taking_back_in 4) (52 ∷ [])) ≡
        Some (with_talk (clients_turn 0) (running 21 (0 ∷ 0 ∷ 7 ∷ 6 ∷ 448 ∷ 40 ∷ 4 ∷ [])))
        ∷ Some (running 31 []) ∷ Some (Reference Null) ∷ [] }
    ensures full { handed (handing (At port) (37 ∷ 9 ∷ 256 ∷ 1 ∷ []) (58 ∷ 8 ∷ 7 ∷ 6 ∷ 320 ∷ 0 ∷ 5 ∷ [])) ≡
        Some (with_talk (clients_turn 7) (calling 20 (37 ∷ 9 ∷ 256 ∷ 1 ∷ [])))
        ∷ Some (running 31 (15 ∷ 8 ∷ 7 ∷ 6 ∷ 320 ∷ 0 ∷ 5 ∷ [])) ∷ Some (Reference Null) ∷ [] }
    ensures left { handed (handing (At port) (39 ∷ []) (taking_in 5)) ≡
        Some (running 21 []) ∷ Some (running 31 (14 ∷ 8 ∷ 7 ∷ 6 ∷ 320 ∷ 40 ∷ 5 ∷ [])) ∷ Some (Reference Null) ∷ [] }
    ensures left_behind { handed_back (handing_back (At port) (40 ∷ 4 ∷ []) (55 ∷ [])) ≡
        Some (running 21 (14 ∷ 4 ∷ [])) ∷ Some (running 31 []) ∷ Some (Reference Null) ∷ [] }
    ensures sends_wait { ¬ IsReadyTo (handing (At port) (37 ∷ 9 ∷ 256 ∷ 1 ∷ []) (taking_in 6)) (goes client) }
    ensures wrong_turn { becomes (handing (At port) (40 ∷ 4 ∷ []) (57 ∷ 5 ∷ [])) server ≡ Some (running 31 (18 ∷ 5 ∷ [])) }
    ensures handle_first { becomes (handing (At port) (40 ∷ 4 ∷ []) (57 ∷ 6 ∷ [])) server ≡ Some (running 31 (2 ∷ 6 ∷ [])) }
    ensures own_turn { becomes (handing (At port) (41 ∷ 0 ∷ 0 ∷ 0 ∷ 16384 ∷ 1 ∷ 4 ∷ []) (taking_in 5)) client ≡
        Some (with_talk (clients_turn 7) (running 21 (18 ∷ 0 ∷ 0 ∷ 0 ∷ 16384 ∷ 1 ∷ 4 ∷ []))) }
    ensures within { scene ((4 ∷ 1 ∷ []) ∷ (1 ∷ 1 ∷ []) ∷ []) (run handing_within (goes client ∷ [])) ≡
        Some (Reference (At (3 ∷ 1 ∷ []))) ∷ Some (running 31 (0 ∷ 1 ∷ 7 ∷ 6 ∷ 320 ∷ 40 ∷ 4 ∷ [])) ∷ [] }
{}

/// No pointer that leads to what another holds goes with a turn, whether it is awaited or not, and none
/// takes the place of one that does. Without a pointer the turn goes, and what is refused is refused.
pub fn no_pointer_goes_to_what_is_held()
    ensures into { ¬ IsReadyTo (handing_beside into_held Null (40 ∷ 4 ∷ []) (taking_in 5)) (goes client) }
    ensures held { ¬ IsReadyTo (handing_beside to_held Null (40 ∷ 4 ∷ []) (taking_in 5)) (goes client) }
    ensures unawaited { ¬ IsReadyTo (handing_beside to_held Null (40 ∷ 4 ∷ []) (asking_to_receive 320 40)) (goes client) }
    ensures replaced { ¬ IsReadyTo (handing_beside (At port) into_held (40 ∷ 4 ∷ []) (taking_in 5)) (goes client) }
    ensures replaced_by_none { ¬ IsReadyTo (handing_beside Null into_held (40 ∷ 4 ∷ []) (taking_in 5)) (goes client) }
    ensures beside { IsReadyTo (handing_beside (At port) Null (40 ∷ 4 ∷ []) (taking_in 5)) (goes client) }
    ensures stays { handed (handing_beside (At port) into_held (38 ∷ []) (taking_in 5)) ≡
        Some (with_talk (servers_turn 0) (running 21 [])) ∷ Some (running 31 (0 ∷ 0 ∷ 7 ∷ 6 ∷ 320 ∷ 40 ∷ 5 ∷ [])) ∷ Some (Reference into_held) ∷ [] }
    ensures unfilled { IsReadyTo (handing_beside (At port) into_held (40 ∷ 4 ∷ []) (asking_to_receive 320 40)) (goes client) }
    ensures refused { becomes (handing_beside Null to_held (36 ∷ []) (57 ∷ 5 ∷ [])) server ≡ Some (running 31 (18 ∷ 5 ∷ [])) }
{}

/// In the midst of a message the client's record names the rest of its call, its talk at its own
/// turn and the words moved; the server's names what is left to receive, and no talk.
pub fn records_show_a_message_in_its_midst()
    ensures ready { IsLegal watched sent_and_read }
    ensures records { (run watched sent_and_read).page [] 1 ≡
        Some ((8 ∷ 34 ∷ 9 ∷ 251 ∷ 61 ∷ 448 ∷ 10 ∷ [])
        ++ (replicate 10 0
        ++ ((20 ∷ 1 ∷ 0 ∷ 0 ∷ 1 ∷ 69 ∷ [])
        ++ (replicate 9 0
        ++ ((8 ∷ 50 ∷ 8 ∷ 7 ∷ 6 ∷ 384 ∷ 131 ∷ [])
        ++ (replicate 10 0
        ++ ((30 ∷ 1 ∷ 0 ∷ 0 ∷ 0 ∷ 0 ∷ []) ++ replicate 9 0))))))) }
    ensures reader { (run watched sent_and_read).body reader ≡ Some (running 1 (0 ∷ 1 ∷ 0 ∷ 64 ∷ [])) }
    ensures second_reader { (run watched sent_and_read).body second_reader ≡ Some (running 1 (0 ∷ 2 ∷ 1 ∷ 96 ∷ [])) }
{}

/// The receiver's next page is missing: the sender waits, and the receiver raises a fault where it
/// stands. The keeper takes the fault, gives the page and is done; then the message goes on as if
/// the page had been there.
pub fn a_message_waits_until_its_keeper_gives_the_page()
    ensures ready { IsLegal kept (until_mended ++ times 4 (goes client)) }
    ensures seen { map (scene talkers_and_keeper) (after_each kept keeper_parts) ≡
        (Some sent_5 ∷ Some received_5 ∷ Some (running 0 []) ∷ [])
        ∷ (Some sent_5 ∷ Some (with_fault (write_missed_5 None) received_5) ∷ Some (running 0 []) ∷ [])
        ∷ (Some sent_5 ∷ Some (with_fault (write_missed_5 (Some (Server (At keeper_thread)))) received_5)
        ∷ Some (running 3 (0 ∷ 9 ∷ 1 ∷ 5 ∷ 1 ∷ [])) ∷ [])
        ∷ (Some sent_5 ∷ Some received_5
        ∷ Some (running 10 (0 ∷ 2 ∷ 5 ∷ 18446744073709551615 ∷ 1 ∷ [])) ∷ []) ∷ [] }
    ensures waits { ¬ IsReadyTo (run kept arrives) (goes client) }
    ensures waits_on { ¬ IsReadyTo (run kept (arrives ++ misses)) (goes client) }
    ensures faulty { ¬ IsReadyTo (run kept (arrives ++ misses)) (goes server) }
    ensures given { (run kept until_mended).page (2 ∷ []) 5 ≡ Some (replicate 64 0) }
    ensures goes_on { map ends_at (after_each kept (until_mended ∷ replicate 4 (goes client ∷ []))) ≡
        left 187 125 320 195 ∷ left 192 120 325 190 ∷ left 251 61 384 131 ∷ left 256 56 389 126
        ∷ (registers_from sent_all, registers_from (asking_to_receive 445 70)) ∷ [] }
    ensures words { (run kept (until_mended ++ times 4 (goes client))).page (2 ∷ []) 5 ≡
        Some (numbers_from 1187 64) }
{}

/// A client's Connect waits until a server's wait picks the client. The server is told the port's
/// slot and that it is a new talk; both calls go on with their next stages.
pub fn a_wait_connects_a_client()
    ensures alone { ¬ IsReadyTo meeting (goes client) }
    ensures no_pick { ¬ IsReadyTo meeting (goes server) }
    ensures ready { IsReadyTo meeting (picks server client) }
    ensures linked { scene both_ends (run meeting (picks server client ∷ [])) ≡
        Some (with_talk (clients_turn 0) (calling 20 (34 ∷ 4 ∷ 182 ∷ 130 ∷ 448 ∷ 10 ∷ [])))
        ∷ Some (calling 30 (50 ∷ 3 ∷ 0 ∷ 66 ∷ 315 ∷ 200 ∷ [])) ∷ [] }
{}

/// A server sends its reply and gives the turn back, and then receives again.
pub fn a_server_replies_and_gives_the_turn_back()
    ensures ready { IsLegal replying (times 2 (goes server)) }
    ensures sends { map (scene both_ends) (after_each replying ((goes server ∷ []) ∷ (goes server ∷ []) ∷ [])) ≡
        (Some (with_talk (servers_turn 10) (calling 20 (36 ∷ 9 ∷ 312 ∷ 0 ∷ 458 ∷ 0 ∷ [])))
        ∷ Some (calling 30 (54 ∷ 8 ∷ 266 ∷ 0 ∷ 315 ∷ 200 ∷ [])) ∷ [])
        ∷ (Some (with_talk (clients_turn 0) (running 21 (0 ∷ 9 ∷ 312 ∷ 0 ∷ 458 ∷ 0 ∷ [])))
        ∷ Some (calling 30 (50 ∷ 8 ∷ 266 ∷ 0 ∷ 315 ∷ 200 ∷ [])) ∷ []) ∷ [] }
    ensures words { (run replying (goes server ∷ [])).page (1 ∷ []) 7 ≡
        Some (numbers_from 2256 10 ++ numbers_from 1458 54) }
{}

/// A talk ends by either side at any turn, and the other side's Send, Over or Receive in it ends
/// ENDED.
pub fn the_end_of_a_talk_ends_the_other_sides_call()
    ensures disconnects { IsReadyTo (linked_in (39 ∷ [])) (goes client) }
    ensures by_client { scene both_ends (run (linked_in (39 ∷ [])) (goes client ∷ [])) ≡
        Some (running 21 []) ∷ Some (running 31 (14 ∷ 8 ∷ 7 ∷ 6 ∷ 315 ∷ 200 ∷ [])) ∷ [] }
    ensures ends { IsReadyTo ending (goes server) }
    ensures by_server { scene both_ends (run ending (goes server ∷ [])) ≡
        Some (running 21 (14 ∷ 9 ∷ 312 ∷ 0 ∷ 448 ∷ 10 ∷ [])) ∷ Some (running 31 []) ∷ [] }
{}

/// A wait takes up a parked talk, a raised fault also of a stopped thread, and a parked fault; its
/// whole call ends, and the answers say what there is to know. It takes no fault that is taken, and
/// no talk or call of a stopped thread. A server that serves doesn't wait.
pub fn a_wait_takes_faults_and_parked_talks()
    ensures ready { IsReadyTo waiting (picks server (waited_for 10))
        × (IsReadyTo waiting (picks server (waited_for 11))
        × IsReadyTo waiting (picks server (waited_for 12))) }
    ensures talk { scene (server ∷ waited_for 10 ∷ []) (picked 10) ≡
        Some (running 31 (0 ∷ 3 ∷ 2 ∷ 2 ∷ 5 ∷ 200 ∷ []))
        ∷ Some (with_talk (servers_turn 5) receives_10) ∷ [] }
    ensures raised { scene (server ∷ waited_for 11 ∷ []) (picked 11) ≡
        Some (running 31 (0 ∷ 3 ∷ 1 ∷ 5 ∷ 1 ∷ 200 ∷ []))
        ∷ Some (stopped 1 (with_fault (taken_fault 5 true) (running 0 []))) ∷ [] }
    ensures parked { scene (server ∷ waited_for 12 ∷ []) (picked 12) ≡
        Some (running 31 (0 ∷ 3 ∷ 3 ∷ 6 ∷ 0 ∷ 200 ∷ []))
        ∷ Some (with_fault (taken_fault 6 false) (running 0 [])) ∷ [] }
    ensures not_taken { ¬ IsReadyTo waiting (picks server (waited_for 13)) }
    ensures not_stopped { ¬ IsReadyTo waiting (picks server (waited_for 14)) }
    ensures connecting { ¬ IsReadyTo waiting (picks server (waited_for 15)) }
    ensures serving { becomes still_serving server ≡ Some (running 31 (11 ∷ 8 ∷ [])) }
    ensures no_pick { ¬ IsReadyTo still_serving (picks server client) }
{}

/// A sender whose own page is missing, with nobody to keep it, ends BADADDRESS. With nothing to
/// send it is done at once.
pub fn a_senders_own_page_comes_first()
    ensures refused { becomes (message 384 10 315 200) client ≡
        Some (with_talk (clients_turn 0) (running 21 (12 ∷ 9 ∷ 384 ∷ 10 ∷ 448 ∷ 10 ∷ []))) }
    ensures nothing { becomes (message 384 0 315 200) client ≡
        Some (with_talk (clients_turn 0) (calling 20 (35 ∷ 9 ∷ 384 ∷ 0 ∷ 448 ∷ 10 ∷ []))) }
    ensures full { ends_at (run (message 182 130 315 0) (goes client ∷ [])) ≡
        (registers_from (sending 182 130), registers_from (15 ∷ 8 ∷ 7 ∷ 6 ∷ 315 ∷ 0 ∷ [])) }
{}
