//! Native servers and their clients.
#![tactic(auto, unfolding(crate::specs::Servers::server_worlds))]

ghost use Rattle.std.specs.Prelude.{◌≡◌, [], ◌∷◌, ◌++◌, Some, true, false, replicate};
ghost use Rattle.fk_model.specs.declared.thread.Turn.TheVariants as turns;
ghost use Rattle.fk_model.specs.Places.Ptr.{At};
ghost use Rattle.fk_model.specs.Objects.Body.{Reference};
ghost use Rattle.fk_model.specs.Outcomes.Said.{Taken, Words, Passed, Given, Full, Ended};
ghost use Rattle.fk_model.specs.Runs.{run, IsLegal};
ghost use Rattle.examples_moves.specs.Worked.{becomes, IsReadyTo, told_by_move, goes, accepts, gives, hands_over, running, calling, halted, with_talk};
ghost use Rattle.examples_moves.specs.Worked.{numbers_from, root_port, client};
ghost use Rattle.examples_moves.specs.Servers.{served, to_console, rest_of_send, entered, and_accepted, and_sent_one, and_sent_two, and_turned, and_returned};
ghost use Rattle.examples_moves.specs.Servers.{awaiting, handing_to_native, second, two_clients, leaving, idling};

/// A program sends 70 words to a native server in two blocks, the first of them 64 words, and gets
/// the turn back.
pub fn a_program_sends_words_to_a_native_server()
    ensures ready { IsLegal to_console (and_returned ++ goes client ∷ []) }
    ensures alone { ¬ IsReadyTo (run to_console entered) (goes client) }
    ensures entered { (run to_console entered).body client ≡ Some (calling 7 (rest_of_send 33 128 70)) }
    ensures accepted { (run to_console and_accepted).body client ≡
        Some (with_talk (served turns.Client 0) (calling 7 (rest_of_send 34 128 70))) }
    ensures sent_one { (run to_console and_sent_one).body client ≡
        Some (with_talk (served turns.Client 64) (calling 7 (rest_of_send 34 192 6))) }
    ensures sent_two { (run to_console and_sent_two).body client ≡
        Some (with_talk (served turns.Client 70) (calling 7 (rest_of_send 35 198 0))) }
    ensures turned { (run to_console and_turned).body client ≡
        Some (with_talk (served turns.Server 0) (calling 7 (rest_of_send 36 198 0))) }
    ensures returned { (run to_console and_returned).body client ≡
        Some (with_talk (served turns.Client 0) (running 8 (rest_of_send 0 198 0))) }
    ensures halts { (run to_console (and_returned ++ goes client ∷ [])).body client ≡
        Some (with_talk (served turns.Client 0) (halted 8 (rest_of_send 0 198 0) 0)) }
    ensures told_taken { told_by_move (run to_console entered) (accepts root_port client) ≡
        Taken (At root_port) client false turns.Client 0 }
    ensures told_first { told_by_move (run to_console and_accepted) (goes client) ≡ Words (At root_port) (replicate 64 0) }
    ensures told_second { told_by_move (run to_console and_sent_one) (goes client) ≡
        Words (At root_port) (7 ∷ 0 ∷ 0 ∷ 0 ∷ 0 ∷ 0 ∷ []) }
    ensures told_turned { told_by_move (run to_console and_sent_two) (goes client) ≡ Passed (At root_port) }
    ensures told_returned { told_by_move (run to_console and_turned) (hands_over root_port) ≡ Passed (At root_port) }
{}

/// A native server gives its reply into its client's page. A client without room is ended with
/// FULL.
pub fn a_native_server_gives_its_reply()
    ensures ready { IsReadyTo (awaiting 4) (gives root_port (8 ∷ [])) }
    ensures client { (run (awaiting 4) (gives root_port (8 ∷ []) ∷ [])).body client ≡
        Some (with_talk (served turns.Server 1) (calling 20 (36 ∷ 1 ∷ 128 ∷ 0 ∷ 193 ∷ 3 ∷ []))) }
    ensures words { (run (awaiting 4) (gives root_port (8 ∷ []) ∷ [])).page (1 ∷ []) 3 ≡
        Some (8 ∷ numbers_from 1193 63) }
    ensures given { told_by_move (awaiting 4) (gives root_port (8 ∷ [])) ≡ Given (At root_port) 1 }
    ensures full { (run (awaiting 0) (gives root_port (8 ∷ []) ∷ [])).body client ≡
        Some (with_talk (served turns.Server 0) (running 21 (15 ∷ 1 ∷ 128 ∷ 0 ∷ 192 ∷ 0 ∷ []))) }
    ensures told_full { told_by_move (awaiting 0) (gives root_port (8 ∷ [])) ≡ Full (At root_port) }
{}

/// A native server drops a pointer that comes with the turn, and brings none to a client that awaits
/// one. It gives such a client words like any other.
pub fn a_native_server_takes_and_brings_no_pointer()
    ensures ready { IsReadyTo (handing_to_native turns.Client (40 ∷ 1 ∷ [])) (goes client) }
    ensures turned { becomes (handing_to_native turns.Client (40 ∷ 1 ∷ [])) client ≡ Some (with_talk (served turns.Server 0) (running 21 (0 ∷ 1 ∷ []))) }
    ensures told { told_by_move (handing_to_native turns.Client (40 ∷ 1 ∷ [])) (goes client) ≡ Passed (At root_port) }
    ensures returned { (run (handing_to_native turns.Server (41 ∷ 8 ∷ 128 ∷ 0 ∷ 192 ∷ 4 ∷ 1 ∷ [])) (hands_over root_port ∷ [])).body client ≡
        Some (with_talk (served turns.Client 0) (running 21 (0 ∷ 0 ∷ 128 ∷ 0 ∷ 192 ∷ 4 ∷ 1 ∷ []))) }
    ensures kept { (run (handing_to_native turns.Server (41 ∷ 8 ∷ 128 ∷ 0 ∷ 192 ∷ 4 ∷ 1 ∷ [])) (hands_over root_port ∷ [])).body (1 ∷ 1 ∷ []) ≡
        Some (Reference (At root_port)) }
    ensures no_reference { ¬ IsReadyTo (handing_to_native turns.Server (41 ∷ 8 ∷ 128 ∷ 0 ∷ 192 ∷ 4 ∷ 2 ∷ [])) (hands_over root_port) }
    ensures given { (run (handing_to_native turns.Server (41 ∷ 8 ∷ 128 ∷ 0 ∷ 192 ∷ 4 ∷ 1 ∷ [])) (gives root_port (8 ∷ []) ∷ [])).body client ≡
        Some (with_talk (served turns.Server 1) (calling 20 (41 ∷ 8 ∷ 128 ∷ 0 ∷ 193 ∷ 3 ∷ 1 ∷ []))) }
{}

/// With nothing to give it is done at once, whatever its client does, but not before it has a client
/// that has handed it the turn.
pub fn a_native_server_gives_nothing_at_its_turn()
    ensures receiving { IsReadyTo (awaiting 4) (gives root_port []) }
    ensures given { told_by_move (awaiting 4) (gives root_port []) ≡ Given (At root_port) 0 }
    ensures client { (run (awaiting 4) (gives root_port [] ∷ [])).body client ≡ (awaiting 4).body client }
    ensures no_room { IsReadyTo (awaiting 0) (gives root_port []) }
    ensures running { IsReadyTo idling (gives root_port []) }
    ensures no_words { ¬ IsReadyTo idling (gives root_port (8 ∷ [])) }
    ensures clients_turn { ¬ IsReadyTo leaving (gives root_port []) }
    ensures no_client { ¬ IsReadyTo two_clients (gives root_port []) }
{}

/// A native server takes up a parked talk where it stands, and has one client at a time. It is told
/// of the end.
pub fn a_native_server_has_one_client()
    ensures ready { IsReadyTo two_clients (accepts root_port client) }
    ensures taken_up { told_by_move two_clients (accepts root_port client) ≡ Taken (At root_port) client true turns.Server 5 }
    ensures client { (run two_clients (accepts root_port client ∷ [])).body client ≡
        Some (with_talk (served turns.Server 5) (calling 20 (36 ∷ 1 ∷ 128 ∷ 0 ∷ 192 ∷ 4 ∷ []))) }
    ensures other { IsReadyTo two_clients (accepts root_port second) }
    ensures one { ¬ IsReadyTo (run two_clients (accepts root_port client ∷ [])) (accepts root_port second) }
    ensures ended { told_by_move leaving (goes client) ≡ Ended (At root_port) }
    ensures left { becomes leaving client ≡ Some (running 21 []) }
{}
