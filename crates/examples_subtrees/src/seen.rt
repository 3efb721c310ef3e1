//! How moves look from within a subtree: each row once, and what comes near to one.
#![tactic(auto, unfolding(crate::specs::Seen::seen_worlds))]

ghost use Rattle.std.specs.Prelude.{[], ◌∷◌, Some, None, replicate};
ghost use Rattle.fk_model.specs.declared.stage.Stage.TheVariants.{Search, PageGive, PageTake, MutexLock};
ghost use Rattle.fk_model.specs.declared.thread.Turn.TheVariants as turns;
ghost use Rattle.fk_model.specs.Places.Ptr.{Null, Dead, At, Out};
ghost use Rattle.fk_model.specs.Objects.Body.{Reference};
ghost use Rattle.fk_model.specs.Objects.Peer.{Server, Parked};
ghost use Rattle.fk_model.specs.Further.Onward.{Own};
ghost use Rattle.fk_model.specs.Further.Touch.{Taken, Given, Filled, Handed, HandedWith, Left, FaultTaken, FaultDone, PageGiven, PageTaken};
ghost use Rattle.fk_model.specs.Seen.Seen.{Onwards, Unseen, Other};
ghost use Rattle.examples_moves.specs.Worked.{goes, picks, makes, accepts, gives, hands_over, running, calling, stopped, numbers_from};
ghost use Rattle.examples_subtrees.specs.Seen.{LooksLike, Touches, IsInNoRow, outer_server, native_port, porter, inner_client, facing, facing_beside, at_9, at_10};
ghost use Rattle.examples_subtrees.specs.Seen.{parked_at, sends_words, receives_into, server_receives, server_sends, waits, faulty, inner_server, talking_inside};
ghost use Rattle.examples_subtrees.specs.Cuts.{in_subtree, subtree};
ghost use Rattle.examples_subtrees.specs.Seen.{hands_over_of, awaits_in, handing_in, sleeping_inside, waiting_inside, storing_in};

/// What a thread inside does is the subtree's own, with whom it picks inside, and with as many words
/// as somebody outside takes of it: none where it sends none, or sends them to somebody inside.
pub fn a_move_inside_is_the_subtrees_own()
    ensures lock { LooksLike (facing (running 0 []) (calling 20 (21 ∷ 3 ∷ []))) (goes inner_client) (Onwards (Own (0 ∷ []) None 0)) }
    ensures picks { LooksLike sleeping_inside (picks inner_client inner_server) (Onwards (Own (0 ∷ []) (Some (6 ∷ [])) 0)) }
    ensures sends { LooksLike (facing (running 0 []) (at_10 turns.Client (sends_words 70))) (goes inner_client) (Onwards (Own (0 ∷ []) None 64)) }
    ensures to_thread { LooksLike (facing (server_receives 3) (at_9 turns.Client (sends_words 70))) (goes inner_client)
        (Onwards (Own (0 ∷ []) None 3)) }
    ensures none { LooksLike (facing (server_receives 3) (at_9 turns.Client (sends_words 0))) (goes inner_client) (Onwards (Own (0 ∷ []) None 0)) }
    ensures within { LooksLike talking_inside (goes inner_client) (Onwards (Own (0 ∷ []) None 0)) }
    ensures refused { LooksLike (facing (server_receives 3) (at_9 turns.Server (sends_words 70))) (goes inner_client)
        (Onwards (Own (0 ∷ []) None 0)) }
    ensures no_room { IsInNoRow (facing (server_receives 0) (at_9 turns.Client (sends_words 70))) (goes inner_client) }
    ensures picks_outside { LooksLike waiting_inside (picks inner_client outer_server) Other }
{}

/// A turn that a thread inside hands to the outside is the subtree's own move, with a pointer as without,
/// whether it is awaited there or not.
pub fn a_pointer_that_goes_out_is_the_subtrees_own()
    ensures awaited { LooksLike (facing_beside (3 ∷ []) (Reference Null) (calling 30 (58 ∷ 0 ∷ 0 ∷ 0 ∷ 256 ∷ 3 ∷ 3 ∷ [])) (at_9 turns.Client (calling 20 (40 ∷ 2 ∷ []))))
        (goes inner_client) (Onwards (Own (0 ∷ []) None 0)) }
    ensures dropped { LooksLike (facing (server_receives 3) (at_9 turns.Client (calling 20 (40 ∷ 2 ∷ [])))) (goes inner_client) (Onwards (Own (0 ∷ []) None 0)) }
    ensures native { LooksLike (facing (running 0 []) (at_10 turns.Client (calling 20 (40 ∷ 2 ∷ [])))) (goes inner_client) (Onwards (Own (0 ∷ []) None 0)) }
    ensures refused { LooksLike (facing (server_receives 3) (at_9 turns.Client (calling 20 (40 ∷ 3 ∷ [])))) (goes inner_client) (Onwards (Own (0 ∷ []) None 0)) }
{}

/// A thread or a native server outside accepts a thread at its Connect. A parked talk that is taken
/// up isn't seen.
pub fn the_outside_accepts_a_thread()
    ensures by_wait { Touches (facing waits (calling 20 (32 ∷ 1 ∷ []))) (picks outer_server inner_client) (Taken (0 ∷ [])) }
    ensures by_native { Touches (facing (running 0 []) (calling 20 (32 ∷ 2 ∷ []))) (accepts native_port inner_client) (Taken (0 ∷ [])) }
    ensures resumed { IsInNoRow (facing waits (parked_at (9 ∷ []) (receives_into 4))) (picks outer_server inner_client) }
    ensures resumed_by_native { IsInNoRow (facing (running 0 []) (parked_at native_port (receives_into 4))) (accepts native_port inner_client) }
{}

/// A thread or a native server outside sends words to a thread, or finds no room there.
pub fn the_outside_gives_words()
    ensures by_thread { Touches (facing (server_sends 5) (at_9 turns.Server (receives_into 3))) (goes outer_server)
        (Given (0 ∷ []) (2256 ∷ 2257 ∷ 2258 ∷ [])) }
    ensures by_native { Touches (facing (running 0 []) (at_10 turns.Server (receives_into 4))) (gives native_port (7 ∷ 8 ∷ []))
        (Given (0 ∷ []) (7 ∷ 8 ∷ [])) }
    ensures filled { Touches (facing (server_sends 5) (at_9 turns.Server (receives_into 0))) (goes outer_server) (Filled (0 ∷ [])) }
    ensures filled_by_native { Touches (facing (running 0 []) (at_10 turns.Server (receives_into 0))) (gives native_port (7 ∷ [])) (Filled (0 ∷ [])) }
    ensures none { IsInNoRow (facing (server_sends 0) (at_9 turns.Server (receives_into 0))) (goes outer_server) }
    ensures none_by_native { IsInNoRow (facing (running 0 []) (at_10 turns.Server (receives_into 4))) (gives native_port []) }
    ensures refused { IsInNoRow (facing (server_sends 5) (at_9 turns.Client (receives_into 3))) (goes outer_server) }
{}

/// A thread or a native server outside hands a thread the turn, or ends its talk.
pub fn the_outside_hands_the_turn_and_leaves()
    ensures handed { Touches (facing (calling 30 (52 ∷ [])) (at_9 turns.Server (receives_into 4))) (goes outer_server) (Handed (0 ∷ [])) }
    ensures handed_by_native { Touches (facing (running 0 []) (at_10 turns.Server (receives_into 4))) (hands_over native_port) (Handed (0 ∷ [])) }
    ensures refused { IsInNoRow (facing (calling 30 (52 ∷ [])) (at_9 turns.Client (receives_into 4))) (goes outer_server) }
    ensures left { Touches (facing (calling 30 (55 ∷ [])) (at_9 turns.Client (running 0 []))) (goes outer_server) (Left (0 ∷ [])) }
    ensures no_talk { IsInNoRow (facing (calling 30 (55 ∷ [])) (running 0 [])) (goes outer_server) }
{}

/// A thread outside hands a pointer to a thread that awaits one: to nothing, into the subtree, to its
/// root or to a port of its nester, each as the subtree names it. With one that leads elsewhere the
/// move fits no row. A thread that awaits no pointer is handed the turn alone, wherever that leads,
/// and one that awaits one is handed the turn alone where none comes.
pub fn the_outside_hands_a_pointer_with_the_turn()
    ensures null { Touches (handing_in Null (awaits_in 1)) (goes outer_server) (HandedWith (0 ∷ []) Null) }
    ensures dead { Touches (handing_in Dead (awaits_in 1)) (goes outer_server) (HandedWith (0 ∷ []) Dead) }
    ensures inside { Touches (handing_in (At (in_subtree 5)) (awaits_in 1)) (goes outer_server) (HandedWith (0 ∷ []) (At (5 ∷ []))) }
    ensures root { Touches (handing_in (At subtree) (awaits_in 1)) (goes outer_server) (HandedWith (0 ∷ []) (At [])) }
    ensures port { Touches (handing_in (At native_port) (awaits_in 1)) (goes outer_server) (HandedWith (0 ∷ []) (Out 10)) }
    ensures beside { IsInNoRow (handing_in (At outer_server) (awaits_in 1)) (goes outer_server) }
    ensures above { IsInNoRow (handing_in (At []) (awaits_in 1)) (goes outer_server) }
    ensures beside_unawaited { Touches (handing_in (At outer_server) (receives_into 4)) (goes outer_server) (Handed (0 ∷ [])) }
    ensures none { Touches (facing (calling 30 (52 ∷ [])) (at_9 turns.Server (awaits_in 1))) (goes outer_server) (Handed (0 ∷ [])) }
    ensures none_by_native { Touches (facing (running 0 []) (at_10 turns.Server (awaits_in 1))) (hands_over native_port) (Handed (0 ∷ [])) }
    ensures no_reference { IsInNoRow (facing (hands_over_of 4) (at_9 turns.Server (awaits_in 1))) (goes outer_server) }
    ensures unready { IsInNoRow (handing_in Null (awaits_in 3)) (goes outer_server) }
{}

/// A thread outside takes a thread's fault, or is done with it. A parked fault that is taken up isn't
/// seen.
pub fn the_outside_takes_a_fault_and_ends_it()
    ensures taken { Touches (facing waits (faulty None)) (picks outer_server inner_client) (FaultTaken (0 ∷ [])) }
    ensures of_stopped { Touches (facing waits (stopped 1 (faulty None))) (picks outer_server inner_client) (FaultTaken (0 ∷ [])) }
    ensures resumed { IsInNoRow (facing waits (faulty (Some Parked))) (picks outer_server inner_client) }
    ensures done { Touches (facing (calling 30 (56 ∷ [])) (faulty (Some (Server (At outer_server))))) (goes outer_server) (FaultDone (0 ∷ [])) }
    ensures none { IsInNoRow (facing (calling 30 (56 ∷ [])) (faulty None)) (goes outer_server) }
{}

/// A thread or a porter outside gives a space inside a page, or takes one.
pub fn the_outside_gives_and_takes_pages()
    ensures given { Touches (facing (calling 30 (17 ∷ 1 ∷ 7 ∷ 256 ∷ [])) (running 0 [])) (goes outer_server) (PageGiven [] 7 (numbers_from 2256 64)) }
    ensures given_by_porter { Touches (facing (running 0 []) (running 0 [])) (makes porter (PageGive 1 7 0) (replicate 64 9))
        (PageGiven [] 7 (replicate 64 9)) }
    ensures occupied { IsInNoRow (facing (calling 30 (17 ∷ 1 ∷ 2 ∷ 256 ∷ [])) (running 0 [])) (goes outer_server) }
    ensures own_space { IsInNoRow (facing (calling 30 (17 ∷ 256 ∷ 7 ∷ 256 ∷ [])) (running 0 [])) (goes outer_server) }
    ensures taken { Touches (facing (calling 30 (18 ∷ 1 ∷ 2 ∷ 256 ∷ [])) (running 0 [])) (goes outer_server) (PageTaken [] 2) }
    ensures taken_by_porter { Touches (facing (running 0 []) (running 0 [])) (makes porter (PageTake 1 2 0) []) (PageTaken [] 2) }
    ensures missing { IsInNoRow (facing (calling 30 (18 ∷ 1 ∷ 7 ∷ 256 ∷ [])) (running 0 [])) (goes outer_server) }
    ensures read { IsInNoRow (facing (calling 30 (19 ∷ 1 ∷ 2 ∷ 256 ∷ [])) (running 0 [])) (goes outer_server) }
{}

/// Whatever else leaves the subtree as it was isn't seen; of what changes it otherwise no law speaks.
pub fn what_is_unseen_and_what_is_other()
    ensures denied { LooksLike (facing (running 0 []) (running 0 [])) (makes porter (MutexLock 3) []) Unseen }
    ensures searched { LooksLike (facing (running 0 []) (running 0 [])) (makes porter (Search 1 4) []) Unseen }
    ensures destroyed { LooksLike (facing (calling 30 (2 ∷ 1 ∷ 3 ∷ [])) (running 0 [])) (goes outer_server) Other }
    ensures stored { LooksLike (storing_in 7) (goes outer_server) Other }
{}
