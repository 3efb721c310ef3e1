//! Holds, and what they freeze.
#![tactic(auto, unfolding(crate::specs::Holds::hold_worlds))]

ghost use Rattle.std.specs.Prelude.{◌≡◌, [], ◌∷◌, ◌++◌, Some, None, false, replicate};
ghost use Rattle.fk_model.specs.declared.stage.Stage.TheVariants.{SpaceRelease};
ghost use Rattle.fk_model.specs.Places.Ptr.{At};
ghost use Rattle.fk_model.specs.Objects.Body.{Mutex, Space};
ghost use Rattle.fk_model.specs.Outcomes.Said.{Answered};
ghost use Rattle.fk_model.specs.Runs.{run, IsLegal};
ghost use Rattle.examples_moves.specs.Worked.{becomes, IsReadyTo, told_by_move, goes, makes, running, numbers_from, client, server};
ghost use Rattle.examples_moves.specs.Holds.{holder, other, inner, before_hold, held, storing, held_in_held, talk_across, sends_5, receives_9, fault_across};
ghost use Rattle.examples_moves.specs.Holds.{working_porter};
ghost use Rattle.examples_moves.specs.States.{inner_porter};

/// A thread holds a space, and then nothing in it moves.
pub fn a_hold_stops_what_it_holds()
    ensures moves { IsReadyTo (before_hold []) (goes inner) }
    ensures ready { IsReadyTo (before_hold []) (goes holder) }
    ensures held { (run (before_hold []) (goes holder ∷ [])).body (1 ∷ []) ≡ Some (Space 1 (Some (At holder))) }
    ensures done { becomes (before_hold []) holder ≡ Some (running 1 (0 ∷ 256 ∷ 1 ∷ [])) }
    ensures stands { ¬ IsReadyTo (run (before_hold []) (goes holder ∷ [])) (goes inner) }
{}

/// While a space is held another thread is refused HELD where it creates in it, and can't hold it;
/// it may read states there. The holder may create.
pub fn others_only_read_a_held_space()
    ensures ready { IsLegal (before_hold (1 ∷ 1 ∷ 0 ∷ 1 ∷ [])) (goes holder ∷ goes other ∷ []) }
    ensures refused { (run (before_hold (1 ∷ 1 ∷ 0 ∷ 1 ∷ [])) (goes holder ∷ goes other ∷ [])).body other ≡
        Some (running 1 (9 ∷ 1 ∷ 0 ∷ 1 ∷ [])) }
    ensures waits { ¬ IsReadyTo (run (before_hold (13 ∷ 256 ∷ 1 ∷ [])) (goes holder ∷ [])) (goes other) }
    ensures reads { IsLegal (before_hold (9 ∷ 1 ∷ 0 ∷ 64 ∷ [])) (goes holder ∷ goes other ∷ []) }
    ensures read { (run (before_hold (9 ∷ 1 ∷ 0 ∷ 64 ∷ [])) (goes holder ∷ goes other ∷ [])).body other ≡
        Some (running 1 (0 ∷ 1 ∷ 0 ∷ 64 ∷ [])) }
    ensures shown { (run (before_hold (9 ∷ 1 ∷ 0 ∷ 64 ∷ [])) (goes holder ∷ goes other ∷ [])).page [] 1 ≡
        Some ((8 ∷ []) ++ (replicate 31 0 ++ numbers_from 1096 32)) }
    ensures may { IsReadyTo (held (1 ∷ 1 ∷ 5 ∷ 1 ∷ []) []) (goes holder) }
    ensures creates { (run (held (1 ∷ 1 ∷ 5 ∷ 1 ∷ []) []) (goes holder ∷ [])).body (5 ∷ 1 ∷ []) ≡
        Some (Mutex false) }
{}

/// Its holder alone releases a space.
pub fn only_its_holder_releases_a_space()
    ensures ready { IsReadyTo (held (14 ∷ 256 ∷ 1 ∷ []) (14 ∷ 256 ∷ 1 ∷ [])) (goes holder) }
    ensures released { (run (held (14 ∷ 256 ∷ 1 ∷ []) []) (goes holder ∷ [])).body (1 ∷ []) ≡ Some (Space 1 None) }
    ensures done { becomes (held (14 ∷ 256 ∷ 1 ∷ []) []) holder ≡ Some (running 1 (0 ∷ 256 ∷ 1 ∷ [])) }
    ensures denied { becomes (held [] (14 ∷ 256 ∷ 1 ∷ [])) other ≡ Some (running 1 (13 ∷ 256 ∷ 1 ∷ [])) }
    ensures stays { (run (held [] (14 ∷ 256 ∷ 1 ∷ [])) (goes other ∷ [])).body (1 ∷ []) ≡
        Some (Space 1 (Some (At holder))) }
    ensures unheld { becomes (held [] (14 ∷ 256 ∷ 5 ∷ [])) other ≡ Some (running 1 (13 ∷ 256 ∷ 5 ∷ [])) }
{}

/// A store through a window on a page of a held space isn't ready, for anybody but the holder.
pub fn a_held_spaces_pages_are_frozen()
    ensures ready { IsReadyTo (storing None) (goes (6 ∷ [])) }
    ensures stored { (run (storing None) (goes (6 ∷ []) ∷ [])).page (1 ∷ []) 3 ≡ Some (7 ∷ numbers_from 1193 63) }
    ensures waits { ¬ IsReadyTo (storing (Some (At holder))) (goes (6 ∷ [])) }
    ensures may { IsReadyTo (storing (Some (At (6 ∷ [])))) (goes (6 ∷ [])) }
{}

/// No pointer comes to lead to what another thread holds, and none that leads there is changed; the
/// holder may do both. Nor is an object renamed or destroyed to which a pointer of a held space
/// leads.
pub fn pointers_to_what_is_held_are_frozen()
    ensures points { ¬ IsReadyTo (held [] (5 ∷ 256 ∷ 9 ∷ 1 ∷ 0 ∷ [])) (goes other) }
    ensures clears { ¬ IsReadyTo (held [] (6 ∷ 256 ∷ 8 ∷ [])) (goes other) }
    ensures copies { ¬ IsReadyTo (held [] (5 ∷ 256 ∷ 9 ∷ 256 ∷ 8 ∷ [])) (goes other) }
    ensures renames { ¬ IsReadyTo (held [] (3 ∷ 256 ∷ 10 ∷ 11 ∷ [])) (goes other) }
    ensures destroys { ¬ IsReadyTo (held [] (2 ∷ 256 ∷ 10 ∷ [])) (goes other) }
    ensures holder_points { IsReadyTo (held (5 ∷ 256 ∷ 9 ∷ 1 ∷ 0 ∷ []) []) (goes holder) }
    ensures holder_clears { IsReadyTo (held (6 ∷ 256 ∷ 8 ∷ []) []) (goes holder) }
    ensures elsewhere { IsReadyTo (held [] (6 ∷ 256 ∷ 9 ∷ [])) (goes other) }
{}

/// While a porter holds a space nobody comes to hold one above it; after its release somebody may.
pub fn nobody_holds_above_a_porters_hold()
    ensures waits { ¬ IsReadyTo working_porter (goes holder) }
    ensures releases { IsReadyTo working_porter (makes inner_porter (SpaceRelease 256 2) []) }
    ensures answer { told_by_move working_porter (makes inner_porter (SpaceRelease 256 2) []) ≡ Answered 0 [] }
    ensures ready { IsReadyTo (run working_porter (makes inner_porter (SpaceRelease 256 2) [] ∷ [])) (goes holder) }
    ensures done { (run working_porter (makes inner_porter (SpaceRelease 256 2) [] ∷ goes holder ∷ [])).body holder ≡
        Some (running 1 (0 ∷ 256 ∷ 1 ∷ [])) }
{}

/// Of two holds the outer one's holder decides: the inner one's is refused HELD, also where it
/// releases its own. The outer holder doesn't come to hold the inner space either.
pub fn the_outermost_holder_decides()
    ensures ready { IsReadyTo (held_in_held (1 ∷ 3 ∷ 5 ∷ 1 ∷ []) []) (goes holder) }
    ensures outer { (run (held_in_held (1 ∷ 3 ∷ 5 ∷ 1 ∷ []) []) (goes holder ∷ [])).body (5 ∷ 2 ∷ 1 ∷ []) ≡
        Some (Mutex false) }
    ensures inner { becomes (held_in_held [] (1 ∷ 3 ∷ 5 ∷ 1 ∷ [])) other ≡ Some (running 1 (9 ∷ 3 ∷ 5 ∷ 1 ∷ [])) }
    ensures release { becomes (held_in_held [] (14 ∷ 1 ∷ 2 ∷ [])) other ≡ Some (running 1 (9 ∷ 1 ∷ 2 ∷ [])) }
    ensures not_holder { becomes (held_in_held (14 ∷ 1 ∷ 2 ∷ []) []) holder ≡ Some (running 1 (13 ∷ 1 ∷ 2 ∷ [])) }
    ensures waits { ¬ IsReadyTo (held_in_held (13 ∷ 1 ∷ 2 ∷ []) []) (goes holder) }
{}

/// Nobody sends to a thread in a held space, nor ends a talk with it, from either side; no fault of
/// a thread there ends.
pub fn talks_and_faults_stand_across_a_hold()
    ensures sends { IsReadyTo (talk_across None None sends_5 receives_9) (goes client) }
    ensures held_receiver { ¬ IsReadyTo (talk_across None (Some (At holder)) sends_5 receives_9) (goes client) }
    ensures held_sender { ¬ IsReadyTo (talk_across (Some (At holder)) None sends_5 receives_9) (goes client) }
    ensures disconnects { IsReadyTo (talk_across None None (39 ∷ []) (50 ∷ [])) (goes client) }
    ensures held_server { ¬ IsReadyTo (talk_across None (Some (At holder)) (39 ∷ []) (50 ∷ [])) (goes client) }
    ensures idle_server { IsReadyTo (talk_across None None (39 ∷ []) (48 ∷ [])) (goes client) }
    ensures held_idle_server { ¬ IsReadyTo (talk_across None (Some (At holder)) (39 ∷ []) (48 ∷ [])) (goes client) }
    ensures ends { IsReadyTo (talk_across None None (50 ∷ []) (55 ∷ [])) (goes server) }
    ensures held_client { ¬ IsReadyTo (talk_across (Some (At holder)) None (50 ∷ []) (55 ∷ [])) (goes server) }
    ensures fault_ends { IsReadyTo (fault_across None) (goes other) }
    ensures held_fault { ¬ IsReadyTo (fault_across (Some (At holder))) (goes other) }
    ensures holders_fault { ¬ IsReadyTo (fault_across (Some (At other))) (goes other) }
{}

/// A call is refused HELD that names a thread of a held space to stop it or to set its state, and
/// one that would destroy a held space first. The holder sets the state of a thread there, though
/// nobody stopped it.
pub fn what_is_held_is_refused()
    ensures stops { becomes (held [] (15 ∷ 8 ∷ [])) other ≡ Some (running 1 (9 ∷ 8 ∷ [])) }
    ensures sets { becomes (held [] (10 ∷ 1 ∷ 0 ∷ 128 ∷ [])) other ≡ Some (running 1 (9 ∷ 1 ∷ 0 ∷ 128 ∷ [])) }
    ensures destroys { becomes (held [] (2 ∷ 1 ∷ 0 ∷ [])) other ≡ Some (running 1 (9 ∷ 1 ∷ 0 ∷ [])) }
    ensures destroys_above { becomes (held [] (2 ∷ 256 ∷ 5 ∷ [])) other ≡ Some (running 1 (9 ∷ 256 ∷ 5 ∷ [])) }
    ensures gives { becomes (held [] (17 ∷ 1 ∷ 3 ∷ 64 ∷ [])) other ≡ Some (running 1 (9 ∷ 1 ∷ 3 ∷ 64 ∷ [])) }
    ensures ready { IsReadyTo (held (10 ∷ 1 ∷ 0 ∷ 128 ∷ []) []) (goes holder) }
    ensures holder_sets { (run (held (10 ∷ 1 ∷ 0 ∷ 128 ∷ []) []) (goes holder ∷ [])).body inner ≡
        Some (running 0 (5 ∷ [])) }
{}
