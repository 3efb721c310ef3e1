//! Objects, references and handles.
#![tactic(auto, unfolding(crate::specs::Objects::object_worlds))]

ghost use Rattle.std.specs.Prelude.{◌≡◌, [], ◌∷◌, Some, None, false, map, replicate};
ghost use Rattle.fk_model.specs.Places.Ptr.{At, Null, Dead};
ghost use Rattle.fk_model.specs.Objects.Peer.{Server};
ghost use Rattle.fk_model.specs.Objects.Body.{Mutex, Port, Portset, Space, Reference};
ghost use Rattle.fk_model.specs.Runs.{run, IsLegal};
ghost use Rattle.examples_moves.specs.Worked.{becomes, scene, after_each, registers_at, registers_from, IsReadyTo, goes, times, running, calling, stopped};
ghost use Rattle.examples_moves.specs.Worked.{numbers_from, caller};
ghost use Rattle.examples_moves.specs.Objects.{alone_in, locating, searcher, searching, with_references, destroyer, server_receives, server_ended};
ghost use Rattle.examples_moves.specs.Objects.{still_destroys, served_one, destroying, up_to_the_last, destroyed, in_2_and_beside, renamer, renaming};
ghost use Rattle.examples_moves.specs.Objects.{port_and_references, port_set_and_port, talker, helped, set_port, root_server, helper, talking, missing_5};
ghost use Rattle.examples_moves.specs.Objects.{kept_by, related, related_ones, scene_after, answer_to, space_holder, holder_dies, beneath_itself};

/// What a reference leads to lies in slot 4 of the caller's space, and deeper there.
pub fn a_reference_is_located()
    ensures ready { IsReadyTo (locating 256) (goes caller) }
    ensures deeper { becomes (locating 256) caller ≡ Some (running 1 (0 ∷ 4 ∷ 1 ∷ 5 ∷ [])) }
    ensures itself { becomes (locating 4) caller ≡ Some (running 1 (0 ∷ 6 ∷ 0 ∷ 5 ∷ [])) }
{}

/// The first taken slot at or above 4 is 7, with a mutex; at or above 8 there is none.
pub fn a_search_finds_the_next_taken_slot()
    ensures ready { IsReadyTo (searching 4) (goes searcher) }
    ensures found { becomes (searching 4) searcher ≡ Some (running 1 (0 ∷ 7 ∷ 1 ∷ [])) }
    ensures none { becomes (searching 8) searcher ≡ Some (running 1 (16 ∷ 256 ∷ 8 ∷ [])) }
    ensures itself { becomes (searching 0) searcher ≡ Some (running 1 (0 ∷ 3 ∷ 8 ∷ [])) }
{}

/// A user thread is denied a porter's call.
pub fn a_user_is_denied_a_porters_call()
    ensures ready { IsReadyTo (alone_in (8 ∷ 256 ∷ 256 ∷ 0 ∷ [])) (goes caller) }
    ensures denied { becomes (alone_in (8 ∷ 256 ∷ 256 ∷ 0 ∷ [])) caller ≡ Some (running 1 (13 ∷ 256 ∷ 256 ∷ [])) }
{}

/// A new thread is stopped once, a new space has the next birth number. A slot is taken once, and
/// there are nine kinds.
pub fn objects_are_made()
    ensures thread { (run (alone_in (1 ∷ 256 ∷ 9 ∷ 8 ∷ [])) (goes caller ∷ [])).body (9 ∷ 1 ∷ []) ≡
        Some (stopped 1 (running 0 [])) }
    ensures space { (run (alone_in (1 ∷ 256 ∷ 9 ∷ 7 ∷ [])) (goes caller ∷ [])).body (9 ∷ 1 ∷ []) ≡
        Some (Space 100 None) }
    ensures next { (run (alone_in (1 ∷ 256 ∷ 9 ∷ 7 ∷ [])) (goes caller ∷ [])).next ≡ 101 }
    ensures maker { becomes (alone_in (1 ∷ 256 ∷ 9 ∷ 7 ∷ [])) caller ≡ Some (running 1 (0 ∷ 256 ∷ 9 ∷ 7 ∷ [])) }
    ensures taken { becomes (alone_in (1 ∷ 256 ∷ 0 ∷ 1 ∷ [])) caller ≡ Some (running 1 (4 ∷ 256 ∷ 0 ∷ 1 ∷ [])) }
    ensures no_kind { becomes (alone_in (1 ∷ 256 ∷ 9 ∷ 10 ∷ [])) caller ≡ Some (running 1 (3 ∷ 256 ∷ 9 ∷ 10 ∷ [])) }
    ensures no_slot { becomes (alone_in (1 ∷ 256 ∷ 240 ∷ 1 ∷ [])) caller ≡
        Some (running 1 (2 ∷ 256 ∷ 240 ∷ 1 ∷ [])) }
{}

/// A handle of a thread is refused where its slot is empty or no user's, where the object is of
/// another kind, and where a reference there leads to nothing, to what was destroyed, or to another
/// kind.
pub fn handles_are_checked_in_order()
    ensures empty { becomes (with_references (15 ∷ 9 ∷ [])) caller ≡ Some (running 1 (2 ∷ 9 ∷ [])) }
    ensures no_slot { becomes (with_references (15 ∷ 240 ∷ [])) caller ≡ Some (running 1 (2 ∷ 240 ∷ [])) }
    ensures wrong { becomes (with_references (15 ∷ 5 ∷ [])) caller ≡ Some (running 1 (3 ∷ 5 ∷ [])) }
    ensures null { becomes (with_references (15 ∷ 1 ∷ [])) caller ≡ Some (running 1 (6 ∷ 1 ∷ [])) }
    ensures dead { becomes (with_references (15 ∷ 2 ∷ [])) caller ≡ Some (running 1 (5 ∷ 2 ∷ [])) }
    ensures leads_wrong { becomes (with_references (15 ∷ 3 ∷ [])) caller ≡ Some (running 1 (3 ∷ 3 ∷ [])) }
    ensures leads_right { becomes (with_references (15 ∷ 4 ∷ [])) caller ≡ Some (stopped 1 (running 1 (0 ∷ 4 ∷ []))) }
{}

/// A reference is pointed at a port, takes another reference's pointer, and is cleared; it is
/// pointed at no mutex.
pub fn references_are_pointed_and_cleared()
    ensures ready { IsReadyTo (with_references (5 ∷ 256 ∷ 1 ∷ 256 ∷ 6 ∷ [])) (goes caller) }
    ensures pointed { (run (with_references (5 ∷ 256 ∷ 1 ∷ 256 ∷ 6 ∷ [])) (goes caller ∷ [])).body (1 ∷ 1 ∷ []) ≡
        Some (Reference (At (6 ∷ 1 ∷ []))) }
    ensures copied { (run (with_references (5 ∷ 256 ∷ 1 ∷ 256 ∷ 4 ∷ [])) (goes caller ∷ [])).body (1 ∷ 1 ∷ []) ≡
        Some (Reference (At caller)) }
    ensures copied_dead { (run (with_references (5 ∷ 256 ∷ 1 ∷ 256 ∷ 2 ∷ [])) (goes caller ∷ [])).body (1 ∷ 1 ∷ []) ≡
        Some (Reference Dead) }
    ensures not_mutex { becomes (with_references (5 ∷ 256 ∷ 1 ∷ 256 ∷ 5 ∷ [])) caller ≡
        Some (running 1 (3 ∷ 256 ∷ 1 ∷ 256 ∷ 5 ∷ [])) }
    ensures cleared { (run (with_references (6 ∷ 256 ∷ 3 ∷ [])) (goes caller ∷ [])).body (3 ∷ 1 ∷ []) ≡
        Some (Reference Null) }
{}

/// A space is destroyed stage by stage, the objects in it by rising slot and then itself, with its
/// pages. The end of a thread in it ends its server's call. Pointers to what was destroyed are
/// dead.
pub fn a_space_is_destroyed_stage_by_stage()
    ensures ready { IsLegal destroying (times 4 (goes destroyer)) }
    ensures stages { map (scene in_2_and_beside) (after_each destroying (replicate 4 (goes destroyer ∷ []))) ≡
        (None ∷ Some served_one ∷ Some (Mutex false) ∷ Some (Space 1 None)
        ∷ Some server_receives ∷ Some still_destroys ∷ Some (Reference (At (2 ∷ [])))
        ∷ Some (Reference (At (1 ∷ 2 ∷ []))) ∷ [])
        ∷ (None ∷ None ∷ Some (Mutex false) ∷ Some (Space 1 None) ∷ Some server_ended
        ∷ Some still_destroys ∷ Some (Reference (At (2 ∷ []))) ∷ Some (Reference Dead) ∷ [])
        ∷ (None ∷ None ∷ None ∷ Some (Space 1 None) ∷ Some server_ended ∷ Some still_destroys
        ∷ Some (Reference (At (2 ∷ []))) ∷ Some (Reference Dead) ∷ [])
        ∷ (None ∷ None ∷ None ∷ None ∷ Some server_ended ∷ Some (running 1 (0 ∷ 256 ∷ 2 ∷ []))
        ∷ Some (Reference Dead) ∷ Some (Reference Dead) ∷ []) ∷ [] }
    ensures shown { registers_at (destroyed 2) destroyer ≡ registers_from (2 ∷ 256 ∷ 2 ∷ []) }
    ensures pages { map (λ w. w.page (2 ∷ []) 0) (after_each destroying up_to_the_last) ≡
        Some (numbers_from 2000 64) ∷ None ∷ [] }
{}

/// A port gets another slot, and each reference to it follows. A slot that is taken is refused, and
/// a space that has an object in it. A port stays in its set when that is renamed.
pub fn references_follow_a_renamed_port()
    ensures ready { IsLegal renaming (goes (renamer 10) ∷ goes (renamer 11) ∷ goes (renamer 12) ∷ []) }
    ensures done { becomes renaming (renamer 10) ≡ Some (running 1 (0 ∷ 256 ∷ 4 ∷ 7 ∷ [])) }
    ensures follow { scene port_and_references (run renaming (goes (renamer 10) ∷ [])) ≡
        None ∷ Some (Port (Some 20) false) ∷ Some (Reference (At (7 ∷ 1 ∷ [])))
        ∷ Some (Reference (At (7 ∷ 1 ∷ []))) ∷ Some (Reference (At (7 ∷ 1 ∷ []))) ∷ [] }
    ensures occupied { (run renaming (goes (renamer 10) ∷ goes (renamer 11) ∷ [])).body (renamer 11) ≡
        Some (running 1 (4 ∷ 256 ∷ 7 ∷ 5 ∷ [])) }
    ensures not_empty { becomes renaming (renamer 12) ≡ Some (running 1 (17 ∷ 256 ∷ 8 ∷ 9 ∷ [])) }
    ensures ready_set { IsLegal renaming (goes (renamer 13) ∷ []) }
    ensures set { scene port_set_and_port (run renaming (goes (renamer 13) ∷ [])) ≡
        None ∷ Some Portset ∷ Some (Port (Some 21) false) ∷ [] }
{}

/// With a port its talks and the faults on it are gone, and the calls of both ends of a talk end;
/// the keeper is dead. With a server its talk is gone, and its client's call ends; a fault that it
/// had taken is raised again. Without its port set a port is in none.
pub fn talks_and_faults_end_with_what_is_destroyed()
    ensures port { scene_after related_ones (2 ∷ 256 ∷ 3 ∷ []) ≡
        Some server_ended ∷ Some (running 21 (14 ∷ [])) ∷ Some (running 0 [])
        ∷ Some (running 0 []) ∷ Some (kept_by Dead) ∷ [] }
    ensures done { answer_to (2 ∷ 256 ∷ 3 ∷ []) ≡ Some (running 1 (0 ∷ 256 ∷ 3 ∷ [])) }
    ensures server { scene_after related_ones (2 ∷ 256 ∷ 2 ∷ []) ≡
        None ∷ Some (running 21 (14 ∷ [])) ∷ Some (missing_5 set_port None (running 0 []))
        ∷ Some (missing_5 set_port (Some (Server (At helper))) (running 0 []))
        ∷ Some (kept_by (At set_port)) ∷ [] }
    ensures taker { (run (related (2 ∷ 256 ∷ 7 ∷ [])) (goes destroyer ∷ [])).body helped ≡
        Some (missing_5 set_port None (running 0 [])) }
    ensures set { (run (related (2 ∷ 256 ∷ 8 ∷ [])) (goes destroyer ∷ [])).body set_port ≡
        Some (Port None false) }
{}

/// Talks, faults and keepers follow a renamed port and a renamed server. A thread that renames
/// itself ends its call in its new slot. A served port isn't renamed, and nothing to a slot above
/// 239.
pub fn talks_and_faults_follow_what_is_renamed()
    ensures port { scene_after related_ones (3 ∷ 256 ∷ 3 ∷ 9 ∷ []) ≡
        Some server_receives ∷ Some (talking (9 ∷ []) root_server (calling 20 (38 ∷ [])))
        ∷ Some (missing_5 (9 ∷ []) None (running 0 []))
        ∷ Some (missing_5 (9 ∷ []) (Some (Server (At helper))) (running 0 []))
        ∷ Some (kept_by (At (9 ∷ []))) ∷ [] }
    ensures server { scene_after (talker ∷ (9 ∷ []) ∷ []) (3 ∷ 256 ∷ 2 ∷ 9 ∷ []) ≡
        Some (talking set_port (9 ∷ []) (calling 20 (38 ∷ []))) ∷ Some server_receives ∷ [] }
    ensures taker { (run (related (3 ∷ 256 ∷ 7 ∷ 9 ∷ [])) (goes destroyer ∷ [])).body helped ≡
        Some (missing_5 set_port (Some (Server (At (9 ∷ [])))) (running 0 [])) }
    ensures itself { scene_after (destroyer ∷ (9 ∷ []) ∷ []) (3 ∷ 256 ∷ 0 ∷ 9 ∷ []) ≡
        None ∷ Some (running 1 (0 ∷ 256 ∷ 0 ∷ 9 ∷ [])) ∷ [] }
    ensures served { answer_to (3 ∷ 256 ∷ 10 ∷ 9 ∷ []) ≡ Some (running 1 (13 ∷ 256 ∷ 10 ∷ 9 ∷ [])) }
    ensures too_high { answer_to (3 ∷ 256 ∷ 3 ∷ 240 ∷ []) ≡ Some (running 1 (2 ∷ 256 ∷ 3 ∷ 240 ∷ [])) }
{}

/// A holder that destroys itself leaves its space unheld; nobody else destroys it. No thread
/// destroys or holds the space in which it lives.
pub fn holders_and_own_spaces_are_not_destroyed_by_others()
    ensures itself { scene (space_holder ∷ (6 ∷ []) ∷ []) (run holder_dies (goes space_holder ∷ [])) ≡
        None ∷ Some (Space 1 None) ∷ [] }
    ensures other { ¬ IsReadyTo holder_dies (goes destroyer) }
    ensures own_space { becomes (beneath_itself (2 ∷ 1 ∷ 2 ∷ [])) (0 ∷ 2 ∷ 1 ∷ []) ≡
        Some (running 1 (13 ∷ 1 ∷ 2 ∷ [])) }
    ensures own_hold { becomes (beneath_itself (13 ∷ 1 ∷ 2 ∷ [])) (0 ∷ 2 ∷ 1 ∷ []) ≡
        Some (running 1 (13 ∷ 1 ∷ 2 ∷ [])) }
{}
